//! Finds the difference between the schema of a database and a schema version.
ghost use Rattle.std.specs.Prelude.{◌≡◌, ◌≢◌, ◌↔◌, IfOk, IsTrue, MatchOption};
ghost use Rattle.sql_base.specs.Columns.{no_schema};
ghost use Rattle.sqlite_catalog.specs.Change.{is_reserved};
ghost use Rattle.sql_tables.specs.Alike.{AreAmong, HasExactly, HasNoFurtherKey, IsOneOf};
ghost use Rattle.sql_tables.specs.Alike.{is_no_further_key};
ghost use Rattle.examination.specs.Differences.{Differs, IsFirstWithout, has_table, has_view};
ghost use Rattle.examination.specs.Differences.{Lacks, is_taken, nearest};

use crate::difference::Difference;
use sql_base::is_empty;
use sql_tables::{Version, are_same_but_tree};
use sqlite_schema::names::same_name;
use sqlite_schema::schema::{Index, Schema, Table};
use sqlite_value::value::Bytes;
use std::alloc::{AllocError, Global};

// Returns `true` if a table has this name.
fn has_table(schema: &Schema, name: &[u8]) -> bool
    ensures { result ≡ has_table schema.now name.now }
{
    schema
        .tables
        .as_slice()
        .iter()
        .any(|table| same_name(table.name.as_slice(), name))
}

// Returns `true` if a view has this name.
fn has_view(schema: &Schema, name: &[u8]) -> bool
    ensures { result ≡ has_view schema.now name.now }
{
    schema
        .views
        .as_slice()
        .iter()
        .any(|view| same_name(view.name.as_slice(), name))
}

// Returns `true` if a view or a table has this name, even a table that isn't understood.
fn is_taken(schema: &Schema, name: &[u8]) -> bool
    ensures { result ≡ is_taken schema.now name.now }
{
    has_table(schema, name) || has_view(schema, name)
}

/// Returns the version with which `schema` is compared.
pub(crate) fn nearest(schema: &Schema) -> Version
    ensures { result ≡ nearest schema.now }
{
    if has_table(schema, b"grouping") && !has_table(schema, b"grouping2") {
        if has_table(schema, b"mark") {
            Version::Two
        } else {
            Version::One
        }
    } else {
        Version::Three
    }
}

#[tactic(auto, unfolding(sql_tables::specs::Alike::IsOneOf))]
fn is_one_of(table: &Table, others: &[Table]) -> bool
    ensures { IsTrue result ↔ IsOneOf others.now table.now }
{
    others.iter().any(|other| are_same_but_tree(table, other))
}

// Returns the first table that is different from all `others`. Tree numbers don't matter.
#[tactic(auto, unfolding(sql_tables::specs::Alike::AreAmong))]
fn first_unlike<'a>(tables: &'a [Table], others: &[Table]) -> Option<&'a Table>
    ensures { MatchOption result (AreAmong tables.now others.now)
        (λ table. IsFirstWithout (IsOneOf others.now) tables.now table.now) }
{
    for table in tables {
        if !is_one_of(table, others) {
            return Some(table);
        }
    }
    None
}

// Returns `true` if SQLite reserves the name for itself.
fn is_reserved(name: &[u8]) -> bool
    ensures { result ≡ is_reserved name.now }
{
    same_name(&name[..name.len().min(7)], b"sqlite_")
}

fn is_no_further_key(index: &Index) -> bool
    ensures { IsTrue result ↔ is_no_further_key index.now }
{
    !index.is_unique || is_reserved(index.name.as_slice())
}

// Returns the first unique index that isn't declared by a table.
#[tactic(auto, unfolding(sql_tables::specs::Alike::HasNoFurtherKey))]
fn first_further_key(indexes: &[Index]) -> Option<&Index>
    ensures { MatchOption result (HasNoFurtherKey indexes.now)
        (λ index. IsFirstWithout is_no_further_key indexes.now index.now) }
{
    for index in indexes {
        if !is_no_further_key(index) {
            return Some(index);
        }
    }
    None
}

// Returns a copy of a name in the schema.
fn copied(alloc: Global, name: &Bytes) -> Result<Vec<u8>, AllocError>
    ensures { IfOk result (λ copy. copy.items ≡ name.now) }
{
    Vec::from_slice(alloc, name.as_slice())
}

// Returns the difference for the table `table`, which the schema doesn't have. The schema isn't
// empty.
fn lacking(alloc: Global, schema: &Schema, table: &Table) -> Result<Difference, AllocError>
    requires { schema.now ≢ no_schema }
    ensures { IfOk result (Lacks schema.now table.now) }
{
    let name = copied(alloc, &table.name)?;
    if is_taken(schema, table.name.as_slice()) {
        Ok(Difference::Other { table: name })
    } else {
        Ok(Difference::Missing { table: name })
    }
}

/// Returns the difference between `schema` and `ours`, which are different.
pub(crate) fn schema_difference(
    alloc: Global,
    schema: &Schema,
    ours: &Schema,
) -> Result<Difference, AllocError>
    requires { ¬ HasExactly schema.now ours.now }
    ensures { IfOk result (Differs ours.now schema.now) }
{
    if is_empty(schema) {
        return Ok(Difference::Empty);
    }
    let (our_tables, tables) = (ours.tables.as_slice(), schema.tables.as_slice());
    if let Some(missing) = first_unlike(our_tables, tables) {
        return lacking(alloc, schema, missing);
    }
    if let Some(foreign) = first_unlike(tables, our_tables) {
        let table = copied(alloc, &foreign.name)?;
        return Ok(Difference::Foreign { table });
    }
    if let Some(key) = first_further_key(schema.indexes.as_slice()) {
        let index = copied(alloc, &key.name)?;
        return Ok(Difference::FurtherKey { index });
    }
    if let [first, ..] = schema.views.as_slice() {
        let view = copied(alloc, &first.name)?;
        return Ok(Difference::View { view });
    }
    Ok(Difference::SharedPage)
}
