//! Compares a schema with the tables of another, in any order and with any tree numbers.
ghost use Rattle.std.specs.Prelude.{◌≡◌, ◌↔◌, IsTrue};
ghost use Rattle.sqlite_catalog.specs.Change.{is_reserved};
ghost use Rattle.sql_tables.specs.Alike.{AreAmong, AreApart, HasExactly, HasNoFurtherKey, IsApart};
ghost use Rattle.sql_tables.specs.Alike.{IsOneOf, is_no_further_key};

use crate::parts::are_same_but_tree;
use sqlite_schema::names::same_name;
use sqlite_schema::schema::{Index, Schema, Table};

#[tactic(auto, unfolding(crate::specs::Alike::IsOneOf))]
fn is_one_of(table: &Table, others: &[Table]) -> bool
    ensures { IsTrue result ↔ IsOneOf others.now table.now }
{
    others.iter().any(|other| are_same_but_tree(table, other))
}

#[tactic(auto, unfolding(crate::specs::Alike::AreAmong))]
fn are_among(tables: &[Table], others: &[Table]) -> bool
    ensures { IsTrue result ↔ AreAmong tables.now others.now }
{
    tables.iter().all(|table| is_one_of(table, others))
}

// Returns `true` if no other table has the tree number of `table`.
fn is_apart(table: &Table, others: &[Table]) -> bool
    ensures { IsTrue result ↔ IsApart table.now others.now }
{
    let mut rest = others;
    while let [other, more @ ..] = rest {
        if table.tree == other.tree {
            return false;
        }
        rest = more;
    }
    true
}

// Returns `true` if all tree numbers are different.
fn are_apart(tables: &[Table]) -> bool
    ensures { IsTrue result ↔ AreApart tables.now }
{
    let mut rest = tables;
    while let [table, more @ ..] = rest {
        if !is_apart(table, more) {
            return false;
        }
        rest = more;
    }
    true
}

// Returns `true` if SQLite reserves the name for itself.
fn is_reserved(name: &[u8]) -> bool
    ensures { result ≡ is_reserved name.now }
{
    same_name(&name[..name.len().min(7)], b"sqlite_")
}

fn is_no_further_key(index: &Index) -> bool
    ensures { IsTrue result ↔ is_no_further_key index.now }
{
    !index.is_unique || is_reserved(index.name.as_slice())
}

#[tactic(auto, unfolding(crate::specs::Alike::HasNoFurtherKey))]
fn has_no_further_key(indexes: &[Index]) -> bool
    ensures { IsTrue result ↔ HasNoFurtherKey indexes.now }
{
    indexes.iter().all(|index| is_no_further_key(index))
}

/// Returns `true` if `schema` has exactly the tables of `ours`, in any order. Additional indexes
/// are accepted unless they are unique. A view or a trigger isn't accepted.
pub fn has_exactly(schema: &Schema, ours: &Schema) -> bool
    ensures { IsTrue result ↔ HasExactly schema.now ours.now }
{
    are_among(schema.tables.as_slice(), ours.tables.as_slice())
        && are_among(ours.tables.as_slice(), schema.tables.as_slice())
        && are_apart(schema.tables.as_slice())
        && has_no_further_key(schema.indexes.as_slice())
        && schema.views.is_empty()
}
