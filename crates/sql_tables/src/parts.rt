//! Compares the parts of a schema.
ghost use Rattle.std.specs.Prelude.{◌≡◌, ◌↔◌, IsTrue};
ghost use Rattle.sql_tables.specs.Bare.{bare};

use crate::same::Same;
use sqlite_schema::code::lend_value;
use sqlite_schema::schema::{Column, Index, Reference, Schema, Stamps, Table, View};
use sqlite_value::order::is_same;

impl Same for Column {
    fn same(&self, other: &Column) -> bool {
        self.name.same(&other.name)
            && self.kind == other.kind
            && self.is_strict == other.is_strict
            && self.not_null == other.not_null
            && is_same(lend_value(&self.default), lend_value(&other.default))
            && self.collation == other.collation
    }
}

impl Same for Reference {
    fn same(&self, other: &Reference) -> bool {
        self.columns.same(&other.columns)
            && self.parent.same(&other.parent)
            && self.parent_columns.same(&other.parent_columns)
            && self.on_delete == other.on_delete
            && self.on_update == other.on_update
            && self.is_deferred == other.is_deferred
    }
}

impl Same for Index {
    fn same(&self, other: &Index) -> bool {
        self.name.same(&other.name)
            && self.tree == other.tree
            && self.table == other.table
            && self.columns.same(&other.columns)
            && self.order.same(&other.order)
            && self.is_unique == other.is_unique
    }
}

impl Same for View {
    fn same(&self, other: &View) -> bool {
        self.name.same(&other.name)
            && self.tree == other.tree
            && self.sql.same(&other.sql)
            && self.foreign.same(&other.foreign)
            && self.binds == other.binds
            && self.is_bound == other.is_bound
    }
}

impl Same for Stamps {
    fn same(&self, other: &Stamps) -> bool {
        self.places.same(&other.places)
            && self.terms.same(&other.terms)
            && self.formats.same(&other.formats)
    }
}

/// Returns `true` if two tables are equal except for their tree numbers.
pub fn are_same_but_tree(a: &Table, b: &Table) -> bool
    ensures { IsTrue result ↔ (bare a.now ≡ bare b.now) }
{
    a.name.same(&b.name)
        && a.columns.same(&b.columns)
        && a.key.same(&b.key)
        && a.primary.same(&b.primary)
        && a.uniques.same(&b.uniques)
        && a.orders.same(&b.orders)
        && a.checks.same(&b.checks)
        && a.references.same(&b.references)
        && a.computed.same(&b.computed)
        && a.stamps.same(&b.stamps)
        && a.is_counted == b.is_counted
}

impl Same for Table {
    fn same(&self, other: &Table) -> bool {
        self.tree == other.tree && are_same_but_tree(self, other)
    }
}

impl Same for Schema {
    fn same(&self, other: &Schema) -> bool {
        self.tables.same(&other.tables)
            && self.indexes.same(&other.indexes)
            && self.views.same(&other.views)
    }
}

/// Returns `true` if the two schemas are equal. Different words or white space in the texts of
/// tables and indexes make no difference.
pub(crate) fn are_same(a: &Schema, b: &Schema) -> bool
    ensures { IsTrue result ↔ (a.now ≡ b.now) }
{
    a.same(b)
}
