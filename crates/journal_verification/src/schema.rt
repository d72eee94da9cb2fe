//! Whether the schemas of two stores are one.

ghost use Rattle.std.specs.Prelude.{◌≡◌, ◌↔◌, [], IsTrue};
ghost use Rattle.std.specs.List.{AllByRecursion};
ghost use Rattle.sqlite.specs.declared.types.Value.TheVariants.{Null};
ghost use Rattle.journal_verification.specs.Schemas.{HaveSameColumns, HaveSameKeys, IsBare};
ghost use Rattle.journal_verification.specs.Schemas.{IsPlain, IsPlainTable};

use sqlite_items::Items;
use sqlite_schema::code::Terms;
use sqlite_schema::schema::{Column, Index, Schema, Table};
use sqlite_value::keys::Order;
use sqlite_value::value::Value;

// A part of a schema that can be compared with another.
trait Part {
    ghost is_plain: { Self → Type 0 };

    // Whether it is the other one, and plain.
    fn is_same(&self, other: &Self) -> bool
        ensures { IsTrue result ↔ (self.now ≡ other.now) × is_plain self.now };
}

// Whether two lists of parts are one, and each of them is plain.
fn are_same<T: Part>(left: &[T], right: &[T]) -> bool
    ensures { IsTrue result ↔ (left.now ≡ right.now) × AllByRecursion T.Part.is_plain left.now }
{
    if left.len() != right.len() {
        return false;
    }
    for at in 0..left.len() {
        if !left[at].is_same(&right[at]) {
            return false;
        }
    }
    true
}

impl Part for Items<usize> {
    ghost is_plain = { λ _. Unit {0} };

    fn is_same(&self, other: &Items<usize>) -> bool {
        self.as_slice() == other.as_slice()
    }
}

impl Part for Order {
    ghost is_plain = { λ _. Unit {0} };

    fn is_same(&self, other: &Order) -> bool {
        self.digits == other.digits
    }
}

impl Part for Column {
    ghost is_plain = { λ c. c.default ≡ Null };

    fn is_same(&self, other: &Column) -> bool {
        self.name.as_slice() == other.name.as_slice()
            && self.kind == other.kind
            && self.is_strict == other.is_strict
            && self.not_null == other.not_null
            && self.collation == other.collation
            && matches!(self.default, Value::Null)
            && matches!(other.default, Value::Null)
    }
}

impl Part for Index {
    ghost is_plain = { λ _. Unit {0} };

    fn is_same(&self, other: &Index) -> bool {
        self.name.as_slice() == other.name.as_slice()
            && self.tree == other.tree
            && self.table == other.table
            && self.columns.is_same(&other.columns)
            && self.order.is_same(&other.order)
            && self.is_unique == other.is_unique
    }
}

// Whether there are no terms.
fn is_empty(terms: &Terms) -> bool
    ensures { IsTrue result ↔ terms.now ≡ [] }
{
    terms.roots.is_empty()
}

// Whether a table has no rule beyond those of its columns and keys.
fn is_bare(table: &Table) -> bool
    ensures { IsTrue result ↔ IsBare table.now }
{
    is_empty(&table.checks)
        && table.references.is_empty()
        && table.computed.is_empty()
        && table.stamps.places.is_empty()
        && is_empty(&table.stamps.terms)
        && table.stamps.formats.is_empty()
}

// Whether two tables have the same name, tree and columns.
fn have_same_columns(left: &Table, right: &Table) -> bool
    ensures { IsTrue result ↔ HaveSameColumns left.now right.now }
{
    left.name.as_slice() == right.name.as_slice()
        && left.tree == right.tree
        && are_same(left.columns.as_slice(), right.columns.as_slice())
        && left.key == right.key
}

// Whether two tables have the same keys.
fn have_same_keys(left: &Table, right: &Table) -> bool
    ensures { IsTrue result ↔ HaveSameKeys left.now right.now }
{
    left.primary.is_same(&right.primary)
        && are_same(left.uniques.as_slice(), right.uniques.as_slice())
        && are_same(left.orders.as_slice(), right.orders.as_slice())
        && left.is_counted == right.is_counted
}

impl Part for Table {
    ghost is_plain = { IsPlainTable };

    fn is_same(&self, other: &Table) -> bool {
        have_same_columns(self, other)
            && have_same_keys(self, other)
            && is_bare(self)
            && is_bare(other)
    }
}

/// Whether two schemas are one, with no rule beyond those of columns and keys.
pub(crate) fn is_same_schema(left: &Schema, right: &Schema) -> bool
    ensures { IsTrue result ↔ (left.now ≡ right.now) × IsPlain left.now }
{
    are_same(left.tables.as_slice(), right.tables.as_slice())
        && are_same(left.indexes.as_slice(), right.indexes.as_slice())
        && left.views.is_empty()
        && right.views.is_empty()
}
