//! The rows of two answers, compared.

ghost use Rattle.std.specs.Prelude.{◌≡◌, ◌↔◌, ◌<◌, ◌++◌, [], ◌∷◌, List, false, IsTrue};
ghost use Rattle.std.specs.Prelude.{MatchOption, length, option_copied};
ghost use Rattle.sqlite.specs.declared.types.Value.TheVariants.{Int};
ghost use Rattle.sqlite.specs.Order.{Row as Values};
ghost use Rattle.sqlite_value.specs.Order.{column, value_cmp};
ghost use Rattle.sqlite_value.specs.Value.{owned};
ghost use Rattle.sqlite_trees.specs.View.{IsShaped, is_int};
ghost use Rattle.sqlite_trees.specs.Tree.{rowid};
ghost use Rattle.std.specs.declared.cmp.Ordering.TheVariants.{Less};
ghost use Rattle.sqlite_trees.specs.declared.store.Shape.TheVariants.{Table as TableShape};
ghost use Rattle.journal_verification.specs.Differing.{IsEarlier, columns_cmp};
ghost use Rattle.journal_verification.specs.Rising.{IsTold};

use sqlite::Row;
use sqlite::types::ValueRef;
use sqlite_value::order::{compare, is_same};
use std::cmp::Ordering;

// Whether two rows have one value at a place.
fn is_same_at(left: &Row, right: &Row, at: usize) -> bool
    requires left { at < length left.now }
    requires right { at < length right.now }
    ensures { IsTrue result ↔ column left.now at ≡ column right.now at }
{
    match (left.get_ref(at), right.get_ref(at)) {
        (Ok(first), Ok(second)) => is_same(first, second),
        _ => false,
    }
}

// Whether two rows are one.
fn is_same_row(left: &Row, right: &Row) -> bool
    ensures { IsTrue result ↔ left.now ≡ right.now }
{
    if left.column_count() != right.column_count() {
        return false;
    }
    for at in 0..left.column_count() {
        if !is_same_at(left, right, at) {
            return false;
        }
    }
    true
}

// How two rows compare by their first columns.
fn compare_columns(left: &Row, right: &Row, width: usize) -> Ordering
    ensures { result ≡ columns_cmp width left.now right.now }
{
    for at in 0..width {
        match (left.get_ref(at), right.get_ref(at)) {
            (Ok(first), Ok(second)) => match compare(first, second) {
                Ordering::Equal => {}
                order => return order,
            },
            (Ok(_), Err(_)) => return Ordering::Greater,
            (Err(_), Ok(_)) => return Ordering::Less,
            (Err(_), Err(_)) => return Ordering::Equal,
        }
    }
    Ordering::Equal
}

/// Of two rows, each of which may be wanting, where they aren't one, the one that is no later than
/// the other by its first columns.
pub(crate) fn earlier<'a>(
    left: Option<&'a Row>,
    right: Option<&'a Row>,
    width: usize,
) -> Option<&'a Row>
    ensures { MatchOption result (option_copied left.entry ≡ option_copied right.entry)
        (λ row. IsEarlier width (option_copied left.entry) (option_copied right.entry) row.now) }
{
    match (left, right) {
        (Some(first), Some(second)) => {
            if is_same_row(first, second) {
                None
            } else if compare_columns(second, first, width) == Ordering::Less {
                Some(second)
            } else {
                Some(first)
            }
        }
        (Some(first), None) => Some(first),
        (None, Some(second)) => Some(second),
        (None, None) => None,
    }
}

// The value that a row begins with.
fn first_value(row: &Row) -> ValueRef<'_>
    ensures { owned result ≡ column row.now 0 }
{
    match row.get_ref(0) {
        Ok(value) => value,
        Err(_) => ValueRef::Null,
    }
}

// Whether a row begins with a value that is above a rowid.
fn is_above(row: &Row, before: i64) -> bool
    ensures { IsTrue result ↔ value_cmp (Int before) (rowid row.now) ≡ Less }
{
    compare(ValueRef::Int(before), first_value(row)) == Ordering::Less
}

// The rowid that a row begins with.
fn rowid_of(row: &Row) -> Option<i64>
    ensures { MatchOption result (is_int (rowid row.now) ≡ false) (λ id. rowid row.now ≡ Int id) }
{
    match first_value(row) {
        ValueRef::Int(id) => Some(id),
        _ => None,
    }
}

/// What is known of the rowids of rows that come one after the other.
#[derive(Clone, Copy)]
pub(crate) enum Rising {
    /// There are none yet.
    Empty,
    /// Each is above the one before it, and the last is this.
    UpTo(i64),
    /// They don't rise.
    Fallen,
}

impl Rising {
    /// What is known with one more row.
    pub(crate) fn with(self, row: &Row) -> Rising
        ensures { (rows : List Values) → IsTold rows self → IsTold (rows ++ row.now ∷ []) result }
    {
        let Some(id) = rowid_of(row) else {
            return Rising::Fallen;
        };
        match self {
            Rising::Empty => Rising::UpTo(id),
            Rising::UpTo(before) => {
                if is_above(row, before) {
                    Rising::UpTo(id)
                } else {
                    Rising::Fallen
                }
            }
            Rising::Fallen => Rising::Fallen,
        }
    }

    /// Whether they rise.
    pub(crate) fn rises(self) -> bool
        ensures { (rows : List Values) → IsTold rows self → IsTrue result ↔ IsShaped TableShape rows }
    {
        !matches!(self, Rising::Fallen)
    }
}
