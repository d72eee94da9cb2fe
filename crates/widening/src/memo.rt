//! Which entries of one filter imply which of another, asked once a pair.

ghost use Rattle.std.specs.Prelude.{◌≡◌, ◌<◌, ◌||◌, get_or, length, not, Some, IfOk, OnOk};
ghost use Rattle.std.specs.List.{list_any};
ghost use Rattle.seccomp_doc.specs.Filter.{EntryValue};
ghost use Rattle.implication.specs.Implication.{entry_implies};
ghost use Rattle.widening.specs.Grouped.{entries_in};
ghost use Rattle.widening.specs.Groups.{AreWithin, entries_at};
ghost use Rattle.widening.specs.Memo.{AreRows, IsMemo, IsRow, IsRowOrEmpty};
ghost use Rattle.widening.specs.Ranks.{do_imply, is_in};

use crate::groups::Group;
use crate::ranks::Span;
use implication::entry_implies;
use seccomp_doc::{Entry, Filter};
use std::alloc::{AllocError, Global};

// Whether an entry implies each of the others, where that was asked. There is no place before the
// first is.
type Row = Vec<Option<bool>>;

// Which entries of two filters imply which of the other.
#[derive(Drop)]
pub(crate) struct Memo {
    pub(crate) of_new: Vec<Row>,
    pub(crate) of_base: Vec<Row>,
}

impl Memo {
    // Before anything was asked.
    pub(crate) fn new(alloc: Global, base: &Filter, new: &Filter) -> Result<Memo, AllocError>
        ensures { IfOk result (λ memo. IsMemo base.now.entries new.now.entries
            memo.of_new.items memo.of_base.items) }
    {
        Ok(Memo {
            of_new: empty_rows(alloc, new.entries(), base.entries())?,
            of_base: empty_rows(alloc, base.entries(), new.entries())?,
        })
    }
}

// The rows of entries of which nothing was asked.
fn empty_rows(alloc: Global, entries: &[Entry], others: &[Entry]) -> Result<Vec<Row>, AllocError>
    ensures { IfOk result (λ rows. AreRows entries.now others.now rows.items) }
{
    let mut rows = Vec::new(alloc);
    for _ in 0..entries.len() {
        rows.push(Vec::new(alloc))?;
    }
    Ok(rows)
}

// Whether each entry of a group whose rank is in the span implies one of the others.
pub(crate) fn do_imply(
    alloc: Global,
    rows: &mut [Row],
    asked: Option<Span>,
    group: &Group,
    others: &Group,
) -> Result<bool, AllocError>
    requires { AreRows group.now.entries.now others.now.entries.now rows.old }
    ensures rows { OnOk result (AreRows group.now.entries.now others.now.entries.now rows.new) }
    ensures told { IfOk result (λ told. told
        ≡ do_imply asked (entries_in group.now) (entries_in others.now)) }
{
    match asked {
        None => Ok(false),
        Some(span) => all_imply(alloc, rows, span, group.entries, group.places, others),
    }
}

// Whether each entry at these places whose rank is in the span implies one of the others.
fn all_imply(
    alloc: Global,
    rows: &mut [Row],
    span: Span,
    entries: &[Entry],
    places: &[usize],
    others: &Group,
) -> Result<bool, AllocError>
    requires rows { AreRows entries.now others.now.entries.now rows.old }
    requires within { AreWithin entries.now places.now }
    ensures rows { OnOk result (AreRows entries.now others.now.entries.now rows.new) }
    ensures told { IfOk result (λ told. told
        ≡ do_imply (Some span) (entries_at entries.now places.now) (entries_in others.now)) }
{
    for place in places {
        let told = does_imply(alloc, rows, span, *place, entries, others)?;
        if !told {
            return Ok(false);
        }
    }
    Ok(true)
}

// Whether the rank of the entry at a place isn't in the span, or it implies one of the others.
fn does_imply(
    alloc: Global,
    rows: &mut [Row],
    span: Span,
    place: usize,
    entries: &[Entry],
    others: &Group,
) -> Result<bool, AllocError>
    requires rows { AreRows entries.now others.now.entries.now rows.old }
    requires within { place < length entries.now }
    ensures rows { OnOk result (AreRows entries.now others.now.entries.now rows.new) }
    ensures told { IfOk result (λ told. (entry : EntryValue)
        → told ≡ (not (is_in span (get_or entries.now place entry))
        || list_any (entry_implies (get_or entries.now place entry)) (entries_in others.now))) }
{
    let entry = &entries[place];
    if !span.has(entry) {
        return Ok(true);
    }
    let told = implies_one(alloc, entry, &mut rows[place], others)?;
    Ok(told)
}

// Whether an entry implies one of a group. An entry of one name is asked once, and needs no row.
fn implies_one(
    alloc: Global,
    entry: &Entry,
    row: &mut Row,
    others: &Group,
) -> Result<bool, AllocError>
    requires { IsRowOrEmpty entry.now others.now.entries.now row.old.items }
    ensures row { OnOk result (IsRowOrEmpty entry.now others.now.entries.now row.new.items) }
    ensures told { IfOk result (λ told. told
        ≡ list_any (entry_implies entry.now) (entries_in others.now)) }
{
    if entry.names().len() == 1 {
        return Ok(implies_some(entry, others.entries, others.places));
    }
    if row.is_empty() {
        *row = vec![in alloc; None; others.entries.len()]?;
    }
    Ok(implies_any(entry, row.as_mut_slice(), others.entries, others.places))
}

// Whether an entry implies one of the others at these places, asked of each.
fn implies_some(entry: &Entry, others: &[Entry], places: &[usize]) -> bool
    requires { AreWithin others.now places.now }
    ensures { result ≡ list_any (entry_implies entry.now) (entries_at others.now places.now) }
{
    for place in places {
        if entry_implies(entry, &others[*place]) {
            return true;
        }
    }
    false
}

// Whether an entry implies one of the others at these places, asked where it isn't known.
fn implies_any(entry: &Entry, row: &mut [Option<bool>], others: &[Entry], places: &[usize]) -> bool
    requires row { IsRow entry.now others.now row.old }
    requires full { length row.old ≡ length others.now }
    requires within { AreWithin others.now places.now }
    ensures row { IsRow entry.now others.now row.new }
    ensures full { length row.new ≡ length others.now }
    ensures told { result ≡ list_any (entry_implies entry.now) (entries_at others.now places.now) }
{
    for place in places {
        if implies_at(entry, row, others, *place) {
            return true;
        }
    }
    false
}

// Whether an entry implies the one at this place, asked where it isn't known.
#[tactic(auto, using(crate::proofs::MemoFacts::row_tells))]
fn implies_at(entry: &Entry, row: &mut [Option<bool>], others: &[Entry], place: usize) -> bool
    requires row { IsRow entry.now others.now row.old }
    requires full { length row.old ≡ length others.now }
    requires within { place < length others.now }
    ensures row { IsRow entry.now others.now row.new }
    ensures full { length row.new ≡ length others.now }
    ensures told { (other : EntryValue)
        → result ≡ entry_implies entry.now (get_or others.now place other) }
{
    if let Some(told) = row[place] {
        return told;
    }
    let told = entry_implies(entry, &others[place]);
    row[place] = Some(told);
    told
}
