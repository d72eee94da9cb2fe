//! What the mark of a database says of the journal of its office.

ghost use Rattle.std.specs.Prelude.{◌≡◌};
ghost use Rattle.command_host.specs.Marks.{has_journal, least_lines, mark_of_lines};

/// The mark of a database whose office went on without its journal. No journal has it.
pub const PARTED: u32 = 4_294_967_295;

// The greatest mark that a journal has.
const MOST: u64 = 4_294_967_294;

/// The mark of a database whose journal has so many lines.
pub fn mark_of_lines(lines: u64) -> u32
    ensures { result ≡ mark_of_lines lines }
{
    lines.min(MOST) as u32
}

/// How many lines a journal has at least, where the database of its office has this mark.
pub fn least_lines(mark: u32) -> u32
    ensures { result ≡ least_lines mark }
{
    if mark == PARTED { 0 } else { mark }
}

/// Whether the office in a database with this mark has a journal: it was opened with one before, and
/// didn't go on without.
pub fn has_journal(mark: u32) -> bool
    ensures { result ≡ has_journal mark }
{
    mark != 0 && mark != PARTED
}
