//! The words of the faults of logs and of their lines, where no command and no line shows them.

use no_memory::NoMemory;
use sealed_log::{LogFault, Unreadable};
use std::alloc::AllocError;

// Those of logs.
fn push_logs(text: &mut String) -> Result<(), AllocError> {
    let (disk, full) = (LogFault::Disk, LogFault::Full);
    let witness = NoMemory::told();
    writeln!(text, "{} {disk} {full}", LogFault::NoMemory(witness))
}

// And those of their lines.
fn push_lines(text: &mut String) -> Result<(), AllocError> {
    let witness = NoMemory::told();
    let (not_a_line, nothing) = (Unreadable::NotALine, Unreadable::NoEventBefore);
    let (unsealed, torn) = (Unreadable::Unsealed, Unreadable::TornLine);
    let (read, memory) = (Unreadable::Read, Unreadable::NoMemory(witness));
    writeln!(
        text,
        "{not_a_line} {nothing} {unsealed} {torn} {read} {memory}"
    )
}

const WORDS: &str = "\
     memory disk full\n\
     not-a-line no-event-before unsealed torn-line read memory\n";

#[test]
fn each_fault_of_a_journal_is_shown_by_its_word(rt: HostRuntime) -> Result<(), AllocError> {
    let mut text = String::new(rt.alloc());
    push_logs(&mut text)?;
    push_lines(&mut text)?;
    assert_eq!(rt; text.as_str(), WORDS);
    Ok(())
}
