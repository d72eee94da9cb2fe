//! An office over two files with its journal in a third: each of the three stops in turn.

use std::alloc::Global;
use std::process::Abort;
use std::test::Fail;
use stopping_journals::runs::{Third, stops, stops_while_opened};
use stopping_journals::torn::torn_ends;
use test_doubles::conversations::{HELD_AND_RELEASED, SECOND_THOUGHTS};

// That a file stops at least so often while these lines are answered, and that the journal tells the tables each time.
fn assert_stops(
    rt: &impl Abort,
    alloc: Global,
    lines: &str,
    file: Third,
    wanted: u64,
) -> Result<(), Fail> {
    let seen = stops(alloc, lines, file)?;
    assert!(rt; seen >= wanted, "{file:?}: {seen} stops, and not {wanted}");
    Ok(())
}

#[test]
fn a_log_stops_while_a_journal_is_kept(rt: HostRuntime) -> Result<(), Fail> {
    assert_stops(&rt, rt.alloc(), SECOND_THOUGHTS, Third::Log, 40)
}

#[test]
fn a_database_stops_while_a_journal_is_kept(rt: HostRuntime) -> Result<(), Fail> {
    assert_stops(&rt, rt.alloc(), SECOND_THOUGHTS, Third::Database, 10)
}

// Four calls open a journal of one line, and three put a line.
#[test]
fn a_journal_stops_while_a_reviewer_thinks_twice(rt: HostRuntime) -> Result<(), Fail> {
    assert_stops(&rt, rt.alloc(), SECOND_THOUGHTS, Third::Journal, 40)
}

#[test]
fn a_journal_stops_while_a_profile_is_held(rt: HostRuntime) -> Result<(), Fail> {
    assert_stops(&rt, rt.alloc(), HELD_AND_RELEASED, Third::Journal, 55)
}

// Its length, two lines and the part of one are read, it is cut and synced, and a line is put.
#[test]
fn a_journal_stops_while_it_is_opened(rt: HostRuntime) -> Result<(), Fail> {
    assert_eq!(rt; stops_while_opened(rt.alloc())?, 9);
    Ok(())
}

// Before each of 40 calls and after them, behind what was synced and behind all of it, six ends each.
#[test]
fn what_a_torn_write_leaves_behind_a_journal_is_cut_off(rt: HostRuntime) -> Result<(), Fail> {
    assert_eq!(rt; torn_ends(rt.alloc(), SECOND_THOUGHTS)?, 492);
    Ok(())
}
