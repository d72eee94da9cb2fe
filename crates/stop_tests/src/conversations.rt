//! Conversations of lines.

use crate::seen::{assert_stops, assert_torn};
use std::alloc::Global;
use std::process::Abort;
use std::test::Fail;
use stopping_offices::begun::Beginning;
use stopping_offices::course::{Script, requests_of};
use stopping_offices::files::File;
use test_doubles::conversations::{HELD_AND_RELEASED, SECOND_THOUGHTS, VOTE_LEFT_BEHIND};

// An office that is founded and asked these lines.
fn script<'a>(requests: &'a [&'a str]) -> Script<'a> {
    Script {
        beginning: Beginning::Founding,
        requests,
    }
}

// That all is kept wherever a file stops, at least at so many places.
fn assert_kept(
    rt: &impl Abort,
    alloc: Global,
    lines: &str,
    file: File,
    stops: u64,
) -> Result<(), Fail> {
    let requests = requests_of(alloc, lines)?;
    assert_stops(rt, alloc, script(&requests), file, stops)
}

#[test]
fn a_log_stops_while_a_vote_is_left_behind(rt: HostRuntime) -> Result<(), Fail> {
    assert_kept(&rt, rt.alloc(), VOTE_LEFT_BEHIND, File::Log, 124)
}

#[test]
fn a_database_stops_while_a_vote_is_left_behind(rt: HostRuntime) -> Result<(), Fail> {
    assert_kept(&rt, rt.alloc(), VOTE_LEFT_BEHIND, File::Database, 53)
}

#[test]
fn a_log_stops_while_a_reviewer_thinks_twice(rt: HostRuntime) -> Result<(), Fail> {
    assert_kept(&rt, rt.alloc(), SECOND_THOUGHTS, File::Log, 112)
}

#[test]
fn a_database_stops_while_a_reviewer_thinks_twice(rt: HostRuntime) -> Result<(), Fail> {
    assert_kept(&rt, rt.alloc(), SECOND_THOUGHTS, File::Database, 44)
}

#[test]
fn a_log_stops_while_a_profile_is_held(rt: HostRuntime) -> Result<(), Fail> {
    assert_kept(&rt, rt.alloc(), HELD_AND_RELEASED, File::Log, 176)
}

#[test]
fn a_database_stops_while_a_profile_is_held(rt: HostRuntime) -> Result<(), Fail> {
    assert_kept(&rt, rt.alloc(), HELD_AND_RELEASED, File::Database, 63)
}

#[test]
fn a_write_to_the_log_is_torn_while_a_reviewer_thinks_twice(rt: HostRuntime) -> Result<(), Fail> {
    let requests = requests_of(rt.alloc(), SECOND_THOUGHTS)?;
    assert_torn(&rt, rt.alloc(), script(&requests), File::Log, 44)
}

#[test]
fn a_write_to_the_database_is_torn_while_a_reviewer_thinks_twice(
    rt: HostRuntime,
) -> Result<(), Fail> {
    let requests = requests_of(rt.alloc(), SECOND_THOUGHTS)?;
    assert_torn(&rt, rt.alloc(), script(&requests), File::Database, 27)
}
