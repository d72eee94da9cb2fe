//! The migration of an office of schema 1, and what it is asked then.

use crate::seen::assert_stops;
use std::alloc::Global;
use std::process::Abort;
use std::test::Fail;
use stopping_offices::begun::Beginning;
use stopping_offices::course::{Script, requests_of};
use stopping_offices::files::File;
use stopping_offices::texts::AFTER_MIGRATION;

fn assert_kept(rt: &impl Abort, alloc: Global, file: File, stops: u64) -> Result<(), Fail> {
    let requests = requests_of(alloc, AFTER_MIGRATION)?;
    let script = Script {
        beginning: Beginning::Migration,
        requests: &requests,
    };
    assert_stops(rt, alloc, script, file, stops)
}

#[test]
fn a_log_stops_while_an_office_is_migrated(rt: HostRuntime) -> Result<(), Fail> {
    assert_kept(&rt, rt.alloc(), File::Log, 94)
}

#[test]
fn a_database_stops_while_an_office_is_migrated(rt: HostRuntime) -> Result<(), Fail> {
    assert_kept(&rt, rt.alloc(), File::Database, 61)
}
