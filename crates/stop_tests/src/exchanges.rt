//! A review over HTTP.

use crate::seen::assert_stops;
use std::alloc::Global;
use std::process::Abort;
use std::test::Fail;
use stopping_offices::begun::Beginning;
use stopping_offices::course::Script;
use stopping_offices::files::File;
use test_doubles::messages::REVIEW;

fn assert_kept(rt: &impl Abort, alloc: Global, file: File, stops: u64) -> Result<(), Fail> {
    let mut requests = Vec::new(alloc);
    for (request, _) in REVIEW {
        requests.push(request)?;
    }
    let script = Script {
        beginning: Beginning::Founding,
        requests: &requests,
    };
    assert_stops(rt, alloc, script, file, stops)
}

#[test]
fn a_log_stops_while_messages_are_answered(rt: HostRuntime) -> Result<(), Fail> {
    assert_kept(&rt, rt.alloc(), File::Log, 143)
}

#[test]
fn a_database_stops_while_messages_are_answered(rt: HostRuntime) -> Result<(), Fail> {
    assert_kept(&rt, rt.alloc(), File::Database, 54)
}
