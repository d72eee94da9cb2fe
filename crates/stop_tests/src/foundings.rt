//! The founding of an office.

use crate::seen::assert_stops;
use std::test::Fail;
use stopping_offices::begun::Beginning;
use stopping_offices::course::Script;
use stopping_offices::files::File;

const FOUNDING: Script<'static> = Script {
    beginning: Beginning::Founding,
    requests: &[],
};

#[test]
fn a_log_stops_while_an_office_is_founded(rt: HostRuntime) -> Result<(), Fail> {
    assert_stops(&rt, rt.alloc(), FOUNDING, File::Log, 63)
}

#[test]
fn a_database_stops_while_an_office_is_founded(rt: HostRuntime) -> Result<(), Fail> {
    assert_stops(&rt, rt.alloc(), FOUNDING, File::Database, 31)
}
