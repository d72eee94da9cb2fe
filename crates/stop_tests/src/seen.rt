//! How often a file stopped.

use std::alloc::Global;
use std::process::Abort;
use std::test::Fail;
use stopping_offices::course::Script;
use stopping_offices::files::File;
use stopping_offices::runs::{stops, torn_writes};

// That a file can be stopped so often over a script, or more often, and that all is kept each time.
pub(crate) fn assert_stops(
    rt: &impl Abort,
    alloc: Global,
    script: Script,
    file: File,
    wanted: u64,
) -> Result<(), Fail> {
    let seen = stops(alloc, script, file)?;
    assert!(rt; seen >= wanted, "{file:?}: {seen} stops, and not {wanted}");
    Ok(())
}

// That a file is written to so often over a script, or more often, and that all is kept where a stop tears the last write.
pub(crate) fn assert_torn(
    rt: &impl Abort,
    alloc: Global,
    script: Script,
    file: File,
    wanted: u64,
) -> Result<(), Fail> {
    let seen = torn_writes(alloc, script, file)?;
    assert!(rt; seen >= wanted, "{file:?}: {seen} writes, and not {wanted}");
    Ok(())
}
