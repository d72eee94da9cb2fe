//! Sealed logs, on disks that fail from some call on and then crash, and read as streams.

use sealed_log::{LogFault, Nothing, Reader, SealedLog, Unreadable, is_body, no_seal, read_body};
use sqlite_disk::{Crash, Disk, Fuse, Memory};
use std::alloc::Global;
use std::test::Fail;

const FIRST: &str = "\"one\"";

const SECOND: &str = "\"two\"";

// What a file has that has both, with digests that `sha256sum` made.
const TEXT: &str = "{\"line\":\"one\",\
     \"seal\":\"1c22783921fcbb8eba8ed8d23f46ae0be13518bff5f204b0649aaa8e5e7bc49f\"}\n\
     {\"line\":\"two\",\
     \"seal\":\"fbce8a12d9cc5cab3fbf8ad5e07e177fdcb89764c23895aacd98f17001d23927\"}\n";

// How many calls of the disk the trial below makes where none fails.
const CALLS: u64 = 9;

// And how many where both are put by one write.
const CALLS_FOR_BOTH: u64 = 6;

fn put<D: Disk>(log: &mut SealedLog<D>, alloc: Global, body: &str) -> Result<(), LogFault> {
    if is_body(body.as_bytes()) {
        log.put(alloc, body.as_bytes())
    } else {
        Err(LogFault::Disk)
    }
}

fn open<D: Disk>(log: &mut SealedLog<D>, alloc: Global) -> Result<(), LogFault> {
    let found = log.read(alloc, &mut Nothing)?;
    log.open_at(&found)
}

// Whether the next body is this one, or there is none where none is wanted.
fn gives<D: Disk>(
    reader: &mut Reader,
    alloc: Global,
    disk: &mut D,
    wanted: Option<&str>,
) -> Result<bool, Fail> {
    if !disk.may_be_used() {
        return Ok(false);
    }
    let found = reader.next(alloc, disk)?;
    Ok(match (found, wanted) {
        (Some(found), Some(wanted)) => found.as_slice() == wanted.as_bytes(),
        (None, None) => true,
        _ => false,
    })
}

// A trial on a disk that fails from some call on and then crashes.
fn stops_at(rt: &HostRuntime, calls: u64) -> Result<bool, Fail> {
    let alloc = rt.alloc();
    let mut log = SealedLog::new(Fuse::new(Memory::new(alloc), calls));
    let opened = open(&mut log, alloc).is_ok();
    let first = put(&mut log, alloc, FIRST).is_ok();
    let second = put(&mut log, alloc, SECOND).is_ok();
    let mut disk = log.into_disk();
    disk.crash();
    let mut log = SealedLog::new(disk);
    open(&mut log, alloc)?;
    let mut disk = log.into_disk();
    if !disk.may_be_used() {
        return Ok(false);
    }
    let len = disk.len()?;
    let mut reader = Reader::new(len);
    if first && !gives(&mut reader, alloc, &mut disk, Some(FIRST))? {
        return Ok(false);
    }
    if second && !gives(&mut reader, alloc, &mut disk, Some(SECOND))? {
        return Ok(false);
    }
    if !gives(&mut reader, alloc, &mut disk, None)? {
        return Ok(false);
    }
    Ok((opened || !first) && (first || !second) && (second == (calls >= CALLS)))
}

#[test]
fn a_crash_at_each_call_leaves_what_was_acknowledged(rt: HostRuntime) -> Result<(), Fail> {
    for calls in 0..14 {
        assert!(rt; stops_at(&rt, calls)?);
    }
    Ok(())
}

fn put_both<D: Disk>(log: &mut SealedLog<D>, alloc: Global) -> Result<(), LogFault> {
    if is_body(FIRST.as_bytes()) && is_body(SECOND.as_bytes()) {
        log.put_both(alloc, FIRST.as_bytes(), SECOND.as_bytes())
    } else {
        Err(LogFault::Disk)
    }
}

// Such a trial with both bodies put by one write.
fn both_stop_at(rt: &HostRuntime, calls: u64) -> Result<bool, Fail> {
    let alloc = rt.alloc();
    let mut log = SealedLog::new(Fuse::new(Memory::new(alloc), calls));
    let opened = open(&mut log, alloc).is_ok();
    let both = put_both(&mut log, alloc).is_ok();
    let mut disk = log.into_disk();
    disk.crash();
    let mut log = SealedLog::new(disk);
    open(&mut log, alloc)?;
    let lines = log.lines();
    let mut disk = log.into_disk();
    if !disk.may_be_used() {
        return Ok(false);
    }
    let len = disk.len()?;
    let mut reader = Reader::new(len);
    if lines > 0 && !gives(&mut reader, alloc, &mut disk, Some(FIRST))? {
        return Ok(false);
    }
    if lines > 1 && !gives(&mut reader, alloc, &mut disk, Some(SECOND))? {
        return Ok(false);
    }
    if !gives(&mut reader, alloc, &mut disk, None)? {
        return Ok(false);
    }
    let is_there = lines == 2 || !both;
    Ok(is_there && (opened || !both) && (both == (calls >= CALLS_FOR_BOTH)))
}

#[test]
fn a_crash_leaves_both_where_both_were_acknowledged(rt: HostRuntime) -> Result<(), Fail> {
    for calls in 0..14 {
        assert!(rt; both_stop_at(&rt, calls)?);
    }
    Ok(())
}

#[test]
fn both_are_sealed_by_one_write_as_they_are_by_two(rt: HostRuntime) -> Result<(), Fail> {
    let alloc = rt.alloc();
    let mut log = SealedLog::new(Memory::new(alloc));
    open(&mut log, alloc)?;
    put_both(&mut log, alloc)?;
    assert_eq!(rt; log.into_disk().bytes(), TEXT.as_bytes());
    Ok(())
}

// What is read of a stream, one body behind another, and why it ends.
fn read_all(alloc: Global, bytes: &[u8]) -> Result<(Vec<u8>, Option<Unreadable>), Fail> {
    let mut input = bytes;
    let mut seal = no_seal();
    let mut body = Vec::new(alloc);
    let mut all = Vec::new(alloc);
    for _ in 0..9 {
        match read_body(alloc, &mut input, &mut seal, &mut body) {
            Ok(true) => all.extend_from_slice(&body)?,
            Ok(false) => return Ok((all, None)),
            Err(why) => return Ok((all, Some(why))),
        }
    }
    Ok((all, None))
}

#[test]
fn a_stream_tells_what_is_sealed(rt: HostRuntime) -> Result<(), Fail> {
    let alloc = rt.alloc();
    let both = "\"one\"\"two\"";
    let mut torn = String::from_str(alloc, TEXT)?;
    torn.push_str("{\"line\":")?;
    let mut twice = String::from_str(alloc, TEXT)?;
    twice.push_str(TEXT)?;
    for (text, wanted, why) in [
        (TEXT, both, None),
        (torn.as_str(), both, Some(Unreadable::TornLine)),
        (twice.as_str(), both, Some(Unreadable::Unsealed)),
        ("\"one\"\n", "", Some(Unreadable::Unsealed)),
        ("", "", None),
    ] {
        let (all, ended) = read_all(alloc, text.as_bytes())?;
        assert_eq!(rt; all.as_slice(), wanted.as_bytes());
        assert_eq!(rt; ended, why);
    }
    Ok(())
}
