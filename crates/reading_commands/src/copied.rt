//! The bytes of the two files of a database, and the office in a copy of them in memory.

ghost use Rattle.std.specs.Prelude.{◌↔◌, ◌≡◌, ◌≢◌, ◌+◌, ◌≤◌, length, None, IfErr, IfOk, IfSome};
ghost use Rattle.std.specs.Prelude.{IsTrue, OnOk, option_copied};
ghost use Rattle.sqlite.specs.Held.{state};
ghost use Rattle.memory_database.specs.Copies.{over_copy};
ghost use Rattle.office_store.specs.Shown.{IsIdle};
ghost use Rattle.database_files.specs.Extents.{head_bytes, most_bytes};
ghost use Rattle.reading_commands.specs.Copied.{extent_of, fault_of_read, front_of, Gave};
ghost use Rattle.reading_commands.specs.Copied.{GaveLog, GaveNone};
ghost use Rattle.reading_commands.specs.Copied.{HaveGiven, HaveGivenNone, IsCopiedOffice};
ghost use Rattle.reading_commands.specs.Copied.{IsNoCopiedOffice, IsOfReading};
ghost use Rattle.reading_commands.specs.Reading.{HasReadOn};

use crate::place::Place;
use crate::reading::read_on;
use command_host::{CommandFault, PassFiles, fault_of_opening};
use database_files::{HEAD, MOST, database_extent, log_extent};
use memory_database::{CopyStore, open_copy};
use office_words::Fault;
use profile_commands::FileFault;
use review_office::Office;
use sqlite::Connection;
use std::alloc::Global;
use std::io::ErrorKind;
use streams::Unread;

/// The bytes that the two files of a database gave.
#[derive(Drop)]
pub(crate) struct Given {
    pub log: Vec<u8>,
    pub database: Vec<u8>,
}

// How far a file is read whose first bytes these are: a log, or a database beside one.
fn extent_of(log: Option<&[u8]>, head: &[u8]) -> u64
    ensures value { result ≡ extent_of (option_copied log.entry) head.now }
    ensures least { head_bytes ≤ result }
    ensures most { result ≤ most_bytes + 1 }
{
    match log {
        Some(log) => database_extent(log, head),
        None => log_extent(head),
    }
}

// What is told of a file that wasn't read.
fn fault_of_read(why: Unread) -> CommandFault
    ensures { result ≡ fault_of_read why }
{
    match why {
        Unread::Failed => CommandFault::Store(Fault::Disk),
        Unread::TooManyReads => CommandFault::File(FileFault::Unread(Unread::TooManyReads)),
        Unread::NoMemory(witness) => CommandFault::Store(Fault::NoMemory(witness)),
    }
}

// Reads on in a file.
fn read_part<F: PassFiles>(
    files: &F,
    file: &mut F::File,
    bytes: &mut Vec<u8>,
    most: usize,
) -> Result<(), CommandFault>
    requires { length bytes.old.items ≤ most }
    ensures read { OnOk result (HasReadOn (F.File.remaining file.old) (F.File.remaining file.new)
        bytes.old.items bytes.new.items most) }
    ensures fault { IfErr result (IsOfReading F.gives) }
{
    match read_on(files, file, bytes, most) {
        Ok(()) => Ok(()),
        Err(why) => Err(fault_of_read(why)),
    }
}

// The front of a file that was opened, as far as it says itself: a log, or a database beside one.
fn front_in<F: PassFiles>(
    files: &F,
    alloc: Global,
    file: &mut F::File,
    log: Option<&[u8]>,
) -> Result<Vec<u8>, CommandFault>
    ensures bytes { IfOk result (λ bytes. IfSome (F.File.remaining file.old)
        (λ all. bytes.items ≡ front_of (option_copied log.entry) all)) }
    ensures fault { IfErr result (IsOfReading F.gives) }
{
    let mut bytes = Vec::new(alloc);
    read_part(files, file, &mut bytes, HEAD)?;
    let most = extent_of(log, &bytes) as usize;
    read_part(files, file, &mut bytes, most)?;
    Ok(bytes)
}

// The same of the file at a path, where it isn't longer than what is read of one.
fn front_at<F: PassFiles>(
    files: &F,
    alloc: Global,
    path: &str,
    log: Option<&[u8]>,
) -> Result<Vec<u8>, CommandFault>
    ensures bytes { IfOk result (λ bytes. Gave (F.opens files.now path.now) F.File.remaining
        (option_copied log.entry) bytes.items) }
    ensures none { IfErr result (GaveNone (F.opens files.now path.now) F.gives F.File.remaining
        (option_copied log.entry)) }
{
    let mut file = match files.open_at(path) {
        Ok(file) => file,
        Err(error) if error.kind() == ErrorKind::NotFound => {
            return Err(CommandFault::Store(Fault::NotAnOffice));
        }
        Err(_) => return Err(CommandFault::Store(Fault::Disk)),
    };
    let bytes = front_in(files, alloc, &mut file, log)?;
    if bytes.len() > MOST {
        return Err(CommandFault::TooLarge);
    }
    Ok(bytes)
}

// Whether it is told that nothing is there.
fn is_missing(fault: &CommandFault) -> bool
    ensures { IsTrue result ↔ (fault.now ≡ CommandFault.Store Fault.NotAnOffice) }
{
    matches!(fault, CommandFault::Store(Fault::NotAnOffice))
}

// The bytes of the log beside a database; none where no log is there.
fn log_at<F: PassFiles>(files: &F, alloc: Global, path: &str) -> Result<Vec<u8>, CommandFault>
    ensures bytes { IfOk result (λ bytes.
        GaveLog (F.opens files.now path.now) F.File.remaining bytes.items) }
    ensures none { IfErr result (GaveNone (F.opens files.now path.now) F.gives F.File.remaining None) }
    ensures there { IfErr result (λ why. why ≢ CommandFault.Store Fault.NotAnOffice) }
{
    match front_at(files, alloc, path, None) {
        Ok(bytes) => Ok(bytes),
        Err(fault) if is_missing(&fault) => Ok(Vec::new(alloc)),
        Err(fault) => Err(fault),
    }
}

/// The bytes of the two files of a database: of each its front, as far as it says itself. Nothing is
/// written to them, and no lock is asked for: who may only read them can do this, also while another
/// command has them open.
///
/// # Errors
///
/// `Store`: `NotAnOffice` where no database is there, and `Disk` where a file can't be read; `TooLarge`
/// where more of one is wanted than is read.
pub(crate) fn bytes_at<F: PassFiles>(
    files: &F,
    alloc: Global,
    place: &Place,
) -> Result<Given, CommandFault>
    ensures given { IfOk result (λ given. HaveGiven (F.opens files.now) F.File.remaining place.now
        given.log.items given.database.items) }
    ensures none { IfErr result
        (HaveGivenNone (F.opens files.now) F.gives F.File.remaining place.now) }
{
    let log = log_at(files, alloc, place.log.as_str())?;
    let database = front_at(files, alloc, place.database.as_str(), Some(&log))?;
    Ok(Given { log, database })
}

/// The office in a copy of the two files of a database that gave these bytes.
///
/// # Errors
///
/// `Store` where there is no copy: `NotAnOffice` where the bytes are no database, `Disk` where they
/// have one that is damaged. `Opening` where what is in it is no office.
pub(crate) fn office_in_copy(
    alloc: Global,
    given: Given,
) -> Result<Connection<CopyStore>, CommandFault>
    ensures office { IfOk result (IsCopiedOffice given.log.items given.database.items) }
    ensures idle { IfOk result (λ conn. IsIdle (state over_copy conn)) }
    ensures none { IfErr result (IsNoCopiedOffice given.log.items given.database.items) }
{
    let Given { log, database } = given;
    let conn = match open_copy(alloc, log, database) {
        Ok(conn) => conn,
        Err(error) => return Err(fault_of_opening(error)),
    };
    match Office::over(conn) {
        Ok(office) => Ok(office.into_connection()),
        Err((fault, _)) => Err(CommandFault::Opening(fault)),
    }
}
