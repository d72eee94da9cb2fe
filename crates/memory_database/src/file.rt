//! A file in memory that no crash outlasts.

ghost use Rattle.std.specs.Prelude.{◌≡◌, [], length, true, false, refl, is_ok, OnErr, OnOk};
ghost use Rattle.sqlite_disk.specs.Disk.{CountsFault, Cut, Holds, Torn};
ghost use Rattle.sqlite_disk.specs.Refusal.{finds_no_room};

use no_memory::NoMemory;
use sqlite_disk::{Disk, Tally};
use std::alloc::{AllocError, Global};
use std::io;

/// A file in memory. A crash ends the program, and the file with it, so of what a crash leaves
/// nothing can be read: it is said to leave just what is seen, and a sync has nothing to do. A write
/// fails only for want of memory, a read only past the end, and the file is then as it was.
#[derive(Drop)]
pub struct VolatileFile {
    bytes: Vec<u8>,
    faults: u64,
}

impl VolatileFile {
    ghost use Rattle.memory_database.specs.VolatileFile.{bytes_of, faults_of};

    /// An empty file.
    pub fn new(alloc: Global) -> VolatileFile
        ensures bytes { bytes_of result ≡ [] }
        ensures faults { faults_of result ≡ 0 }
    {
        VolatileFile {
            bytes: Vec::new(alloc),
            faults: 0,
        }
    }

    /// A file that has these bytes.
    pub fn of(bytes: Vec<u8>) -> VolatileFile
        ensures bytes { bytes_of result ≡ bytes.items }
        ensures faults { faults_of result ≡ 0 }
    {
        VolatileFile { bytes, faults: 0 }
    }
}

impl Disk for VolatileFile {
    ghost seen = { λ file. file.bytes.items };

    ghost may_leave = { λ file left. left ≡ file.bytes.items };

    ghost is_usable = { λ _. true };

    ghost faults = { λ file. file.faults };

    ghost tally_of = { λ _. record { caught = 0; refused = 0 } };

    ghost is_clean = { λ _. true };

    ghost key_of = { λ _. 0 };

    ghost is_fair = { λ _ _. true };

    ghost seen_may_stay = { λ _. refl };

    ghost fair_if_clean = { λ _ _ _. refl };

    fn mixes(&self) -> bool {
        false
    }

    fn key(&self) -> u64 {
        0
    }

    fn tally(&self) -> Tally {
        Tally {
            caught: 0,
            refused: 0,
        }
    }

    fn may_be_used(&self) -> bool {
        true
    }

    fn len(&mut self) -> io::Result<usize> {
        Ok(self.bytes.len())
    }

    fn read_at(&mut self, at: usize, buf: &mut [u8]) -> io::Result<()> {
        if at > self.bytes.len() || buf.len() > self.bytes.len() - at {
            return Err(io::ErrorKind::UnexpectedEof.into());
        }
        buf.copy_from_slice(&self.bytes[at..at + buf.len()]);
        Ok(())
    }

    // The caller knows the digest of what is here, and memory tells no lie: there is nothing to test.
    fn read_checked(&mut self, _key: u64, _want: u64, at: usize, buf: &mut [u8]) -> io::Result<()> {
        self.read_at(at, buf)
    }

    fn write_at(&mut self, at: usize, bytes: &[u8]) -> io::Result<()> {
        count(overwrite(&mut self.bytes, at, bytes), &mut self.faults)
    }

    fn set_len(&mut self, len: usize) -> io::Result<()> {
        count(resize(&mut self.bytes, len), &mut self.faults)
    }

    fn sync(&mut self) -> io::Result<()> {
        Ok(())
    }
}

fn count(outcome: Result<(), AllocError>, faults: &mut u64) -> io::Result<()>
    ensures ok { is_ok result ≡ is_ok outcome }
    ensures kind { finds_no_room result ≡ false }
    ensures faults { CountsFault result faults.old faults.new }
{
    match outcome {
        Ok(()) => Ok(()),
        Err(refused) => {
            *faults = faults.saturating_add(1);
            Err(refused.into())
        }
    }
}

fn resize(file: &mut Vec<u8>, len: usize) -> Result<(), AllocError>
    ensures len { OnOk result (length file.new.items ≡ len) }
    ensures others { Cut len file.old.items file.new.items }
    ensures err { OnErr result (file.new.items ≡ file.old.items) }
{
    file.resize(len, 0)
}

// Where it grows, its memory is doubled, so that n writes at its end cost n.
fn overwrite(file: &mut Vec<u8>, at: usize, bytes: &[u8]) -> Result<(), AllocError>
    ensures written { OnOk result (Holds file.new.items at bytes.now) }
    ensures others { Torn at (length bytes.now) file.old.items file.new.items }
    ensures err { OnErr result (file.new.items ≡ file.old.items) }
{
    let Some(end) = at.checked_add(bytes.len()) else {
        return Err(NoMemory::beyond().into());
    };
    if end > file.len() {
        resize(file, end)?;
    }
    file[at..end].copy_from_slice(bytes);
    Ok(())
}
