//! A disk that is written to only while its name leads to it.

ghost use Rattle.std.specs.Prelude.{◌≡◌, ◌+◌, ◌^◌, ◌<◌, ◌≤◌, ℕ, List, length, true, false};
ghost use Rattle.std.specs.Prelude.{IfOk, IsErr, IsTrue, None, OnOk, Some};
ghost use Rattle.sqlite_disk.specs.Disk.{CountsFault, Cut, Follows, Holds, Mixed, MoreFaults};
ghost use Rattle.sqlite_disk.specs.Disk.{StaysFrozen, Torn};
ghost use Rattle.sqlite_disk.specs.Refusal.{is_no_room};
ghost use Rattle.sqlite_disk.specs.Tally.{CountsRefusal};

use crate::name::Name;
use sqlite_disk::{Disk, Tally};
use std::io;

/// A disk with a name. How long it is it tells only while the name leads to it, and only then it is
/// written to or cut; else that call fails. So a file that was renamed, removed or replaced by then is
/// found before each write.
#[derive(Drop)]
pub struct NamedDisk<D: Disk, N: Name> {
    inner: D,
    name: N,
    // How many calls failed since the name led elsewhere.
    astray: u64,
}

impl<D: Disk, N: Name> NamedDisk<D, N> {
    ghost use Rattle.std.specs.Prelude.{◌≡◌};

    /// A disk that was opened by this name.
    pub fn new(inner: D, name: N) -> NamedDisk<D, N>
        ensures inner { result.inner ≡ inner }
        ensures name { result.name ≡ name }
        ensures astray { result.astray ≡ 0 }
    {
        NamedDisk {
            inner,
            name,
            astray: 0,
        }
    }

    /// Its name.
    pub fn name(&self) -> &N
        ensures { result.now ≡ self.now.name }
    {
        &self.name
    }
}

// A call that fails since the name leads elsewhere is counted.
fn count_astray(astray: &mut u64) -> io::Error
    ensures counts { MoreFaults astray.old astray.new × (astray.old ≤ astray.new) }
    ensures room { is_no_room result ≡ false }
{
    *astray = astray.saturating_add(1);
    io::Error::other("its name leads to another file")
}

// How long a disk is, where its name leads to it.
fn len_by_name<D: Disk, N: Name>(inner: &mut D, name: &N, astray: &mut u64) -> io::Result<usize>
    requires { IsTrue (D.is_usable inner.old) }
    ensures leads { IfOk result (λ len. N.leads name.now (Some len) true) }
    ensures len { IfOk result (λ len. IsTrue (D.is_clean inner.new)
        → len ≡ length (D.seen inner.old)) }
    ensures faults { CountsFault result
        (D.faults inner.old + astray.old) (D.faults inner.new + astray.new) }
    ensures clean { IsTrue (D.is_clean inner.new) → IsTrue (D.is_clean inner.old) }
    ensures frozen { IsTrue (D.is_frozen inner.old) → IsErr result
        × StaysFrozen D.seen D.may_leave D.is_clean D.is_frozen inner.old inner.new }
    ensures seen { D.seen inner.new ≡ D.seen inner.old }
    ensures tally { D.tally_of inner.new ≡ D.tally_of inner.old }
    ensures key { D.key_of inner.new ≡ D.key_of inner.old }
    ensures rot { D.is_rotten inner.new ≡ D.is_rotten inner.old }
    ensures usable { IsTrue (D.is_usable inner.new) }
    ensures crash { (c : List ℕ) → D.may_leave inner.new c → D.may_leave inner.old c }
{
    let len = inner.len()?;
    if name.leads_to_file(Some(len)) {
        return Ok(len);
    }
    Err(count_astray(astray))
}

impl<D: Disk, N: Name> Disk for NamedDisk<D, N> {
    ghost seen = { λ disk. D.seen disk.inner };

    ghost may_leave = { λ disk. D.may_leave disk.inner };

    ghost is_usable = { λ disk. D.is_usable disk.inner };

    ghost faults = { λ disk. D.faults disk.inner + disk.astray };

    ghost tally_of = { λ disk. D.tally_of disk.inner };

    ghost is_clean = { λ disk. D.is_clean disk.inner };

    ghost key_of = { λ disk. D.key_of disk.inner };

    ghost is_fair = { λ disk. D.is_fair disk.inner };

    ghost is_frozen = { λ disk. D.is_frozen disk.inner };

    ghost is_rotten = { λ disk. D.is_rotten disk.inner };

    ghost is_mixing = { λ disk. D.is_mixing disk.inner };

    ghost seen_may_stay = { λ disk. D.seen_may_stay disk.inner };

    ghost fair_if_clean = { λ disk. D.fair_if_clean disk.inner };

    fn mixes(&self) -> bool {
        self.inner.mixes()
    }

    fn key(&self) -> u64 {
        self.inner.key()
    }

    fn tally(&self) -> Tally {
        self.inner.tally()
    }

    fn may_be_used(&self) -> bool {
        self.inner.may_be_used()
    }

    fn len(&mut self) -> io::Result<usize> {
        len_by_name(&mut self.inner, &self.name, &mut self.astray)
    }

    fn read_at(&mut self, at: usize, buf: &mut [u8]) -> io::Result<()> {
        self.inner.read_at(at, buf)
    }

    fn read_checked(&mut self, key: u64, want: u64, at: usize, buf: &mut [u8]) -> io::Result<()> {
        self.inner.read_checked(key, want, at, buf)
    }

    fn write_at(&mut self, at: usize, bytes: &[u8]) -> io::Result<()>
        requires { IsTrue (D.is_usable self.old.inner) }
        ensures leads { OnOk result (N.leads self.old.name None true) }
        ensures written { OnOk result
            (0 < length bytes.now → Holds (D.seen self.new.inner) at bytes.now) }
        ensures faults { CountsFault result (D.faults self.old.inner + self.old.astray)
            (D.faults self.new.inner + self.new.astray) }
        ensures clean { IsTrue (D.is_clean self.new.inner) → IsTrue (D.is_clean self.old.inner) }
        ensures calm { D.is_clean self.new.inner ≡ D.is_clean self.old.inner }
        ensures fair { D.is_fair self.new.inner ≡ D.is_fair self.old.inner }
        ensures frozen { IsTrue (D.is_frozen self.old.inner) → IsErr result
            × StaysFrozen (λ disk. D.seen disk.inner) (λ disk. D.may_leave disk.inner)
            (λ disk. D.is_clean disk.inner) (λ disk. D.is_frozen disk.inner) self.old self.new }
        ensures others { Torn at (length bytes.now) (D.seen self.old.inner) (D.seen self.new.inner) }
        ensures tally { CountsRefusal result (D.tally_of self.old.inner) (D.tally_of self.new.inner) }
        ensures key { D.key_of self.new.inner ≡ D.key_of self.old.inner }
        ensures usable { IsTrue (D.is_usable self.new.inner) }
        ensures mixing { D.is_mixing self.new.inner ≡ D.is_mixing self.old.inner }
        ensures mixed { IsTrue (D.is_mixing self.old.inner) → at + length bytes.now < 2 ^ 64
            → Follows (Mixed at bytes.now)
            (D.may_leave self.old.inner) (D.may_leave self.new.inner) }
        ensures crash { Follows (Torn at (length bytes.now))
            (D.may_leave self.old.inner) (D.may_leave self.new.inner) }
    {
        if self.name.leads_to_file(None) {
            return self.inner.write_at(at, bytes);
        }
        Err(count_astray(&mut self.astray))
    }

    fn set_len(&mut self, len: usize) -> io::Result<()>
        requires { IsTrue (D.is_usable self.old.inner) }
        ensures leads { OnOk result (N.leads self.old.name None true) }
        ensures len { OnOk result (length (D.seen self.new.inner) ≡ len) }
        ensures faults { CountsFault result (D.faults self.old.inner + self.old.astray)
            (D.faults self.new.inner + self.new.astray) }
        ensures clean { IsTrue (D.is_clean self.new.inner) → IsTrue (D.is_clean self.old.inner) }
        ensures calm { D.is_clean self.new.inner ≡ D.is_clean self.old.inner }
        ensures fair { D.is_fair self.new.inner ≡ D.is_fair self.old.inner }
        ensures frozen { IsTrue (D.is_frozen self.old.inner) → IsErr result
            × StaysFrozen (λ disk. D.seen disk.inner) (λ disk. D.may_leave disk.inner)
            (λ disk. D.is_clean disk.inner) (λ disk. D.is_frozen disk.inner) self.old self.new }
        ensures others { Cut len (D.seen self.old.inner) (D.seen self.new.inner) }
        ensures tally { CountsRefusal result (D.tally_of self.old.inner) (D.tally_of self.new.inner) }
        ensures key { D.key_of self.new.inner ≡ D.key_of self.old.inner }
        ensures usable { IsTrue (D.is_usable self.new.inner) }
        ensures crash { Follows (Cut len)
            (D.may_leave self.old.inner) (D.may_leave self.new.inner) }
    {
        if self.name.leads_to_file(None) {
            return self.inner.set_len(len);
        }
        Err(count_astray(&mut self.astray))
    }

    fn sync(&mut self) -> io::Result<()> {
        self.inner.sync()
    }
}
