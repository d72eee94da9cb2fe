//! A log whose lines are sealed.

ghost use Rattle.std.specs.Prelude.{◌≡◌, true, IsTrue};
ghost use Rattle.sqlite_disk.specs.Disk.{Only};
ghost use Rattle.sealed_log.specs.Whole.{IsWhole};

use crate::fault::LogFault;
use crate::keeps::Keeps;
use crate::read::read_through;
use crate::seals::{self, Seal, both_lines, line_of, seal};
use crate::through::Through;
use crate::written::{Written, add_line, cut};
use sqlite_disk::Disk;
use std::alloc::Global;

/// A log in a file. It is open while the file has just the lines that were put into it, each sealed,
/// and a crash leaves them.
#[derive(Drop)]
pub struct SealedLog<D: Disk> {
    disk: D,
    // How many bytes the file has, up to the greatest usize, its seal, and how many lines it has, up
    // to the greatest u64.
    end: usize,
    seal: Seal,
    lines: u64,
    is_open: bool,
    ghost usable: { is_open ≡ true → IsTrue (D.is_usable disk) },
    ghost settled: { is_open ≡ true → Only (D.seen disk) (D.may_leave disk) },
    ghost whole: { is_open ≡ true → IsTrue (D.is_clean disk)
        → IsWhole (D.seen disk) end seal lines },
}

impl<D: Disk> SealedLog<D> {
    ghost use Rattle.std.specs.Prelude.{◌≡◌, ◌⊎◌, ℕ, List, [], ◌∷◌, length, true, false};
    ghost use Rattle.std.specs.Prelude.{IsTrue, IfErr, IfOk, IsErrOf, OnErr, OnOk};
    ghost use Rattle.sqlite_disk.specs.Disk.{Only, MoreFaults};
    ghost use Rattle.sealed_log.specs.Sealed.{IsBody, sealed_text, sealed_line};
    ghost use Rattle.sealed_log.specs.Sealed.{sealed_with, seal_of};
    ghost use Rattle.sealed_log.specs.Disks.{HasFailedTwice, LeavesTail};
    ghost use Rattle.sealed_log.specs.Faults.{IsLater, IsMetBetween, IsOfCall};
    ghost use Rattle.sealed_log.specs.Log.{AreLines, IsAppended, bodies_of};
    ghost use Rattle.sealed_log.specs.Reading.{IsThrough};
    ghost use Rattle.sealed_log.specs.Told.{told};

    /// A log in a file, still to be opened.
    pub fn new(disk: D) -> SealedLog<D>
        ensures disk { result.disk ≡ disk }
        ensures shut { result.is_open ≡ false }
    {
        SealedLog {
            disk,
            end: 0,
            seal: seals::no_seal(),
            lines: 0,
            is_open: false,
        }
    }

    /// The file.
    pub fn into_disk(self) -> D
        ensures { result ≡ self.disk }
    {
        let SealedLog { disk, .. } = self;
        disk
    }

    /// Whether it can be written to.
    pub fn is_open(&self) -> bool
        ensures { result ≡ self.now.is_open }
    {
        self.is_open
    }

    /// The seal of its last line, which names all of it.
    pub fn seal(&self) -> Seal
        ensures { result ≡ self.now.seal }
    {
        self.seal
    }

    /// How many lines it has, up to the greatest u64.
    pub fn lines(&self) -> u64
        ensures { result ≡ self.now.lines }
    {
        self.lines
    }

    /// Reads what its file tells, and has the keeper see each body. The log is shut until it is opened.
    ///
    /// # Errors
    ///
    /// The fault of the call of the disk that failed, or `NoMemory`; `Disk` where a sync had failed.
    pub fn read<K: Keeps>(&mut self, alloc: Global, keeper: &mut K) -> Result<Through, LogFault>
        requires begun { K.is_of [] keeper.old }
        ensures through { IfOk result (λ through. IsTrue (D.is_clean self.new.disk)
            → IsThrough (D.seen self.old.disk) through) }
        ensures keeps { IfOk result (λ _. IsTrue (D.is_clean self.new.disk)
            → K.is_of (told (D.seen self.old.disk)) keeper.new) }
        ensures refused { D.is_usable self.old.disk ≡ false → IsErrOf result LogFault.Disk }
        ensures word { IsTrue (D.is_usable self.old.disk) → IsTrue (D.is_clean self.new.disk)
            → IfErr result (IsMetBetween D.Disk self.old.disk self.new.disk) }
        ensures counts { IsLater D.Disk self.old.disk self.new.disk }
        ensures usable { D.is_usable self.new.disk ≡ D.is_usable self.old.disk }
        ensures seen { D.seen self.new.disk ≡ D.seen self.old.disk }
        ensures clean { IsTrue (D.is_clean self.new.disk) → IsTrue (D.is_clean self.old.disk) }
        ensures crash { (left : List ℕ)
            → D.may_leave self.new.disk left → D.may_leave self.old.disk left }
    {
        self.is_open = false;
        if !self.disk.may_be_used() {
            return Err(LogFault::Disk);
        }
        read_through(alloc, &mut self.disk, keeper)
    }

    /// Opens the log of what its file was found to tell, and cuts off what stands behind that. Of
    /// what a crash left that is a line at most.
    ///
    /// # Errors
    ///
    /// The fault of the call of the disk that failed; `Disk` where a sync had failed. Then the log is
    /// shut.
    pub fn open_at(&mut self, found: &Through) -> Result<(), LogFault>
        requires { IsTrue (D.is_clean self.old.disk) → IsThrough (D.seen self.old.disk) found.now }
        ensures opened { OnOk result (self.new.is_open ≡ true) }
        ensures shut { OnErr result (self.new.is_open ≡ false) }
        ensures has { OnOk result (IsTrue (D.is_clean self.new.disk)
            → D.seen self.new.disk ≡ sealed_text (bodies_of D.Disk self.old)) }
        ensures clean { IsTrue (D.is_clean self.new.disk) → IsTrue (D.is_clean self.old.disk) }
        ensures crash { IsTrue (D.is_clean self.new.disk) → (most : ℕ)
            → LeavesTail D.Disk self.old.disk (sealed_text (bodies_of D.Disk self.old)) most
            → LeavesTail D.Disk self.new.disk (sealed_text (bodies_of D.Disk self.old)) most }
        ensures counts { IsLater D.Disk self.old.disk self.new.disk }
        ensures refused { D.is_usable self.old.disk ≡ false → IsErrOf result LogFault.Disk }
        ensures word { IsTrue (D.is_usable self.old.disk)
            → IfErr result (IsOfCall D.Disk self.old.disk self.new.disk) }
    {
        self.is_open = false;
        if !self.disk.may_be_used() {
            return Err(LogFault::Disk);
        }
        cut(&mut self.disk, found.at())?;
        self.end = found.at();
        self.seal = found.seal();
        self.lines = found.lines();
        self.is_open = true;
        Ok(())
    }

    // Writes the text of lines behind all that is there, so that a crash leaves them. A file whose
    // length another hand changed is not written to, and shuts the log.
    fn put_lines(&mut self, text: &[u8], seal: Seal, lines: u64) -> Result<(), LogFault>
        requires is_open { self.old.is_open ≡ true }
        requires lines { (settling : List (List ℕ)) × (body : List ℕ)
            × AreLines self.old.seal settling body text.now seal lines }
        ensures clean { IsTrue (D.is_clean self.new.disk) → IsTrue (D.is_clean self.old.disk) }
        ensures counts { IsLater D.Disk self.old.disk self.new.disk }
        ensures closes { IsTrue (D.is_clean self.new.disk) → (self.new.is_open ≡ true)
            ⊎ MoreFaults (D.faults self.old.disk) (D.faults self.new.disk) }
        ensures lost { IsTrue (D.is_clean self.new.disk)
            → (self.new.is_open ≡ true) ⊎ HasFailedTwice D.Disk self.old.disk self.new.disk }
        ensures word { IsTrue (D.is_clean self.new.disk)
            → IfErr result (IsOfCall D.Disk self.old.disk self.new.disk) }
        ensures appended { (settling : List (List ℕ)) (body : List ℕ)
            → AreLines self.old.seal settling body text.now seal lines
            → IsAppended D.Disk self.old self.new settling body result }
        ensures crash { IsTrue (D.is_clean self.new.disk)
            → LeavesTail D.Disk self.new.disk (sealed_text (bodies_of D.Disk self.old))
            (length text.now) }
    {
        self.is_open = false;
        match add_line(&mut self.disk, self.end, text) {
            Written::Whole => {
                self.end = self.end.saturating_add(text.len());
                self.seal = seal;
                self.lines = self.lines.saturating_add(lines);
                self.is_open = true;
                Ok(())
            }
            Written::Undone(fault) => {
                self.is_open = true;
                Err(fault)
            }
            Written::Lost(fault) => Err(fault),
        }
    }

    /// Puts a body behind all that is there, so that a crash leaves it. A file whose length another
    /// hand changed is not written to, and shuts the log.
    ///
    /// # Errors
    ///
    /// The fault of the call of the disk that failed, or `NoMemory`; `Disk` where the log is shut. A log
    /// that is still open has what it had.
    pub fn put(&mut self, alloc: Global, body: &[u8]) -> Result<(), LogFault>
        requires { IsBody body.now }
        ensures clean { IsTrue (D.is_clean self.new.disk) → IsTrue (D.is_clean self.old.disk) }
        ensures counts { IsLater D.Disk self.old.disk self.new.disk }
        ensures shut { self.old.is_open ≡ false → self.new ≡ self.old }
        ensures closes { IsTrue (D.is_clean self.new.disk) → self.old.is_open ≡ true
            → (self.new.is_open ≡ true)
            ⊎ MoreFaults (D.faults self.old.disk) (D.faults self.new.disk) }
        ensures lost { IsTrue (D.is_clean self.new.disk) → self.old.is_open ≡ true
            → (self.new.is_open ≡ true) ⊎ HasFailedTwice D.Disk self.old.disk self.new.disk }
        ensures refused { self.old.is_open ≡ false → IsErrOf result LogFault.Disk }
        ensures word { IsTrue (D.is_clean self.new.disk) → self.old.is_open ≡ true
            → IfErr result (IsMetBetween D.Disk self.old.disk self.new.disk) }
        ensures appended { IsAppended D.Disk self.old self.new [] body.now result }
        ensures crash { self.old.is_open ≡ true → IsTrue (D.is_clean self.new.disk)
            → LeavesTail D.Disk self.new.disk (sealed_text (bodies_of D.Disk self.old))
            (length (sealed_line (seal_of (bodies_of D.Disk self.old)) body.now)) }
    {
        if !self.is_open {
            return Err(LogFault::Disk);
        }
        let seal = seal(&self.seal, body);
        let line = line_of(alloc, body, &seal)?;
        self.put_lines(&line, seal, 1)
    }

    /// Puts two bodies behind all that is there by one write, so that a crash leaves both. A file whose
    /// length another hand changed is not written to, and shuts the log.
    ///
    /// # Errors
    ///
    /// The fault of the call of the disk that failed, or `NoMemory`; `Disk` where the log is shut. A log
    /// that is still open has what it had.
    pub fn put_both(&mut self, alloc: Global, first: &[u8], body: &[u8]) -> Result<(), LogFault>
        requires first { IsBody first.now }
        requires body { IsBody body.now }
        ensures clean { IsTrue (D.is_clean self.new.disk) → IsTrue (D.is_clean self.old.disk) }
        ensures counts { IsLater D.Disk self.old.disk self.new.disk }
        ensures shut { self.old.is_open ≡ false → self.new ≡ self.old }
        ensures closes { IsTrue (D.is_clean self.new.disk) → self.old.is_open ≡ true
            → (self.new.is_open ≡ true)
            ⊎ MoreFaults (D.faults self.old.disk) (D.faults self.new.disk) }
        ensures lost { IsTrue (D.is_clean self.new.disk) → self.old.is_open ≡ true
            → (self.new.is_open ≡ true) ⊎ HasFailedTwice D.Disk self.old.disk self.new.disk }
        ensures refused { self.old.is_open ≡ false → IsErrOf result LogFault.Disk }
        ensures word { IsTrue (D.is_clean self.new.disk) → self.old.is_open ≡ true
            → IfErr result (IsMetBetween D.Disk self.old.disk self.new.disk) }
        ensures appended { IsAppended D.Disk self.old self.new (first.now ∷ []) body.now result }
        ensures crash { self.old.is_open ≡ true → IsTrue (D.is_clean self.new.disk)
            → LeavesTail D.Disk self.new.disk (sealed_text (bodies_of D.Disk self.old))
            (length (sealed_with (seal_of (bodies_of D.Disk self.old))
            (first.now ∷ []) body.now)) }
    {
        if !self.is_open {
            return Err(LogFault::Disk);
        }
        let between = seal(&self.seal, first);
        let last = seal(&between, body);
        let text = both_lines(alloc, first, &between, body, &last)?;
        self.put_lines(&text, last, 2)
    }
}
