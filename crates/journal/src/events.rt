//! A journal, read as a stream: its events that stand, the oldest first.

ghost use Rattle.std.specs.Prelude.{◌≡◌, ◌<◌, ◌^◌, ◌-◌, ℕ, List, Option, IfErr, IfOk, None};
ghost use Rattle.std.specs.Prelude.{option_map};
ghost use Rattle.journal.specs.Reading.{held};
ghost use Rattle.journal.specs.SealsAt.{Finds, IsSeen};
ghost use Rattle.journal.specs.Steps.{IsLast, Steps};
ghost use Rattle.journal.specs.Told.{Gives, KeepsFault, Leaves, held_at, place};
ghost use Rattle.journal.specs.Told.{placed_meant, start, without_held};

use crate::reader::Reader;
use crate::seal_at::SealAt;
use office_policy::Event;
use sealed_log::{Seal, Unreadable, no_seal, read_body};
use std::alloc::Global;
use std::io::BufRead;
use std::mem::replace;

/// An event that stands, with the number of its line, from 1.
#[derive(Drop)]
pub struct Placed {
    pub line: u64,
    pub event: Event,
}

// What came of a line.
enum Step {
    // By it this event stands, or no line was left and it stands at the end.
    Stands(Placed),
    // No event stands by it.
    Passed,
    // No line was left, nor an event.
    Ended,
}

// What stands at the end, by the line of this number.
fn last(reader: &mut Reader, line: u64) -> Step
    ensures none_held { held reader.new ≡ None }
    ensures last { IsLast line (held reader.old) result }
{
    match replace(reader, Reader::new()).end() {
        Some(event) => Step::Stands(Placed { line, event }),
        None => Step::Ended,
    }
}

/// The events of a journal that stand, as its input is read. Of the journal only the line that is
/// read and the event that is held back are kept. After a fault nothing more is read.
#[derive(Drop)]
pub struct Events<R> {
    input: R,
    reader: Reader,
    seal: Seal,
    text: Vec<u8>,
    taken: u64,
    at: SealAt,
    fault: Option<Unreadable>,
}

impl<R: BufRead> Events<R> {
    /// Before the first line of the input, of which the seal of the first so many lines is kept.
    pub fn new(alloc: Global, input: R, line: u64) -> Events<R>
        ensures place { place R.remaining result ≡ start (R.remaining input) }
        ensures fault { result.fault ≡ None }
        ensures seen { IsSeen (R.remaining input) (place R.remaining result) result.at }
        ensures line { result.at.line ≡ line }
    {
        Events {
            input,
            reader: Reader::new(),
            seal: no_seal(),
            text: Vec::new(alloc),
            taken: 0,
            at: SealAt::new(line),
            fault: None,
        }
    }

    /// How many lines were taken. After an error it is the line behind these that can't be.
    pub fn taken(&self) -> u64
        ensures { result ≡ (place R.remaining self.now).taken }
    {
        self.taken
    }

    /// The seal of the lines that were taken.
    pub fn seal(&self) -> Seal
        ensures { result ≡ (place R.remaining self.now).seal }
    {
        self.seal
    }

    /// The seal of the first so many lines as were asked for; `None` where fewer were taken.
    pub fn seal_at(&self) -> Option<Seal>
        ensures { Finds self.now.at (place R.remaining self.now).taken result }
    {
        self.at.find(self.taken)
    }

    // Takes the next line.
    fn step(&mut self, alloc: Global) -> Result<Step, Unreadable>
        requires { self.old.taken < 2 ^ 64 - 1 }
        ensures told { Steps (place R.remaining self.old) (place R.remaining self.new) result }
        ensures leaves { IfErr result
            (Leaves (place R.remaining self.old) (place R.remaining self.new)) }
        ensures seen { (bytes : Option (List ℕ))
            → IsSeen bytes (place R.remaining self.old) self.old.at → IfOk result
            (λ _. IsSeen bytes (place R.remaining self.new) self.new.at) }
        ensures line { self.new.at.line ≡ self.old.at.line }
        ensures fault { self.new.fault ≡ self.old.fault }
    {
        if !read_body(alloc, &mut self.input, &mut self.seal, &mut self.text)? {
            return Ok(last(&mut self.reader, self.taken));
        }
        let line = self.taken;
        let stands = self.reader.take(alloc, line, &self.text)?;
        self.taken = line + 1;
        self.at.see(self.taken, self.seal);
        match stands {
            Some(event) => Ok(Step::Stands(Placed { line, event })),
            None => Ok(Step::Passed),
        }
    }

    // Takes lines until an event stands.
    fn find(&mut self, alloc: Global) -> Result<Option<Placed>, Unreadable>
        ensures told { Gives (place R.remaining self.old) (place R.remaining self.new) result }
        ensures leaves { IfErr result
            (Leaves (place R.remaining self.old) (place R.remaining self.new)) }
        ensures seen { (bytes : Option (List ℕ))
            → IsSeen bytes (place R.remaining self.old) self.old.at → IfOk result
            (λ _. IsSeen bytes (place R.remaining self.new) self.new.at) }
        ensures line { self.new.at.line ≡ self.old.at.line }
        ensures fault { self.new.fault ≡ self.old.fault }
    {
        while self.taken < u64::MAX {
            match self.step(alloc)? {
                Step::Stands(placed) => return Ok(Some(placed)),
                Step::Passed => {}
                Step::Ended => return Ok(None),
            }
        }
        Err(Unreadable::Read)
    }

    /// The next event that stands; `None` at the end of the input.
    ///
    /// # Errors
    ///
    /// The line behind those that were taken can't be, since it is no line, strikes out nothing, isn't
    /// sealed or has no line feed; or the input or memory fails. From then on it is the same error.
    pub fn next(&mut self, alloc: Global) -> Result<Option<Placed>, Unreadable>
        ensures told { self.old.fault ≡ None
            → Gives (place R.remaining self.old) (place R.remaining self.new) result }
        ensures leaves { self.old.fault ≡ None → IfErr result
            (Leaves (place R.remaining self.old) (place R.remaining self.new)) }
        ensures seen { (bytes : Option (List ℕ))
            → IsSeen bytes (place R.remaining self.old) self.old.at → IfOk result
            (λ _. IsSeen bytes (place R.remaining self.new) self.new.at) }
        ensures line { self.new.at.line ≡ self.old.at.line }
        ensures fault { KeepsFault self.old.fault self.new.fault result }
    {
        match self.fault {
            Some(fault) => Err(fault),
            None => match self.find(alloc) {
                Ok(found) => Ok(found),
                Err(fault) => {
                    self.fault = Some(fault);
                    Err(fault)
                }
            },
        }
    }

    /// The event that is held back: that of the last line that was taken, where the next could strike
    /// it out. After an error none can, so it stands as far as the journal can be read. It is held back
    /// no longer.
    pub fn held_back(&mut self) -> Option<Placed>
        ensures held { option_map placed_meant result ≡ held_at (place R.remaining self.old) }
        ensures place { place R.remaining self.new ≡ without_held (place R.remaining self.old) }
        ensures fault { self.new.fault ≡ self.old.fault }
    {
        let line = self.taken;
        match replace(&mut self.reader, Reader::new()).end() {
            Some(event) => Some(Placed { line, event }),
            None => None,
        }
    }
}
