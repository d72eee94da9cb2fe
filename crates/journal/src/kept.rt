//! What an opening needs of the lines of a journal, kept while they are read.

ghost use Rattle.std.specs.Prelude.{◌≡◌, List, ℕ, []};
ghost use Rattle.journal.specs.Kept.{EndsAs, TakesBody, keeps};

use crate::reader::Reader;
use crate::writers::Writers;
use office_policy::Event;
use sealed_log::{Keeps, Unreadable};
use std::alloc::Global;

/// Of the lines of a journal the newest events that can't be struck out any more, of each table one,
/// and the event that is held back; or why a line can't stand there.
#[derive(Drop)]
pub struct Kept {
    settled: Writers,
    reader: Reader,
    fault: Option<Unreadable>,
}

impl Kept {
    /// Before the first line.
    pub fn new() -> Kept
        ensures { keeps [] result }
    {
        Kept {
            settled: Writers::new(),
            reader: Reader::new(),
            fault: None,
        }
    }

    // Takes the next line, behind so many.
    fn take(&mut self, alloc: Global, before: u64, body: &[u8]) -> Result<(), Unreadable>
        ensures same { self.new.fault ≡ self.old.fault }
        ensures takes { TakesBody before body.now self.old self.new result }
    {
        let Some(event) = self.reader.take(alloc, before, body)? else {
            return Ok(());
        };
        self.settled.put(alloc, event)?;
        Ok(())
    }

    /// The newest events that are settled, and the one that is held back.
    ///
    /// # Errors
    ///
    /// A line can't stand where it does (`NotALine`, `NoEventBefore`), or memory failed.
    pub fn end(self) -> Result<(Writers, Option<Event>), Unreadable>
        ensures { (bodies : List (List ℕ)) → keeps bodies self → EndsAs bodies result }
    {
        match self.fault {
            None => Ok((self.settled, self.reader.end())),
            Some(fault) => Err(fault),
        }
    }
}

impl Keeps for Kept {
    ghost is_of = { keeps };

    fn see(&mut self, alloc: Global, before: u64, body: &[u8]) {
        if self.fault.is_some() {
            return;
        }
        if let Err(fault) = self.take(alloc, before, body) {
            self.fault = Some(fault);
        }
    }
}
