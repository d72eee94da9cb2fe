//! A journal, read a line at a time.

ghost use Rattle.std.specs.Prelude.{◌≡◌, None, option_map};
ghost use Rattle.office_policy.specs.Happened.{event_meant};
ghost use Rattle.journal.specs.Reading.{Settles, Takes, held};

use crate::line::Line;
use crate::read::read_line;
use office_policy::Event;
use sealed_log::Unreadable;
use std::alloc::Global;

/// Reads a journal, the oldest line first. The event of the last line is held back, since the next
/// line may strike it out; no other is kept.
#[derive(Drop)]
pub struct Reader {
    held: Option<Event>,
}

impl Reader {
    /// Before the first line.
    pub fn new() -> Reader
        ensures { held result ≡ None }
    {
        Reader { held: None }
    }

    /// Takes the text of the next line, without its line feed, which comes behind so many lines: the
    /// event before it, where that stands.
    ///
    /// # Errors
    ///
    /// The line can't stand there (`NotALine`, `NoEventBefore`), or memory fails.
    pub fn take(
        &mut self,
        alloc: Global,
        before: u64,
        text: &[u8],
    ) -> Result<Option<Event>, Unreadable>
        ensures { Takes before self.old self.new text.now result }
    {
        match read_line(alloc, text)? {
            Line::Event(event) => Ok(self.held.replace(event)),
            Line::Strike => match self.held.take() {
                Some(_) => Ok(None),
                None => Err(Unreadable::NoEventBefore),
            },
            Line::Done { of } => self.settle(before, of),
        }
    }

    // Takes a line, behind so many, that says that the line of this number is carried out.
    fn settle(&mut self, before: u64, of: u64) -> Result<Option<Event>, Unreadable>
        ensures { Settles before of self.old self.new result }
    {
        if self.held.is_none() {
            return Err(Unreadable::NoEventBefore);
        }
        if of != before {
            return Err(Unreadable::NotALine);
        }
        Ok(self.held.take())
    }

    /// The event that is held back: that of the last line, where the journal ends here.
    pub fn end(self) -> Option<Event>
        ensures { option_map event_meant result ≡ held self }
    {
        self.held
    }
}
