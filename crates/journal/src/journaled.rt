//! An office with its journal.

ghost use Rattle.sealed_log.specs.Sealed.{IsBody};
ghost use Rattle.journal.specs.Begun.{done_bodies};
ghost use Rattle.journal.specs.Writing.{IsAppended};

use crate::journal::Journal;
use crate::print::{change_text, done_text};
use office_policy::{Allowed, Handler, Judge, Judgement};
use office_words::Fault;
use review_policy::{Answer, Request};
use sealed_log::is_body;
use std::alloc::Global;

/// An office whose events are written to a journal, each before it happens. The journal says just
/// the history of the office: an event that a fault kept from happening is struck out, and where it
/// can't be, the office is shut.
#[derive(Drop)]
pub struct Journaled<O: Judge, J: Journal> {
    office: O,
    journal: J,
    has_stray: bool,
    // Whether a line behind that of its last event says what became of that.
    is_settled: bool,
}

// The text of the line that strikes out the one before it.
const STRIKE: &str = "{\"event\":\"strike\"}";

// Writes the line of an event; and before it, by the same write, the one that says that the event of
// the last line is carried out, where that line's number is given.
fn write_event<J: Journal>(
    alloc: Global,
    journal: &mut J,
    last: Option<u64>,
    body: &[u8],
) -> Result<(), Fault>
    requires { IsBody body.now }
    ensures { IsAppended J.Journal.writing journal.old journal.new
        (done_bodies last) body.now result }
{
    match last {
        None => journal.append(alloc, body),
        Some(of) => {
            let done = match done_text(alloc, of) {
                Ok(done) => done,
                Err(refused) => return Err(Fault::NoMemory(refused.into())),
            };
            journal.append_both(alloc, done.as_str().as_bytes(), body)
        }
    }
}

impl<O: Judge, J: Journal> Journaled<O, J> {
    ghost use Rattle.std.specs.Prelude.{◌≡◌, false, IfErr, IsTrue, OnOk};
    ghost use Rattle.office_policy.specs.Handled.{IsHandled};
    ghost use Rattle.office_policy.specs.Judging.{IsPermitted, answer_in, event_for};
    ghost use Rattle.journal.specs.Journals.{HasWritten, IsSettled, IsTakenBack};
    ghost use Rattle.journal.specs.Journals.{IsUndone, fault_in, goes_on};
    ghost use Rattle.journal.specs.Journals.{journaled, unsettled, with_office};

    /// The office with the journal that says its history; and whether a line behind that of the last
    /// event strikes it out, or says that it is carried out.
    pub fn new(office: O, journal: J, is_settled: bool) -> Journaled<O, J>
        ensures { result ≡ record {
          office = office;
          journal = journal;
          has_stray = false;
          is_settled = is_settled;
        } }
    {
        Journaled {
            office,
            journal,
            has_stray: false,
            is_settled,
        }
    }

    /// The office and the journal, as the last request left them.
    pub fn into_parts(self) -> (O, J)
        ensures { result ≡ (self.office, self.journal) }
    {
        let Journaled {
            office,
            journal,
            ..
        } = self;
        (office, journal)
    }

    // Whether its journal is open, and has no event that didn't happen.
    fn goes_on(&self) -> bool
        ensures { result ≡ goes_on O.Handler.meaning J.Journal.writing self.now }
    {
        self.journal.takes_lines() && !self.has_stray
    }

    // The number of its last line, where that has the last event, no line says yet what became of
    // that, and the number can be told.
    fn unsettled(&self) -> Option<u64>
        ensures { result ≡ unsettled J.Journal.writing self.now }
    {
        if self.is_settled {
            return None;
        }
        let lines = self.journal.lines();
        if lines == u64::MAX { None } else { Some(lines) }
    }

    /// Writes the line that says that the event of the last line is carried out, where the journal goes
    /// on and no line says so yet. So no opening strikes it out.
    ///
    /// # Errors
    ///
    /// The fault that was met. A journal that still goes on has what it had.
    pub fn settle(&mut self, alloc: Global) -> Result<(), Fault>
        ensures { IsSettled O.Handler.meaning J.Journal.writing self.old self.new result }
    {
        if !self.goes_on() {
            return Ok(());
        }
        let Some(of) = self.unsettled() else {
            return Ok(());
        };
        let text = match done_text(alloc, of) {
            Ok(text) => text,
            Err(refused) => return Err(Fault::NoMemory(refused.into())),
        };
        let body = text.as_str().as_bytes();
        self.journal.append(alloc, body)?;
        self.is_settled = true;
        Ok(())
    }

    // Strikes out the event of the last line, where the office stands as it did before. Else that
    // event is a stray, and its request was answered so, or the strike met this fault.
    #[tactic(auto, using(crate::proofs::Texts::strike_body))]
    fn strike_out(&mut self, alloc: Global, request: &Request) -> Option<Answer>
        ensures { IsTakenBack O.Handler.meaning J.Journal.writing request.now
            self.old self.new result }
    {
        self.has_stray = true;
        match self.office.judge(alloc, request) {
            Judgement::Answered(answer) => Some(answer),
            Judgement::Allowed(_) => match self.journal.append(alloc, STRIKE.as_bytes()) {
                Ok(()) => {
                    self.has_stray = false;
                    self.is_settled = true;
                    None
                }
                Err(fault) => Some(Answer::Fault(fault)),
            },
        }
    }

    // Writes down what was allowed, and before it that what was allowed last was carried out, and
    // carries it out. A fault comes with what kept the line from being struck out, where that was
    // written and still stands.
    fn do_allowed(
        &mut self,
        alloc: Global,
        request: &Request,
        allowed: &Allowed,
    ) -> Result<(), (Fault, Option<Answer>)>
        requires { (before : O)
            × IsPermitted O.Handler.meaning before self.old.office request.now allowed.now }
        ensures handled { (before : O)
            → IsTrue (goes_on O.Handler.meaning J.Journal.writing self.old)
            → IsPermitted O.Handler.meaning before self.old.office request.now allowed.now
            → IsHandled (journaled O.Handler.meaning J.Journal.writing)
            (with_office self.old before) self.new request.now
            (answer_in allowed.now (fault_in result)) }
        ensures written { OnOk result (HasWritten O.Handler.meaning J.Journal.writing
            self.old self.new (event_for allowed.now)) }
        ensures undone { IfErr result (λ met. IsUndone O.Handler.meaning J.Journal.writing
            request.now self.old self.new (event_for allowed.now) met.0 met.1) }
    {
        let text = match change_text(alloc, &allowed.caller.name, &allowed.change) {
            Ok(text) => text,
            Err(refused) => return Err((Fault::NoMemory(refused.into()), None)),
        };
        if !is_body(text.as_str().as_bytes()) {
            // No event that the policy allows is too long for a line.
            return Err((Fault::Disk, None));
        }
        let last = self.unsettled();
        match write_event(alloc, &mut self.journal, last, text.as_str().as_bytes()) {
            Ok(()) => {}
            Err(fault) => return Err((fault, None)),
        }
        self.is_settled = false;
        match self.office.carry_out(alloc, allowed) {
            Ok(()) => Ok(()),
            Err(fault) => {
                let told = self.strike_out(alloc, request);
                Err((fault, told))
            }
        }
    }
}

impl<O: Judge, J: Journal> Handler for Journaled<O, J> {
    ghost use Rattle.journal.specs.Journals.{journaled};

    ghost meaning = { journaled O.Handler.meaning J.Journal.writing };

    fn handle(&mut self, alloc: Global, request: &Request) -> Answer {
        if !self.goes_on() {
            return Answer::Fault(Fault::Disk);
        }
        match self.office.judge(alloc, request) {
            Judgement::Answered(answer) => answer,
            Judgement::Allowed(allowed) => match self.do_allowed(alloc, request, &allowed) {
                Ok(()) => Answer::Done(allowed.reply),
                Err((fault, _)) => Answer::Fault(fault),
            },
        }
    }
}
