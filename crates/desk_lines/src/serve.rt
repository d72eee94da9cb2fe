//! Lines in, answers out.

ghost use Rattle.std.specs.Prelude.{◌≡◌, ◌+◌, ◌≤◌, ◌<◌, ℕ, List, IfErr, OnOk, IfSome};
ghost use Rattle.std.specs.Option.{option_or};
ghost use Rattle.streams.specs.Held.{Holds};
ghost use Rattle.streams.specs.Lines.{first_line, lines_of};
ghost use Rattle.json_requests.specs.Answers.{line_of};
ghost use Rattle.desk_lines.specs.Notes.{HasNote};
ghost use Rattle.desk_lines.specs.Outcomes.{told, want_of};
ghost use Rattle.desk_lines.specs.declared.outcome.LineOutcome.{LineOutcome};
ghost use Rattle.desk_lines.specs.Stands.{IsHandled, HasHandled, HasNoted, AreAnswered, StandsAfter};
ghost use Rattle.desk_lines.specs.Written.{IsServed, CountsServed};
ghost use Rattle.streams.specs.CallsLeft.{HasCallsLeft, HasFaultsLeft};
ghost use Rattle.no_memory.specs.Witness.{witness};

use crate::ended::Ended;
use crate::fault::DeskFault;
use crate::note::note;
use crate::outcome::LineOutcome;
use json_requests::{BadLine, line};
use json_tree::Scratch;
use no_memory::NoMemory;
use office_policy::Handler;
use office_words::Fault;
use review_policy::Answer;
use std::alloc::Global;
use std::io::{Read, Write};
use streams::{Counted, Found, Lines, write_whole};

/// How often a reader may be called.
pub const MAX_READS: u64 = 4_194_304;

// The line that says that it is out of memory.
#[tactic(auto, unfolding(json_requests::specs::Answers::line_of, json_requests::specs::Answers::answer_text, serde_json::proofs::OnLiterals::serde_json_on_literals))]
fn memory_line() -> &'static str
    ensures { result.now ≡ line_of (Answer.Fault (Fault.NoMemory witness)) }
{
    "{\"answer\":\"fault\",\"word\":\"memory\"}\n"
}

// Writes the line that reports what came of the line of this number.
fn tell<W: Write>(
    alloc: Global,
    outcome: &LineOutcome,
    writer: &mut Counted<W>,
    number: u64,
) -> Result<(), DeskFault>
    ensures told { IsServed (W.contents writer.old.inner) (W.contents writer.new.inner)
        (told outcome.now) number result }
    ensures faults { CountsServed writer.old.faults writer.new.faults result }
{
    let written = match outcome {
        LineOutcome::Bad(bad) => write_whole(writer, bad.line().as_bytes()),
        LineOutcome::NoMemory(_) => write_whole(writer, memory_line().as_bytes()),
        LineOutcome::Answered { request: _, answer } => match line(alloc, answer) {
            Ok(text) => write_whole(writer, text.as_bytes()),
            Err(refused) => return Err(DeskFault::NoMemory {
                line: number,
                witness: refused.into(),
            }),
        },
    };
    written.map_err(|_| DeskFault::Write { line: number })
}

// Handles a line, writes the line that reports what came of it, and notes what is wrong with it. Lines
// before it told this want of memory.
fn serve_line<H: Handler, W: Write, E: Write>(
    office: &mut H,
    alloc: Global,
    line: &[u8],
    scratch: &mut Scratch,
    writer: &mut Counted<W>,
    errors: &mut Counted<E>,
    number: u64,
    want: Option<NoMemory>,
) -> Ended
    ensures told { (outcome : LineOutcome)
        × IsHandled H.meaning office.old office.new line.now outcome
        × IsServed (W.contents writer.old.inner) (W.contents writer.new.inner)
        (told outcome) number result.answered
        × (result.witness ≡ option_or want (want_of outcome))
        × HasNote E.contents number line.now outcome errors.old errors.new }
    ensures faults { CountsServed writer.old.faults writer.new.faults result.answered }
{
    let outcome = LineOutcome::of_line(office, alloc, line, scratch);
    let answered = tell(alloc, &outcome, writer, number);
    note(alloc, &outcome, line, scratch, errors, number);
    Ended {
        answered,
        witness: want.or(outcome.witness()),
    }
}

// The same of the first line that is held.
fn serve_first<H: Handler, W: Write, E: Write>(
    office: &mut H,
    alloc: Global,
    lines: &Lines,
    scratch: &mut Scratch,
    writer: &mut Counted<W>,
    errors: &mut Counted<E>,
    number: u64,
    want: Option<NoMemory>,
) -> Ended
    ensures told { (bytes : List ℕ) → Holds lines.now bytes → (outcome : LineOutcome)
        × IsHandled H.meaning office.old office.new (first_line bytes) outcome
        × IsServed (W.contents writer.old.inner) (W.contents writer.new.inner)
        (told outcome) number result.answered
        × (result.witness ≡ option_or want (want_of outcome))
        × HasNote E.contents number (first_line bytes) outcome errors.old errors.new }
    ensures faults { CountsServed writer.old.faults writer.new.faults result.answered }
{
    match lines.line() {
        Ok(line) => serve_line(office, alloc, line, scratch, writer, errors, number, want),
        Err(_) => Ended {
            answered: tell(alloc, &LineOutcome::Bad(BadLine::TooLong), writer, number),
            witness: want,
        },
    }
}

/// Handles the lines of a stream one after the other, and writes the answer to each.
///
/// A line is what stands between line feeds; a last one without a line feed is a line where it
/// isn't empty and the stream ends. How the reader cuts the stream doesn't matter. Each line is
/// answered before the reader is called again. A line that is out of memory to be read is answered
/// by that fault, and so is a request that runs out of it; both change nothing, and the witness is
/// handed on. Of a line that is JSON and no request it is noted, behind its answer, what is wrong with
/// it. A note that can't be written stops nothing.
///
/// After a crash what is left is the office of the last history, or that office with one event
/// more, or with what was begun of one: that of a request among the lines of this call that was
/// answered by a fault, as a fault may come once what was asked for is written.
///
/// # Errors
///
/// [`DeskFault`] says what stands then. The reader is called at most [`MAX_READS`] times.
pub fn desk<H: Handler, R: Read, W: Write, E: Write>(
    office: &mut H,
    alloc: Global,
    reader: &mut Counted<R>,
    writer: &mut Counted<W>,
    errors: &mut Counted<E>,
) -> Ended
    requires reads { HasCallsLeft reader.old }
    requires writes { HasFaultsLeft writer.old }
    ensures answered { OnOk result.answered (IfSome (R.remaining reader.old.inner) (λ input.
        AreAnswered H.meaning E.contents errors.old errors.new office.old office.new
        (W.contents writer.old.inner) (W.contents writer.new.inner) (lines_of input)
        result.witness)) }
    ensures stopped { IfErr result.answered (StandsAfter H.meaning E.contents errors.old errors.new
        office.old office.new
        (R.remaining reader.old.inner) (R.remaining reader.new.inner)
        (W.contents writer.old.inner) (W.contents writer.new.inner) result.witness) }
    ensures handled { HasHandled H.meaning office.old office.new }
    ensures noted { HasNoted H.meaning E.contents errors.old errors.new office.old office.new }
    ensures nothing { result.answered ≡ Err (DeskFault.Unbegun witness)
        → office.new ≡ office.old }
    ensures read { IfErr result.answered (λ e. (line : ℕ) → e ≡ DeskFault.Read line →
        reader.old.faults < reader.new.faults) }
    ensures write { IfErr result.answered (λ e. (line : ℕ) → e ≡ DeskFault.Write line →
        writer.old.faults < writer.new.faults) }
    ensures too_many { IfErr result.answered (λ e. (line : ℕ) → e ≡ DeskFault.TooManyReads line →
        (reader.new.calls ≡ reader.old.calls + MAX_READS)
        × (reader.new.faults ≡ reader.old.faults)) }
    ensures no_fault { OnOk result.answered
        ((reader.new.faults ≡ reader.old.faults) × (writer.new.faults ≡ writer.old.faults)) }
    ensures calls { reader.new.calls ≤ reader.old.calls + MAX_READS }
{
    let mut lines = match Lines::new(alloc) {
        Ok(lines) => lines,
        Err(refused) => return Ended::unbegun(refused),
    };
    let mut scratch = Scratch::new(alloc);
    let most_calls = reader.calls() + MAX_READS;
    let mut answered = 0u64;
    let mut want = None;
    loop {
        let line = answered + 1;
        match lines.find(reader, most_calls) {
            Found::Line => {
                let ended = serve_first(
                    office,
                    alloc,
                    &lines,
                    &mut scratch,
                    writer,
                    errors,
                    line,
                    want,
                );
                match ended.answered {
                    Ok(()) => {}
                    Err(_) => return ended,
                }
                want = ended.witness;
                answered = line;
                lines.pass();
            }
            Found::LastLine => {
                return serve_first(
                    office,
                    alloc,
                    &lines,
                    &mut scratch,
                    writer,
                    errors,
                    line,
                    want,
                );
            }
            Found::End => return Ended::well(want),
            Found::Failed => return Ended::stopped(DeskFault::Read { line }, want),
            Found::TooManyReads => return Ended::stopped(DeskFault::TooManyReads { line }, want),
        }
    }
}
