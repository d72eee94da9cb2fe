//! The program `office`: without words, a trial desk over standard input and output; with words, the command that they
//! ask for.
#![tactic(auto)]

mod closed_pipe;
mod examples;
mod files;
mod kept_apart;
mod line;
mod measured;
mod meter;
mod pace;

ghost use Rattle.std.specs.Prelude.{◌≡◌, ◌≢◌};
ghost use Rattle.std.specs.IoError.{error_kind};

use closed_pipe::{Noting, Quiet};
use files::MeasuredFiles;
use kept_apart::KeptApart;
use meter::Meter;
use office_commands::run_here;
use std::cell::Cell;
use std::io::{ErrorKind, IsTerminal};
use std::process::ExitCode;
use std::{env, io};
use streams::Counted;

// The words that the program was given, the first of them being its name.
fn words_given(rt: &HostRuntime) -> io::Result<Vec<String>> {
    let words = env::args(rt)?.collect(rt.alloc())?;
    Ok(words)
}

// Says why there are no words, and with which status that ends the program.
fn without_words(rt: &HostRuntime, error: &io::Error) -> u8
    ensures memory { error_kind error.now ≡ ErrorKind.OutOfMemory → result ≡ 1 }
    ensures refused { error_kind error.now ≢ ErrorKind.OutOfMemory → result ≡ 2 }
{
    if matches!(error.kind(), ErrorKind::OutOfMemory) {
        let _ = eprintln!(rt; "office: memory");
        return 1;
    }
    let _ = eprintln!(rt; "error: a word of the command line is not UTF-8");
    2
}

// Says how to begin, where the trial desk reads a terminal.
fn greet(rt: &HostRuntime, words: &[String]) {
    if words.len() < 2 && rt.stdin().is_terminal() {
        let _ = eprintln!(rt;
            "office: a trial desk, one JSON request a line; try \"office --help\""
        );
    }
}

// Whether words ask for nothing but a text, which its reader may leave before its end.
fn asks_for_text(words: &[String]) -> bool {
    match words.get(1) {
        Some(word) => matches!(
            word.as_str(),
            "check" | "compare" | "evidence" | "execve" | "history"
        ),
        None => false,
    }
}

// Carries the words out over the files of the host and the standard streams of the process. How far long reading of
// a file is shows on standard error, where that is a terminal, apart from what is printed. Nothing is said of a text
// whose reader has gone.
fn run_with<'r>(
    rt: &'r HostRuntime,
    meter: &'r Meter<&'r HostRuntime>,
    gone: &'r Cell<bool>,
    words: &[String],
) -> u8 {
    let files = MeasuredFiles::new(rt, meter);
    let apart = KeptApart::new(io::writer(rt), meter, rt.stdout().is_terminal());
    let output = Noting::new(apart, gone);
    let errors = Quiet::new(rt.stderr(), gone, asks_for_text(words));
    let ended = run_here(
        rt,
        &files,
        words,
        &mut Counted::new(rt.reader()),
        &mut Counted::new(output),
        &mut Counted::new(errors),
    );
    ended.status
}

// Carries the words out, and notes meanwhile how far reading is and whether the reader of what is printed has gone.
fn run(rt: &HostRuntime, words: &[String]) -> u8 {
    let meter = Meter::new(rt, rt.stderr().is_terminal());
    let gone = Cell::new(false);
    run_with(rt, &meter, &gone, words)
}

fn main(rt: HostRuntime) -> ExitCode {
    let status = match words_given(&rt) {
        Ok(words) => {
            greet(&rt, &words);
            run(&rt, &words)
        }
        Err(error) => without_words(&rt, &error),
    };
    ExitCode::from(status)
}
