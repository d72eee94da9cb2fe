//! What stands where a reader or a writer stops the desk.

use crate::lines::texts::{
    CANONICAL, CANONICAL_AGAIN, FIRST_ANSWERS, FIRST_PATH, SECOND_ANSWERS, STANDS, SUBMIT,
    SUBMITTED, first_lines,
};
use crate::lines::turns::{WHOLE, take_turn, take_turn_anew};
use desk_lines::DeskFault;
use no_memory::NoMemory;
use std::alloc::Global;
use std::process::Abort;
use std::test::Fail;
use test_doubles::conversations::{ENROLLED, ENROLMENTS};
use test_doubles::fake_streams::{Giving, Source, Taking, feeds};
use test_offices::served::serve;
use test_offices::trial::TrialOffice;

// Has the desk serve the first path once for each read that may fail, where it was served before.
fn fail_at_each_read(rt: &impl Abort, alloc: Global, office: &mut TrialOffice) {
    let input = FIRST_PATH.as_bytes();
    for call in 0..input.len() {
        let told = feeds(&input[..call]).min(5);
        let line = told as u64 + 1;
        let manner = (Giving::FailsAt(call), Taking::All);
        let ends = Err(DeskFault::Read { line });
        let answers = first_lines(SECOND_ANSWERS, told);
        take_turn(rt, alloc, office, (FIRST_PATH, manner, ends, answers));
    }
}

#[test]
fn lines_before_a_failing_read_are_answered(rt: HostRuntime) -> Result<(), Fail> {
    let alloc = rt.alloc();
    let mut office = TrialOffice::new(alloc)?;
    take_turn(
        &rt,
        alloc,
        &mut office,
        (FIRST_PATH, WHOLE, Ok(()), FIRST_ANSWERS),
    );
    fail_at_each_read(&rt, alloc, &mut office);
    Ok(())
}

#[test]
fn answers_before_a_failing_write_are_written(rt: HostRuntime) -> Result<(), Fail> {
    for calls in 0..5usize {
        let line = calls as u64 + 1;
        let manner = (Giving::Whole, Taking::Calls(calls));
        let ends = Err(DeskFault::Write { line });
        let answers = first_lines(FIRST_ANSWERS, calls);
        take_turn_anew(&rt, rt.alloc(), (FIRST_PATH, manner, ends, answers))?;
    }
    Ok(())
}

#[test]
fn a_writer_that_takes_no_byte_has_failed(rt: HostRuntime) -> Result<(), Fail> {
    let lines = first_lines(FIRST_PATH, 1);
    let manner = (Giving::Whole, Taking::Nothing);
    let ends = Err(DeskFault::Write { line: 1 });
    take_turn_anew(&rt, rt.alloc(), (lines, manner, ends, ""))
}

#[test]
fn a_line_that_the_reader_cuts_is_not_handled(rt: HostRuntime) -> Result<(), Fail> {
    let mut office = TrialOffice::new(rt.alloc())?;
    let lines = first_lines(FIRST_PATH, 2).trim_end();
    let manner = (Giving::FailsAtEnd, Taking::All);
    let ends = Err(DeskFault::Read { line: 2 });
    let answers = first_lines(FIRST_ANSWERS, 1);
    take_turn(&rt, rt.alloc(), &mut office, (lines, manner, ends, answers));
    take_turn(
        &rt,
        rt.alloc(),
        &mut office,
        (SUBMIT, WHOLE, Ok(()), SUBMITTED),
    );
    Ok(())
}

#[test]
fn a_reader_is_not_called_without_end(rt: HostRuntime) -> Result<(), Fail> {
    let mut office = TrialOffice::new(rt.alloc())?;
    let source = Source::new(b"", Giving::Never);
    let (end, written) = serve(rt.alloc(), &mut office, source, Vec::new(rt.alloc()));
    assert_eq!(rt;
        (end.result, end.reads, end.failed_reads, written.len()),
        (Err(DeskFault::TooManyReads { line: 1 }), 4_194_304, 0, 0)
    );
    Ok(())
}

#[test]
fn a_submission_whose_answer_is_cut_stands(rt: HostRuntime) -> Result<(), Fail> {
    let alloc = rt.alloc();
    let mut office = TrialOffice::new(alloc)?;
    let enrolled = format!(in alloc; "{ENROLLED}\n")?;
    let manner = (Giving::Whole, Taking::Bytes(10));
    let ends = Err(DeskFault::Write { line: 1 });
    take_turn(
        &rt,
        alloc,
        &mut office,
        (ENROLMENTS, WHOLE, Ok(()), enrolled.as_str()),
    );
    take_turn(
        &rt,
        alloc,
        &mut office,
        (CANONICAL, manner, ends, r#"{"answer":"#),
    );
    take_turn(
        &rt,
        alloc,
        &mut office,
        (CANONICAL_AGAIN, WHOLE, Ok(()), STANDS),
    );
    Ok(())
}

#[test]
fn each_fault_of_the_desk_has_its_word(rt: HostRuntime) -> Result<(), Fail> {
    for (fault, word) in [
        (DeskFault::Read { line: 1 }, "read"),
        (DeskFault::Write { line: 1 }, "write"),
        (DeskFault::TooManyReads { line: 1 }, "too-many-reads"),
        (
            DeskFault::NoMemory {
                line: 1,
                witness: NoMemory::told(),
            },
            "memory",
        ),
        (DeskFault::Unbegun(NoMemory::told()), "memory"),
    ] {
        let text = format!(in rt.alloc(); "{fault}")?;
        assert_eq!(rt; text.as_str(), word);
    }
    Ok(())
}
