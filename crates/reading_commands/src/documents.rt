//! `check`, `execve` and `compare`: what documents in files say.

ghost use Rattle.std.specs.Prelude.{◌≡◌, IfErr, IfOk, string_bytes};
ghost use Rattle.reading_commands.specs.DocumentFailures.{FailsToCheck, FailsToCompare};
ghost use Rattle.reading_commands.specs.DocumentFailures.{FailsToExecute};
ghost use Rattle.reading_commands.specs.Documents.{findings_status, HasChecked, HasCompared};
ghost use Rattle.reading_commands.specs.Documents.{HasExecuted};

use crate::compare::compare_files;
use crate::document_bytes::document_bytes;
use command_host::{CommandFault, PassFiles, print};
use command_line::ExecveWords;
use profile_commands::{ExecveOutcome, check_document, execution_of, execve_document};
use std::alloc::Global;
use std::io::Write;
use streams::Counted;

/// `check`: prints the canonical text of the document in the file that a word names, and gives the
/// status. The word `-` is standard input, as in the other two.
///
/// # Errors
///
/// `Open` where the file can't be opened, `File` where it gave nothing, `Write` where the text
/// was cut.
pub fn run_check<F: PassFiles, O: Write>(
    files: &F,
    alloc: Global,
    file: &str,
    output: &mut Counted<O>,
) -> Result<u8, CommandFault>
    ensures done { IfOk result (λ status.
        HasChecked (F.opens files.now) F.File.remaining O.contents output.old output.new file.now
        × (status ≡ 0)) }
    ensures failed { IfErr result (FailsToCheck (F.opens files.now) F.gives F.File.remaining O.contents
        output.old output.new file.now) }
{
    let bytes = document_bytes(files, alloc, file)?;
    let text = check_document(alloc, &bytes)?;
    print(output, text.as_str())?;
    Ok(0)
}

/// `execve`: prints what comes of an execution under the document in a file, and gives the status: 1
/// where it is denied.
///
/// # Errors
///
/// As of [`run_check`], and `Execution` where the words describe no execution.
pub fn run_execve<F: PassFiles, O: Write>(
    files: &F,
    alloc: Global,
    words: &ExecveWords<'_>,
    output: &mut Counted<O>,
) -> Result<u8, CommandFault>
    ensures done { IfOk result
        (HasExecuted (F.opens files.now) F.File.remaining O.contents output.old output.new
        words.now) }
    ensures failed { IfErr result (FailsToExecute (F.opens files.now) F.gives F.File.remaining O.contents
        output.old output.new words.now) }
{
    let execution = execution_of(words)?;
    let bytes = document_bytes(files, alloc, words.file)?;
    let outcome = execve_document(alloc, &execution, &bytes)?;
    match outcome {
        ExecveOutcome::Done(text) => {
            print(output, text.as_str())?;
            Ok(0)
        }
        ExecveOutcome::Denied => {
            print(output, "EPERM\n")?;
            Ok(1)
        }
    }
}

// The status where these findings were printed.
fn findings_status(text: &String) -> u8
    ensures { result ≡ findings_status (string_bytes text.now) }
{
    if text.is_empty() { 0 } else { 1 }
}

/// `compare`: prints what the document in the file `new` permits more than that in `base`, a line for
/// each finding, and gives the status: 1 where there is one.
///
/// # Errors
///
/// `Compared` where one of the two gave nothing, `Write` where the text was cut.
pub fn run_compare<F: PassFiles, O: Write>(
    files: &F,
    alloc: Global,
    base: &str,
    new: &str,
    output: &mut Counted<O>,
) -> Result<u8, CommandFault>
    ensures done { IfOk result (HasCompared (F.opens files.now) F.File.remaining O.contents
        output.old output.new base.now new.now) }
    ensures failed { IfErr result (FailsToCompare (F.opens files.now) F.gives F.File.remaining O.contents
        output.old output.new base.now new.now) }
{
    let text = compare_files(files, alloc, base, new)?;
    print(output, text.as_str())?;
    Ok(findings_status(&text))
}
