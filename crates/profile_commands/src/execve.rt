//! The command `execve`.

ghost use Rattle.std.specs.Prelude.{IfOk};
ghost use Rattle.profile_commands.specs.Executions.{IsDone, IsExecuted, IsOutcome};

use crate::document::read_document;
use crate::execution::Execution;
use crate::fault::FileFault;
use cap_sets::{CapState, execve, execve_root};
use review_sheet::state_text;
use std::alloc::{AllocError, Global};

/// What comes of execve.
#[derive(Drop)]
pub enum ExecveOutcome {
    /// The five lines of the state after it.
    Done(String),
    /// The kernel refuses it with EPERM.
    Denied,
}

// The outcome of a state after execve.
fn done(alloc: Global, after: &CapState) -> Result<ExecveOutcome, AllocError>
    ensures { IfOk result (IsDone after.now) }
{
    let text = state_text(alloc, after)?;
    Ok(ExecveOutcome::Done(text))
}

// What comes of execve in a process of this state.
fn outcome_of(
    alloc: Global,
    execution: &Execution,
    before: &CapState,
) -> Result<ExecveOutcome, AllocError>
    ensures { IfOk result (IsOutcome execution.now before.now) }
{
    match execution {
        Execution::ByRoot => done(alloc, &execve_root(before)),
        Execution::OfFile(file) => match execve(before, *file) {
            Ok(after) => done(alloc, &after),
            Err(_) => Ok(ExecveOutcome::Denied),
        },
    }
}

/// What comes of execve in a process that has the sets of the document that the bytes of a file are.
///
/// # Errors
///
/// Those of `read_document`.
pub fn execve_document(
    alloc: Global,
    execution: &Execution,
    bytes: &[u8],
) -> Result<ExecveOutcome, FileFault>
    ensures { IsExecuted execution.now bytes.now result }
{
    let document = read_document(alloc, bytes)?;
    let outcome = outcome_of(alloc, execution, &document.profile.caps)?;
    Ok(outcome)
}
