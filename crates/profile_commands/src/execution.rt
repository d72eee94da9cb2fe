//! How a process executes its file.

ghost use Rattle.std.specs.Prelude.{◌≡◌, option_copied, option_map};
ghost use Rattle.profile_commands.specs.Executions.{execution_of, set_given, takes_file};
ghost use Rattle.profile_commands.specs.Executions.{unknown_given, unknown_of};

use crate::list::{set_listed, unknown_part};
use cap_sets::{Caps, File};
use command_line::ExecveWords;
use thiserror::Error;

/// How a process executes its file.
#[derive(Clone, Copy)]
pub enum Execution {
    /// Its real and effective user ids are those of root, and the file is plain.
    ByRoot,
    /// No user id of it is root's, and the file is this one.
    OfFile(File),
}

/// Why the words of `execve` describe no execution.
#[derive(Clone, Copy, Debug, Drop, Error)]
pub enum ExecutionFault {
    /// `--root` stands beside an option of the file: root's case is that of a plain file.
    #[error("root-takes-no-file")]
    RootTakesNoFile,
    /// A part of a LIST is no name of a capability.
    #[error("unknown-capability")]
    UnknownCapability,
}

// Whether an option gives the file capabilities.
fn takes_file(words: &ExecveWords<'_>) -> bool
    ensures { result ≡ takes_file words.now }
{
    words.file_permitted.is_some() || words.file_inheritable.is_some() || words.file_effective
}

// The set of an option of the file, empty where it isn't given.
fn set_given(list: Option<&str>) -> Option<Caps>
    ensures { result ≡ set_given (option_map (λ s. s.now) list.entry) }
{
    match list {
        Some(list) => set_listed(list),
        None => Some(Caps::empty()),
    }
}

/// The execution that the words of `execve` describe. With no option of the file it is plain.
///
/// # Errors
///
/// `RootTakesNoFile`, and then `UnknownCapability`.
pub fn execution_of(words: &ExecveWords<'_>) -> Result<Execution, ExecutionFault>
    ensures { result ≡ execution_of words.now }
{
    if !takes_file(words) {
        return Ok(if words.root {
            Execution::ByRoot
        } else {
            Execution::OfFile(File::Plain)
        });
    }
    if words.root {
        return Err(ExecutionFault::RootTakesNoFile);
    }
    match (
        set_given(words.file_permitted),
        set_given(words.file_inheritable),
    ) {
        (Some(permitted), Some(inheritable)) => Ok(Execution::OfFile(File::WithCaps {
            permitted,
            inheritable,
            effective: words.file_effective,
        })),
        _ => Err(ExecutionFault::UnknownCapability),
    }
}

// The first part of a LIST that is the name of no capability, where the LIST is given.
fn unknown_given(list: Option<&str>) -> Option<&str>
    ensures { option_copied result ≡ unknown_given (option_copied list.entry) }
{
    match list {
        Some(list) => unknown_part(list),
        None => None,
    }
}

/// Of the LISTs of `execve` the first part that is the name of no capability.
pub fn unknown_of<'w>(words: &ExecveWords<'w>) -> Option<&'w str>
    ensures { option_copied result ≡ unknown_of words.now }
{
    match unknown_given(words.file_permitted) {
        Some(part) => Some(part),
        None => unknown_given(words.file_inheritable),
    }
}
