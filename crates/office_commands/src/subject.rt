//! What a refusal is about, as the words of its command name it.

ghost use Rattle.std.specs.Prelude.{◌≡◌, option_copied};
ghost use Rattle.office_commands.specs.Subjects.{subject_of};

use command_host::{
    CommandFault, subject_of_evidence, subject_of_execve, subject_of_history, subject_of_init,
    unread_at, unread_of,
};
use command_line::Command;
use std::alloc::Global;

/// What this fault of a command is about: the file that couldn't be opened or read, the argument that
/// isn't of its form, or the word that is the name of no capability. None of any other fault.
pub(crate) fn subject_of<'c>(
    alloc: Global,
    command: &Command<'c>,
    fault: &CommandFault,
) -> Option<&'c str>
    ensures { option_copied result ≡ subject_of command.now fault.now }
{
    match command {
        Command::Check { file } => unread_at(file, fault),
        Command::Execve(words) => subject_of_execve(words, fault),
        Command::Compare { base, new } => unread_of(base, new, fault),
        Command::Init(words) => subject_of_init(alloc, words, fault),
        Command::Verify(words) => unread_at(words.journal, fault),
        Command::Rebuild { journal, .. } => unread_at(journal, fault),
        Command::History(words) => subject_of_history(alloc, words, fault),
        Command::Evidence(words) => subject_of_evidence(alloc, words, fault),
        _ => None,
    }
}
