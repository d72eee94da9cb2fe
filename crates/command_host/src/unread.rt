//! Which file a command couldn't read.

ghost use Rattle.std.specs.Prelude.{◌≡◌, option_copied};
ghost use Rattle.command_host.specs.Unread.{unread_at, unread_file, unread_of};

use crate::fault::CommandFault;
use crate::journal_text::tells_of_read;
use profile_commands::{ComparedFault, FileFault};
use streams::Unread;

// The path of a file, where its bytes weren't read, and not for want of memory.
fn unread_file<'p>(path: &'p str, fault: &FileFault) -> Option<&'p str>
    ensures { option_copied result ≡ unread_file path.now fault.now }
{
    match fault {
        FileFault::Unread(Unread::Failed) => Some(path),
        FileFault::Unread(Unread::TooManyReads) => Some(path),
        _ => None,
    }
}

/// The path of the one file that a command reads, where this fault tells that it couldn't be opened
/// or read.
pub fn unread_at<'p>(path: &'p str, fault: &CommandFault) -> Option<&'p str>
    ensures { option_copied result ≡ unread_at path.now fault.now }
{
    match fault {
        CommandFault::Open => Some(path),
        CommandFault::Endless(_) => Some(path),
        CommandFault::File(why) => unread_file(path, why),
        why => { if tells_of_read(why) { Some(path) } else { None } }
    }
}

/// Of the paths of two documents that are compared, that of the one which this fault tells couldn't
/// be opened or read.
pub fn unread_of<'p>(base: &'p str, new: &'p str, fault: &CommandFault) -> Option<&'p str>
    ensures { option_copied result ≡ unread_of base.now new.now fault.now }
{
    match fault {
        CommandFault::Compared(ComparedFault::Base(why)) => unread_file(base, why),
        CommandFault::Compared(ComparedFault::New(why)) => unread_file(new, why),
        _ => None,
    }
}
