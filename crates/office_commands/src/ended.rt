//! How a command line ended.

use command_host::CommandFault;
use no_memory::NoMemory;

/// How the words of a command line ended.
#[derive(Drop)]
pub struct Ended {
    /// The status that the program ends with.
    pub status: u8,
    /// Why a command was refused or failed, or a text wasn't printed, which was said.
    pub why: Option<CommandFault>,
    /// The witness, where it was said in place of something else that there is no memory.
    pub witness: Option<NoMemory>,
}

impl Ended {
    ghost use Rattle.std.specs.Prelude.{◌≡◌};
    ghost use Rattle.office_commands.specs.Commands.{ended_well};

    // With nothing to say.
    pub(crate) fn well(status: u8) -> Ended
        ensures { result ≡ ended_well status }
    {
        Ended {
            status,
            why: None,
            witness: None,
        }
    }
}
