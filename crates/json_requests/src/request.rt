//! The request of a line.

ghost use Rattle.std.specs.Prelude.{◌≤◌, length};
ghost use Rattle.json_tree.specs.View.{view};
ghost use Rattle.json_requests.specs.Faults.{Gives, Reads};
ghost use Rattle.json_requests.specs.Plain.{plain};
ghost use Rattle.json_requests.specs.Requests.{asked, max_line, request_at, request_in};

use crate::ask::ask_of;
use crate::fault::LineFault;
use crate::member::token_of;
use json_tree::{ReadFault, Scratch, Tree};
use review_policy::Request;
use std::alloc::Global;

// The request that a value is.
#[tactic(auto, unfolding(crate::specs::Requests::request_at))]
fn request_of(alloc: Global, value: &Tree<'_>) -> Result<Request, LineFault>
    ensures { Gives plain result (request_at (view value.now)) }
{
    let token = token_of(alloc, value)?;
    let ask = ask_of(alloc, value)?;
    Ok(Request { token, ask })
}

/// The request of a line, which is passed without its line feed. The length of the line isn't
/// looked at: a longer one than a line may be is answered as
/// [`BadLine::TooLong`](crate::BadLine) before it gets here. A scratch is kept from line to line.
pub fn read_line(alloc: Global, line: &[u8], scratch: &mut Scratch) -> Result<Request, LineFault>
    ensures request { Reads result (request_in line.now) }
    ensures asked { length line.now ≤ max_line → Reads result (asked line.now) }
{
    match Tree::from_slice(alloc, line, scratch) {
        Ok(value) => request_of(alloc, &value),
        Err(ReadFault::NotJson) => Err(LineFault::NotJson),
        Err(ReadFault::NoMemory(witness)) => Err(LineFault::NoMemory(witness)),
    }
}
