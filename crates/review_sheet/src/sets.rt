//! The lines of the capability sets.

ghost use Rattle.std.specs.Prelude.{◌≡◌, IfOk, OnOk, string_bytes};
ghost use Rattle.cap_sets.specs.Execve.{IsAfter};
ghost use Rattle.review_sheet.specs.Layout.{AddsLines};
ghost use Rattle.review_sheet.specs.Sets.{caps_lines, plain_lines, root_lines, state_lines};
ghost use Rattle.review_sheet.specs.Sets.{state_text};

use crate::layout::push_set;
use cap_sets::{CapState, File, execve, execve_root};
use std::alloc::{AllocError, Global};

/// The five lines of a state's sets, as a sheet has them.
///
/// # Errors
///
/// Memory was refused. No contract can say when.
pub fn state_text(alloc: Global, state: &CapState) -> Result<String, AllocError>
    ensures { IfOk result (λ text. string_bytes text ≡ state_text state.now) }
{
    let mut text = String::new(alloc);
    push_state(&mut text, state)?;
    Ok(text)
}

/// Adds the sets of a document, and then those after execve.
pub(crate) fn push_caps(text: &mut String, state: &CapState) -> Result<(), AllocError>
    ensures { OnOk result (AddsLines text.old text.new (caps_lines state.now)) }
{
    push_state(text, state)?;
    push_plain(text, &after_plain(state))?;
    push_root(text, &execve_root(state))?;
    Ok(())
}

// Adds the five sets.
fn push_state(text: &mut String, state: &CapState) -> Result<(), AllocError>
    ensures { OnOk result (AddsLines text.old text.new (state_lines state.now)) }
{
    push_set(text, "effective", state.effective)?;
    push_set(text, "permitted", state.permitted)?;
    push_set(text, "inheritable", state.inheritable)?;
    push_set(text, "bounding", state.bounding)?;
    push_set(text, "ambient", state.ambient)?;
    Ok(())
}

// The state after execve of a plain file, which is never denied.
fn after_plain(state: &CapState) -> CapState
    ensures { IsAfter state.now File.Plain result }
{
    match execve(state, File::Plain) {
        Ok(after) => after,
        Err(_) => unreachable!(),
    }
}

// Adds three of the sets after execve of a plain file.
fn push_plain(text: &mut String, after: &CapState) -> Result<(), AllocError>
    ensures { OnOk result (AddsLines text.old text.new (plain_lines after.now)) }
{
    push_set(text, "plain permitted", after.permitted)?;
    push_set(text, "plain effective", after.effective)?;
    push_set(text, "plain ambient", after.ambient)?;
    Ok(())
}

// Adds the same three after execve by root.
fn push_root(text: &mut String, after: &CapState) -> Result<(), AllocError>
    ensures { OnOk result (AddsLines text.old text.new (root_lines after.now)) }
{
    push_set(text, "root permitted", after.permitted)?;
    push_set(text, "root effective", after.effective)?;
    push_set(text, "root ambient", after.ambient)?;
    Ok(())
}
