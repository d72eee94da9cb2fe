//! The lines of a filter.

ghost use Rattle.std.specs.Prelude.{◌++◌, OnOk, codes, decimal, map};
ghost use Rattle.review_sheet.specs.Filters.{action_text, arg_line, entries_lines, entry_lines};
ghost use Rattle.review_sheet.specs.Filters.{filter_lines, seccomp_lines, second_value};
ghost use Rattle.review_sheet.specs.Layout.{Adds, AddsLines, ended, then_number};

use crate::layout::{push_count, push_list};
use seccomp_doc::{Action, Compare, Entry, Filter};
use std::alloc::AllocError;

/// Adds the filter, where there is one.
#[tactic(auto, unfolding(crate::specs::Filters::seccomp_lines))]
pub(crate) fn push_seccomp(text: &mut String, filter: &Option<Filter>) -> Result<(), AllocError>
    ensures { OnOk result (AddsLines text.old text.new (seccomp_lines filter.now)) }
{
    match filter {
        Some(filter) => push_filter(text, filter),
        None => text.push_str("seccomp: none\n"),
    }
}

// Adds a filter.
fn push_filter(text: &mut String, filter: &Filter) -> Result<(), AllocError>
    ensures { OnOk result (AddsLines text.old text.new (filter_lines filter.now)) }
{
    let entries = filter.entries();
    push_default(text, filter.default_action())?;
    push_list(text, "architectures: ", filter.architectures())?;
    push_list(text, "flags: ", filter.flags())?;
    push_count(text, "entries: ", entries.len())?;
    push_entries(text, entries)?;
    Ok(())
}

// Adds an action's name, and the number that it carries.
fn push_action(text: &mut String, action: Action) -> Result<(), AllocError>
    ensures { OnOk result (Adds text.old text.new (action_text action)) }
{
    text.push_str(action.word())?;
    match action.errno() {
        Some(errno) => write!(text, " {errno}"),
        None => Ok(()),
    }
}

// Adds the line of the default action.
fn push_default(text: &mut String, action: Action) -> Result<(), AllocError>
    ensures { OnOk result
        (Adds text.old text.new (ended (codes "seccomp: " ++ action_text action))) }
{
    text.push_str("seccomp: ")?;
    push_action(text, action)?;
    text.push('\n')
}

// Adds the entries, numbered from 1.
fn push_entries(text: &mut String, entries: &[Entry]) -> Result<(), AllocError>
    ensures { OnOk result (AddsLines text.old text.new (entries_lines 1 entries.now)) }
{
    for i in 0..entries.len() {
        push_entry(text, i + 1, &entries[i])?;
    }
    Ok(())
}

// Adds an entry.
fn push_entry(text: &mut String, number: usize, entry: &Entry) -> Result<(), AllocError>
    ensures { OnOk result (AddsLines text.old text.new (entry_lines number entry.now)) }
{
    let called = entry.names();
    let compared = entry.args();
    push_numbered(text, number, entry.action())?;
    push_list(text, "  names: ", called)?;
    push_args(text, compared)?;
    Ok(())
}

// Adds the line of an entry's number and action.
fn push_numbered(text: &mut String, number: usize, action: Action) -> Result<(), AllocError>
    ensures { OnOk result (Adds text.old text.new
        (ended (codes "entry " ++ decimal number ++ codes ": " ++ action_text action))) }
{
    write!(text, "entry {number}: ")?;
    push_action(text, action)?;
    text.push('\n')
}

// Adds the comparisons.
fn push_args(text: &mut String, args: &[Compare]) -> Result<(), AllocError>
    ensures { OnOk result (AddsLines text.old text.new (map arg_line args.now)) }
{
    for arg in args {
        push_arg(text, arg)?;
    }
    Ok(())
}

// Adds the second value of a comparison, where its operator has one.
fn push_second(text: &mut String, arg: &Compare) -> Result<(), AllocError>
    ensures { OnOk result (Adds text.old text.new (then_number (second_value arg.now))) }
{
    if arg.op.is_masked() {
        let value = arg.value_two;
        write!(text, " {value}")
    } else {
        Ok(())
    }
}

// Adds a comparison.
fn push_arg(text: &mut String, arg: &Compare) -> Result<(), AllocError>
    ensures { OnOk result (Adds text.old text.new (ended (arg_line arg.now))) }
{
    let index = arg.index;
    let op = arg.op.word();
    let value = arg.value;
    write!(text, "  arg {index}: {op} {value}")?;
    push_second(text, arg)?;
    text.push('\n')
}
