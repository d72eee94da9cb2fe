//! The canonical text of a filter, written a token at a time.

ghost use Rattle.std.specs.Prelude.{◌≡◌, OnOk, Some, codes, map, true};
ghost use Rattle.serde_json.specs.Data.{string};
ghost use Rattle.seccomp_doc.specs.Action.{errno_of};
ghost use Rattle.profile_text.specs.Text.{arg_data, entry_data, errno_data, filter_data, some_list};
ghost use Rattle.profile_text.specs.Text.{texts_data, value_two_data};
ghost use Rattle.json_tree.specs.Plain.{are_plain};
ghost use Rattle.json_tree.specs.Tokens.{Appends, member_tokens, tokens_of};

use json_tree::Writer;
use seccomp_doc::{Action, Arch, CallName, Compare, Entry, Filter, ScmpFlag};
use std::alloc::AllocError;

// A member that is a text. No byte of it needs an escape, and none of the name.
#[inline(always)]
fn write_text(out: &mut Writer, name: &str, text: &str) -> Result<(), AllocError>
    requires name { are_plain name.now ≡ true }
    requires text { are_plain text.now ≡ true }
    ensures { OnOk result (Appends out.old out.new
        (member_tokens name.now (Some (string text.now)))) }
{
    out.plain_key(name)?;
    out.plain_string(text)
}

// A member that is a number.
#[inline(always)]
fn write_number(out: &mut Writer, name: &str, number: u64) -> Result<(), AllocError>
    requires { are_plain name.now ≡ true }
    ensures { OnOk result (Appends out.old out.new
        (member_tokens name.now (errno_data (Some number)))) }
{
    out.plain_key(name)?;
    out.u64(number)
}

// The number of an action, where it carries one.
fn write_errno(out: &mut Writer, name: &str, action: Action) -> Result<(), AllocError>
    requires { are_plain name.now ≡ true }
    ensures { OnOk result (Appends out.old out.new
        (member_tokens name.now (errno_data (errno_of action)))) }
{
    match action.errno() {
        Some(number) => write_number(out, name, u64::from(number)),
        None => Ok(()),
    }
}

// The second value of a comparison, where it is masked.
fn write_value_two(out: &mut Writer, arg: &Compare) -> Result<(), AllocError>
    ensures { OnOk result (Appends out.old out.new
        (member_tokens (codes "valueTwo") (value_two_data arg.now.op arg.now.value_two))) }
{
    if arg.op.is_masked() {
        write_number(out, "valueTwo", arg.value_two)
    } else {
        Ok(())
    }
}

// The names of architectures, where there are any.
fn write_architectures(out: &mut Writer, architectures: &[Arch]) -> Result<(), AllocError>
    ensures { OnOk result (Appends out.old out.new
        (member_tokens (codes "architectures") (some_list (map string architectures.now)))) }
{
    if architectures.is_empty() {
        return Ok(());
    }
    out.plain_key("architectures")?;
    out.begin_array()?;
    for architecture in architectures {
        out.plain_string(architecture.as_str())?;
    }
    out.end_array()
}

// The names of flags, where there are any.
fn write_flags(out: &mut Writer, flags: &[ScmpFlag]) -> Result<(), AllocError>
    ensures { OnOk result (Appends out.old out.new
        (member_tokens (codes "flags") (some_list (map string flags.now)))) }
{
    if flags.is_empty() {
        return Ok(());
    }
    out.plain_key("flags")?;
    out.begin_array()?;
    for flag in flags {
        out.plain_string(flag.as_str())?;
    }
    out.end_array()
}

// The names of calls.
fn write_names(out: &mut Writer, names: &[CallName]) -> Result<(), AllocError>
    ensures { OnOk result (Appends out.old out.new
        (member_tokens (codes "names") (Some (texts_data names.now)))) }
{
    out.plain_key("names")?;
    out.begin_array()?;
    for name in names {
        out.plain_string(name.as_str())?;
    }
    out.end_array()
}

// A comparison.
fn write_arg(out: &mut Writer, arg: &Compare) -> Result<(), AllocError>
    ensures { OnOk result (Appends out.old out.new (tokens_of (arg_data arg.now))) }
{
    let index = u64::from(arg.index);
    out.begin_object()?;
    write_number(out, "index", index)?;
    write_text(out, "op", arg.op.word())?;
    write_number(out, "value", arg.value)?;
    write_value_two(out, arg)?;
    out.end_object()
}

// The comparisons of an entry, where there are any.
fn write_args(out: &mut Writer, args: &[Compare]) -> Result<(), AllocError>
    ensures { OnOk result (Appends out.old out.new
        (member_tokens (codes "args") (some_list (map arg_data args.now)))) }
{
    if args.is_empty() {
        return Ok(());
    }
    out.plain_key("args")?;
    out.begin_array()?;
    for arg in args {
        write_arg(out, arg)?;
    }
    out.end_array()
}

// An entry.
fn write_entry(out: &mut Writer, entry: &Entry) -> Result<(), AllocError>
    ensures { OnOk result (Appends out.old out.new (tokens_of (entry_data entry.now))) }
{
    let action = entry.action();
    let args = entry.args();
    out.begin_object()?;
    write_text(out, "action", action.word())?;
    write_args(out, args)?;
    write_errno(out, "errnoRet", action)?;
    write_names(out, entry.names())?;
    out.end_object()
}

// The entries of a filter, where there are any.
fn write_entries(out: &mut Writer, entries: &[Entry]) -> Result<(), AllocError>
    ensures { OnOk result (Appends out.old out.new
        (member_tokens (codes "syscalls") (some_list (map entry_data entries.now)))) }
{
    if entries.is_empty() {
        return Ok(());
    }
    out.plain_key("syscalls")?;
    out.begin_array()?;
    for entry in entries {
        write_entry(out, entry)?;
    }
    out.end_array()
}

/// A filter.
pub(crate) fn write_filter(out: &mut Writer, filter: &Filter) -> Result<(), AllocError>
    ensures { OnOk result (Appends out.old out.new (tokens_of (filter_data filter.now))) }
{
    let default = filter.default_action();
    out.begin_object()?;
    write_architectures(out, filter.architectures())?;
    write_text(out, "defaultAction", default.word())?;
    write_errno(out, "defaultErrnoRet", default)?;
    write_flags(out, filter.flags())?;
    write_entries(out, filter.entries())?;
    out.end_object()
}
