//! Lines of a sheet, and lists within a line.

ghost use Rattle.std.specs.Prelude.{◌∷◌, ◌++◌, [], OnOk, decimal};
ghost use Rattle.cap_sets.specs.Capability.{names_of};
ghost use Rattle.review_sheet.specs.Layout.{Adds, ended, items_text, spaced};
ghost use Rattle.review_sheet.specs.Sets.{set_line};

use cap_sets::{Caps, Names};
use seccomp_doc::{Form, Formed};
use std::alloc::AllocError;

/// Adds a line: a label and a text.
pub(crate) fn push_line(text: &mut String, label: &str, rest: &str) -> Result<(), AllocError>
    ensures { OnOk result (Adds text.old text.new (ended (label.now ++ rest.now))) }
{
    writeln!(text, "{label}{rest}")
}

/// Adds a line: a label and a number.
pub(crate) fn push_count(text: &mut String, label: &str, count: usize) -> Result<(), AllocError>
    ensures { OnOk result (Adds text.old text.new (ended (label.now ++ decimal count))) }
{
    writeln!(text, "{label}{count}")
}

// Adds an item after a space.
fn push_spaced(text: &mut String, item: &str) -> Result<(), AllocError>
    ensures { OnOk result (Adds text.old text.new (spaced (item.now ∷ []))) }
{
    text.push(' ')?;
    text.push_str(item)
}

// Adds the items of a list, joined by single spaces, or `none`.
fn push_items<F: Form>(text: &mut String, items: &[Formed<F>]) -> Result<(), AllocError>
    ensures { OnOk result (Adds text.old text.new (items_text items.now)) }
{
    let Some((first, rest)) = items.split_first() else {
        return text.push_str("none");
    };
    text.push_str(first.as_str())?;
    push_others(text, rest)
}

// Adds items, each with a space before it.
fn push_others<F: Form>(text: &mut String, items: &[Formed<F>]) -> Result<(), AllocError>
    ensures { OnOk result (Adds text.old text.new (spaced items.now)) }
{
    for item in items {
        push_spaced(text, item.as_str())?;
    }
    Ok(())
}

/// Adds a line: a label, and the items of a list.
pub(crate) fn push_list<F: Form>(
    text: &mut String,
    label: &str,
    items: &[Formed<F>],
) -> Result<(), AllocError>
    ensures { OnOk result (Adds text.old text.new (ended (label.now ++ items_text items.now))) }
{
    text.push_str(label)?;
    push_items(text, items)?;
    text.push('\n')
}

// Adds the names of a set's members joined by single spaces, or `none`.
fn push_names(text: &mut String, caps: Caps) -> Result<(), AllocError>
    ensures { OnOk result (Adds text.old text.new (items_text (names_of caps))) }
{
    let mut names = caps.names();
    let Some(first) = names.next() else {
        return text.push_str("none");
    };
    text.push_str(first)?;
    push_other_names(text, names)?;
    Ok(())
}

// Adds names, each after a space.
fn push_other_names(text: &mut String, names: Names) -> Result<(), AllocError>
    ensures { OnOk result (Adds text.old text.new (spaced names)) }
{
    for name in names {
        push_spaced(text, name)?;
    }
    Ok(())
}

/// Ends a line with the names of a set's members.
pub(crate) fn push_names_line(text: &mut String, caps: Caps) -> Result<(), AllocError>
    ensures { OnOk result (Adds text.old text.new (ended (items_text (names_of caps)))) }
{
    push_names(text, caps)?;
    text.push('\n')
}

/// Adds a line: a label, and the names of a set's members.
pub(crate) fn push_set(text: &mut String, label: &str, caps: Caps) -> Result<(), AllocError>
    ensures { OnOk result (Adds text.old text.new (ended (set_line label.now caps))) }
{
    write!(text, "{label}: ")?;
    push_names_line(text, caps)?;
    Ok(())
}
