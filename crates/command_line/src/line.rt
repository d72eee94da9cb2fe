//! The number of a journal's line, as an option gives it.

ghost use Rattle.std.specs.Prelude.{◌≡◌, ℕ, IfSome, IfNone};
ghost use Rattle.command_line.specs.Meaning.{IsNumberIn, value_of};
ghost use Rattle.command_line.specs.Refusals.{NoNumberIn};

use clap::ArgMatches;

/// The number of this name, from 1. `clap` takes it from 1 only, and here the value itself is known
/// to be.
pub(crate) fn line_number(given: &ArgMatches<'_>, id: &str) -> Option<u64>
    ensures number { IfSome result (λ n.
        IsNumberIn 1 18446744073709551615 n (value_of id.now given.now)) }
    ensures lacking { IfNone result
        (NoNumberIn 1 18446744073709551615 (value_of id.now given.now)) }
{
    let line = given.get_one::<u64>(id)?;
    if 1 <= line { Some(line) } else { None }
}
