//! What commands are made of.

ghost use Rattle.std.specs.Prelude.{◌≡◌, IfOk, map};
ghost use Rattle.command_line.specs.Parts.{AddsCommand, app_of_parts, part_for, part_of};

use clap::builder::ValueParser;
use clap::{Arg, ArgAction, Command};
use std::alloc::{AllocError, Global};

/// How an argument is given, and what help calls its value.
#[derive(Clone, Copy)]
pub(crate) enum Form<'a> {
    /// A value that has to be there, by its place.
    Needed(&'a str),
    /// A number from `low` to `high` that has to be there, by its place.
    NeededNumber {
        shown: &'a str,
        low: u64,
        high: u64,
    },
    /// Values by their places, as many as there are.
    Several(&'a str),
    /// `--id`, at most once.
    Flag,
    /// `--id VALUE`, at most once.
    Valued(&'a str),
    /// `--id NUMBER`, at most once, of a number from `low` to `high`.
    Number {
        shown: &'a str,
        low: u64,
        high: u64,
    },
    /// The same: where it isn't given it is `default`.
    NumberOr {
        shown: &'a str,
        low: u64,
        high: u64,
        default: &'a str,
    },
}

/// An argument of a command.
#[derive(Clone, Copy)]
pub(crate) struct Parameter<'a> {
    /// What it is read back by, and the name of an option.
    pub id: &'a str,
    /// How it is given.
    pub form: Form<'a>,
    /// What help says of it.
    pub help: &'a str,
}

// The argument, as `clap` takes it.
fn arg_of<'a>(alloc: Global, parameter: Parameter<'a>) -> Arg<'a>
    ensures { part_of result ≡ part_for parameter.entry }
{
    let id = parameter.id;
    let arg = Arg::new(alloc, id).help(parameter.help);
    match parameter.form {
        Form::Needed(shown) => arg.required(true).value_name(shown),
        Form::NeededNumber { shown, low, high } => arg
            .required(true)
            .value_name(shown)
            .value_parser(ValueParser::unsigned(low, high)),
        Form::Several(shown) => arg.action(ArgAction::Append).value_name(shown),
        Form::Flag => arg.long(id).action(ArgAction::SetTrue),
        Form::Valued(shown) => arg.long(id).value_name(shown),
        Form::Number { shown, low, high } => arg
            .long(id)
            .value_name(shown)
            .value_parser(ValueParser::unsigned(low, high)),
        Form::NumberOr {
            shown,
            low,
            high,
            default,
        } => arg
            .long(id)
            .value_name(shown)
            .value_parser(ValueParser::unsigned(low, high))
            .default_value(default),
    }
}

// The arguments, as `clap` takes them.
fn clap_args<'a>(alloc: Global, parameters: &[Parameter<'a>]) -> Result<Vec<Arg<'a>>, AllocError>
    ensures { IfOk result (λ args. map part_of args.items ≡ map part_for parameters.now) }
{
    let mut args = Vec::new(alloc);
    for parameter in parameters {
        args.push(arg_of(alloc, *parameter))?;
    }
    Ok(args)
}

/// Adds a command with these arguments, and with what its help says first and last.
pub(crate) fn add_command<'a>(
    alloc: Global,
    commands: &mut Vec<Command<'a>>,
    name: &'a str,
    about: &'a str,
    examples: &'a str,
    parameters: &[Parameter<'a>],
) -> Result<(), AllocError>
    ensures { IfOk result (λ _. AddsCommand (app_of_parts name.now parameters.now)
        commands.old.items commands.new.items) }
{
    let args = clap_args(alloc, parameters)?;
    let command = Command::new(alloc, name).about(about).after_help(examples);
    commands.push(command.args(args)?)?;
    Ok(())
}
