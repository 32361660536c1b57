//! The arguments of the programs, as `clap` takes them: a function for each variant of `Argument`.
ghost use Rattle.rv_options.specs.Support.Arguments.{HasRule};
ghost use Rattle.rv_options.specs.Usage.{argument_rule, file_rule};
ghost use Rattle.rv_options.specs.declared.usage.Argument.TheVariants as argument;

use clap::builder::ValueParser;
use clap::{Arg, ArgAction};
use std::alloc::Global;

/// Returns the positional argument SOURCE, which must be given unless it has a default.
pub(crate) fn source_arg<'a>(alloc: Global, help: &'a str, default: Option<&'a str>) -> Arg<'a>
    ensures { HasRule result (argument_rule (argument.Source help.entry default.entry)) }
{
    let arg = Arg::new(alloc, "source")
        .value_name("SOURCE")
        .help(help)
        .action(ArgAction::Set);
    match default {
        Some(default) => arg.default_value(default),
        None => arg.required(true),
    }
}

/// Returns the option `--name`, which takes no value.
pub(crate) fn flag_arg<'a>(alloc: Global, name: &'a str, help: &'a str) -> Arg<'a>
    ensures { HasRule result (argument_rule (argument.Flag name.entry help.entry)) }
{
    Arg::new(alloc, name)
        .long(name)
        .help(help)
        .action(ArgAction::SetTrue)
}

/// Returns the option `--name`, which takes a value that the help calls `value_name`.
fn option_arg<'a>(alloc: Global, name: &'a str, value_name: &'a str, help: &'a str) -> Arg<'a>
    ensures { HasRule result (file_rule name.entry.now) }
{
    Arg::new(alloc, name)
        .long(name)
        .value_name(value_name)
        .help(help)
        .action(ArgAction::Set)
}

/// Returns the option `--name`, or its letter if it has one, which takes a text.
pub(crate) fn text_arg<'a>(
    alloc: Global,
    name: &'a str,
    letter: Option<char>,
    value_name: &'a str,
    help: &'a str,
) -> Arg<'a>
    ensures { HasRule result (argument_rule (argument.Text name.entry letter value_name.entry help.entry)) }
{
    let arg = option_arg(alloc, name, value_name, help);
    match letter {
        Some(letter) => arg.short(letter),
        None => arg,
    }
}

/// Returns the option `--name`, which takes one of some texts.
pub(crate) fn choice_arg<'a>(
    alloc: Global,
    name: &'a str,
    value_name: &'a str,
    help: &'a str,
    choices: &'a [&'a str],
) -> Arg<'a>
    ensures { HasRule result
        (argument_rule (argument.Choice name.entry value_name.entry help.entry choices.entry)) }
{
    option_arg(alloc, name, value_name, help).value_parser(ValueParser::Names(choices))
}

/// Returns the option `--name`, which takes a number in a range and has a default.
pub(crate) fn number_arg<'a>(
    alloc: Global,
    name: &'a str,
    value_name: &'a str,
    help: &'a str,
    default: &'a str,
    least: u32,
    most: u32,
) -> Arg<'a>
    ensures { HasRule result (argument_rule
        (argument.Number name.entry value_name.entry help.entry default.entry least most)) }
{
    let range = ValueParser::Signed(i64::from(least), i64::from(most));
    option_arg(alloc, name, value_name, help)
        .default_value(default)
        .value_parser(range)
}
