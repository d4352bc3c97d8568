//! The command line as rules for `clap`: one level of subcommands, one of which is required.
//!
//! The table of commands is repeated in specs/Commands. The rules do not define help and version,
//! so for `clap` the options `--help` and `--version` do not exist.
ghost use Rattle.std.specs.Prelude.{◌≡◌, IfOk, false, map};
ghost use Rattle.std.specs.List.{fold};
ghost use Rattle.clap.specs.Words.{app_of, new_app, rule_of, with_rule};
ghost use Rattle.clap.specs.declared.builder.command.Command.TheViews.{out-Command};
ghost use Rattle.sub_words.specs.Commands.{clap_rule, subttx_app};

use clap::{Arg, ArgAction, Command};
use std::alloc::{AllocError, Global};

/// An argument of a command, by its name.
#[derive(Clone, Copy)]
pub enum Argument {
    /// A required argument that is no option, such as the file of `show`, with its identifier.
    Required(&'static str),
    /// A required option, `--name TEXT`.
    RequiredOption(&'static str),
    /// An option with a default, `--name TEXT`.
    Option(&'static str, &'static str),
    /// An option with a default that may be given more than once, `--name TEXT`.
    RepeatableOption(&'static str, &'static str),
    /// An optional option without a default, `--name TEXT`.
    BareOption(&'static str),
    /// A flag, `--name`.
    Flag(&'static str),
}

// The table of commands, each with its arguments.
const COMMANDS: [(&str, &[Argument]); 9] = [
    ("packet", &[Argument::Required("hex")]),
    (
        "packets",
        &[
            Argument::Required("recording"),
            Argument::BareOption("pid"),
            Argument::Option("packet-size", "188"),
            Argument::BareOption("pes"),
        ],
    ),
    ("show", &[Argument::Required("stl")]),
    (
        "normal",
        &[Argument::Required("in"), Argument::Required("out")],
    ),
    (
        "schedule",
        &[
            Argument::Required("stl"),
            Argument::Required("pes"),
            Argument::Option("page", "888"),
            Argument::Option("origin", "0"),
            Argument::Option("every", "250"),
            Argument::Option("option", "english"),
            Argument::BareOption("layout"),
            Argument::BareOption("from"),
            Argument::BareOption("to"),
            Argument::Flag("open"),
            Argument::Flag("serial"),
        ],
    ),
    (
        "check",
        &[
            Argument::Required("stl"),
            Argument::Required("recording"),
            Argument::Option("page", "888"),
            Argument::Option("origin", "0"),
            Argument::Option("every", "250"),
            Argument::Option("option", "english"),
            Argument::BareOption("layout"),
            Argument::BareOption("from"),
            Argument::BareOption("to"),
            Argument::Flag("open"),
            Argument::Option("within", "0"),
            Argument::BareOption("pid"),
            Argument::Option("packet-size", "188"),
            Argument::BareOption("pes"),
            Argument::BareOption("pace"),
            Argument::Flag("keeping"),
            Argument::Flag("complete"),
            Argument::Flag("all"),
        ],
    ),
    (
        "listen",
        &[
            Argument::Required("recording"),
            Argument::Option("page", "888"),
            Argument::Option("origin", "0"),
            Argument::Option("within", "0"),
            Argument::BareOption("pid"),
            Argument::Option("packet-size", "188"),
            Argument::BareOption("pes"),
            Argument::RequiredOption("at"),
            Argument::Option("skip", "0"),
            Argument::BareOption("flip"),
            Argument::BareOption("lose"),
            Argument::Option("receiver", "blank"),
            Argument::Flag("complete"),
        ],
    ),
    (
        "extract",
        &[
            Argument::Required("recording"),
            Argument::Required("pes"),
            Argument::RequiredOption("pid"),
            Argument::Option("packet-size", "188"),
        ],
    ),
    (
        "survey",
        &[
            Argument::Required("recording"),
            Argument::RepeatableOption("page", "888"),
            Argument::BareOption("pid"),
            Argument::BareOption("packet-size"),
        ],
    ),
];

/// Returns whether a word is the name of a command.
#[tactic(auto, unfolding(crate::specs::Commands::is_command))]
pub fn is_command(word: &str) -> bool
    ensures { result ≡ Rattle.sub_words.specs.Commands.is_command word.now }
{
    for command in &COMMANDS {
        if word == command.0 {
            return true;
        }
    }
    false
}

/// Returns the arguments of a command, or none if there is no such command.
pub fn arguments_of(word: &str) -> &'static [Argument] {
    for command in &COMMANDS {
        if word == command.0 {
            return command.1;
        }
    }
    &[]
}

/// Returns the program with all its commands, as rules for `clap`.
///
/// # Errors
///
/// Fails only if memory runs out.
pub fn subttx_command<'a>(alloc: Global) -> Result<Command<'a>, AllocError>
    ensures { IfOk result (λ c. app_of c ≡ subttx_app) }
{
    let mut program = Command::new(alloc, "subttx")
        .disable_help_flag(true)
        .disable_help_subcommand(true)
        .disable_version_flag(true)
        .subcommand_required(true);
    for command in &COMMANDS {
        program = program.subcommand(command_with(alloc, command.0, command.1)?)?;
    }
    Ok(program)
}

// Returns a command with these arguments, as rules for `clap`.
fn command_with<'a>(
    alloc: Global,
    name: &'a str,
    arguments: &[Argument],
) -> Result<Command<'a>, AllocError>
    ensures app { IfOk result (λ c.
        app_of c ≡ fold with_rule (new_app name.entry.now) (map clap_rule arguments.now)) }
    ensures has_no_globals { IfOk result (λ c. (out-Command c).has_globals ≡ false) }
{
    let mut command = Command::new(alloc, name);
    for argument in arguments {
        command = command.arg(clap_argument(alloc, *argument))?;
    }
    Ok(command)
}

// Converts an argument of the table to a rule for `clap`.
fn clap_argument<'a>(alloc: Global, argument: Argument) -> Arg<'a>
    ensures rule { rule_of result ≡ clap_rule argument }
    ensures has_no_globals { result.global ≡ false }
{
    match argument {
        Argument::Required(id) => Arg::new(alloc, id).required(true),
        Argument::RequiredOption(id) => Arg::new(alloc, id).long(id).required(true),
        Argument::Option(id, value) => Arg::new(alloc, id).long(id).default_value(value),
        Argument::RepeatableOption(id, value) => Arg::new(alloc, id)
            .long(id)
            .default_value(value)
            .action(ArgAction::Append),
        Argument::BareOption(id) => Arg::new(alloc, id).long(id),
        Argument::Flag(id) => Arg::new(alloc, id).long(id).action(ArgAction::SetTrue),
    }
}
