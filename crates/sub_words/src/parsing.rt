//! Parses the arguments of the command line as a request.
ghost use Rattle.std.specs.Prelude.{◌≡◌, ◌≢◌, [], IfErr, IfOk, OnOk, true};
ghost use Rattle.clap.specs.Words.{has_subcommand, subcommand_rows_of};
ghost use Rattle.sub_words.specs.Commands.{command_in, clap_refusals, texts_of};
ghost use Rattle.sub_words.specs.Requests.{IsRequestOf, IsRequestOfCommand, IsFaultOf};
ghost use Rattle.sub_words.specs.Requests.{IsFaultOfCommand};

use crate::command::subttx_command;
use crate::help::requests_help;
use crate::reading::read_command;
use crate::version::requests_version;
use clap::ArgMatches;
use clap::error::ErrorKind;
use std::alloc::Global;
use sub_request::{Request, UsageFault};

/// Parses the arguments of the command line as a request.
///
/// The type `Request` is in another crate, so its parser is a trait function.
pub trait ParseArguments<'a>: Sized {
    /// Parses the arguments of the command line, of which the first is the program's name.
    ///
    /// If the arguments request help or the version, nothing else is read. Otherwise the request is
    /// made from the matches that `clap` returns, defaults included, by the rules of the command.
    ///
    /// # Errors
    ///
    /// Returns `Words` if `clap` refuses the arguments. Otherwise returns the first fault of the
    /// command's arguments, in this order: `BadHex`, `SameFile`, `BadPage`, `Every`, `Origin`,
    /// `BadOption`, `Within`, `Pid`, `PacketSize`, `Range`, `BadLayout`, `Pace`, `BadTime`,
    /// `BadSkip`, `BadFlip`, `BadLose`, `BadReceiver`. Returns `Memory` if there are arguments and
    /// memory runs out before the request or the fault is known.
    fn parse(alloc: Global, arguments: &'a [&'a str]) -> Result<Self, UsageFault>;
}

impl<'a> ParseArguments<'a> for Request<'a> {
    fn parse(alloc: Global, arguments: &'a [&'a str]) -> Result<Request<'a>, UsageFault>
        ensures request { IfOk result (IsRequestOf (texts_of arguments.now)) }
        ensures fault { IfErr result (IsFaultOf (texts_of arguments.now)) }
    {
        if requests_version(arguments) {
            return Ok(Request::Version);
        }
        if requests_help(arguments) {
            return Ok(Request::Help);
        }
        parse_command(alloc, arguments)
    }
}

// Returns the request of the command that the arguments name, or the fault of the arguments.
fn parse_command<'a>(alloc: Global, arguments: &'a [&'a str]) -> Result<Request<'a>, UsageFault>
    ensures request { IfOk result (IsRequestOfCommand (texts_of arguments.now)) }
    ensures fault { IfErr result (IsFaultOfCommand (texts_of arguments.now)) }
{
    if arguments.is_empty() {
        return Err(UsageFault::Words);
    }
    let matches = parse_matches(alloc, arguments)?;
    match matches.subcommand() {
        Some((name, sub_matches)) => read_command(alloc, name, sub_matches),
        None => Err(UsageFault::Words),
    }
}

// Returns the matches of `clap` for the arguments.
fn parse_matches<'a>(alloc: Global, arguments: &'a [&'a str]) -> Result<ArgMatches<'a>, UsageFault>
    requires { arguments.now ≢ [] }
    ensures command { IfOk result
        (λ m. subcommand_rows_of m ≡ command_in (texts_of arguments.now)) }
    ensures there { IfOk result (λ m. has_subcommand m ≡ true) }
    ensures taken { OnOk result (clap_refusals (texts_of arguments.now) ≡ []) }
    ensures fault { IfErr result (IsFaultOfCommand (texts_of arguments.now)) }
{
    let Ok(command) = subttx_command(alloc) else {
        return Err(UsageFault::Memory);
    };
    match command.try_get_matches_from(arguments) {
        Ok(matches) => Ok(matches),
        Err(error) => match error.kind() {
            ErrorKind::OutOfMemory => Err(UsageFault::Memory),
            _ => Err(UsageFault::Words),
        },
    }
}
