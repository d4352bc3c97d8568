//! Tests whether the command-line arguments request help.
ghost use Rattle.std.specs.Prelude.{◌≡◌};
ghost use Rattle.sub_words.specs.Commands.{texts_of};
ghost use Rattle.sub_words.specs.Help as specs;

use crate::command::is_command;

/// Returns whether arguments request help: the program's name is followed by `help`, `--help` or
/// `-h`, alone or before the name of a command, or by the name of a command and `--help` or `-h`.
///
/// No other arguments request help. So for all other arguments that do not request the version,
/// status 0 is the result of a command.
#[tactic(auto, unfolding(crate::specs::Help::requests_help))]
pub fn requests_help(arguments: &[&str]) -> bool
    ensures { result ≡ specs.requests_help (texts_of arguments.now) }
{
    let Some(first) = arguments.get(1) else {
        return false;
    };
    match arguments.get(2) {
        Some(second) => arguments.len() == 3 && is_help_of(first, second),
        None => is_help_word(first),
    }
}

// Returns whether one of the two words requests help, and the other word is the name of a command.
// The word `help` must come first.
fn is_help_of(first: &str, second: &str) -> bool
    ensures { result ≡ specs.is_help_of first.now second.now }
{
    if is_command(first) {
        is_help_flag(second)
    } else {
        is_help_word(first) && is_command(second)
    }
}

/// Returns whether a word requests help.
pub fn is_help_word(word: &str) -> bool
    ensures { result ≡ specs.is_help_word word.now }
{
    word == "help" || is_help_flag(word)
}

fn is_help_flag(word: &str) -> bool
    ensures { result ≡ specs.is_help_flag word.now }
{
    word == "--help" || word == "-h"
}
