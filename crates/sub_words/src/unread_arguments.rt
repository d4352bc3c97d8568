//! Finds what is wrong with arguments that `clap` refuses, such as the first unknown option.
//!
//! Reads the same table of commands as the rules for `clap`, but does not decide whether arguments
//! are refused. No contract covers the words.

use crate::command::{Argument, arguments_of, is_command};
use crate::help::is_help_word;
use crate::usage_explanation::Explanation;
use crate::version::is_version_word;

const NO_COMMAND: &str = "there is no such command (subttx --help lists the commands)";

const NO_OPTION: &str = "there is no such option here: ";

const NOT_ALONE: &str = "give nothing else, or only a command";

/// Returns the line about arguments that `clap` refuses.
pub fn explain_unread<'a>(arguments: &[&'a str]) -> Explanation<'a> {
    let Some(first) = arguments.get(1).copied() else {
        return about(
            "",
            None,
            "give a command (subttx --help lists the commands)",
            "",
        );
    };
    if is_command(first) {
        return explain_command(first, arguments);
    }
    if is_version_word(first) {
        return about("", Some(first), "give nothing else", "");
    }
    if is_help_word(first) {
        return explain_help(first, arguments.get(2).copied());
    }
    if first.starts_with('-') {
        return about(
            "",
            Some(first),
            "give a command first (subttx --help lists them)",
            "",
        );
    }
    about("", Some(first), NO_COMMAND, "")
}

// Returns the line about a word for help, and what follows it.
fn explain_help<'a>(first: &'a str, second: Option<&'a str>) -> Explanation<'a> {
    match wrong_command(second) {
        Some(word) => about(first, Some(word), NO_COMMAND, ""),
        None => about("", Some(first), NOT_ALONE, ""),
    }
}

// Returns the argument, if it is given and is not the name of a command.
fn wrong_command<'a>(argument: Option<&'a str>) -> Option<&'a str> {
    let word = argument?;
    if is_command(word) { None } else { Some(word) }
}

fn about<'a>(
    argument: &'a str,
    value: Option<&'a str>,
    advice: &'a str,
    usage: &'a str,
) -> Explanation<'a> {
    Explanation {
        argument,
        value,
        advice,
        usage,
    }
}

// The arguments of a command that were read so far.
#[derive(Drop)]
struct Scan<'a> {
    // Whether the value of an option is the next argument.
    value_follows: bool,
    // Whether `--` was read: no later argument is an option.
    is_escaped: bool,
    // The number of positional arguments, such as file names.
    positions: usize,
    // Whether each option in the table of arguments was given.
    given: [bool; 32],
    // The line about the first wrong argument.
    found: Option<Explanation<'a>>,
}

impl Scan<'_> {
    fn is_given(&self, place: usize) -> bool {
        self.given.get(place) == Some(&true)
    }

    fn set_given(&mut self, place: usize) {
        if let Some(given) = self.given.get_mut(place) {
            *given = true;
        }
    }
}

// Returns the line about a command with arguments that `clap` refuses.
fn explain_command<'a>(command: &'a str, arguments: &[&'a str]) -> Explanation<'a> {
    let table = arguments_of(command);
    let mut scan = Scan {
        value_follows: false,
        is_escaped: false,
        positions: 0,
        given: [false; 32],
        found: None,
    };
    for place in 2..arguments.len() {
        let next = arguments.get(place.saturating_add(1)).copied();
        read_argument(&mut scan, command, table, arguments[place], next);
        if let Some(explanation) = scan.found {
            return explanation;
        }
    }
    explain_missing(&scan, command, table)
}

// Reads an argument of a command. `next` is the argument after it.
fn read_argument<'a>(
    scan: &mut Scan<'a>,
    command: &str,
    table: &'static [Argument],
    argument: &'a str,
    next: Option<&'a str>,
) {
    if scan.value_follows {
        scan.value_follows = false;
    } else if scan.is_escaped || argument == "-" || !argument.starts_with('-') {
        scan.positions = scan.positions.saturating_add(1);
        if scan.positions > required_count(table) {
            scan.found = Some(about("", Some(argument), "leave it out: ", usage_of(command)));
        }
    } else if argument == "--" {
        scan.is_escaped = true;
    } else {
        read_option(scan, command, table, argument, next);
    }
}

// Reads an argument that begins with a dash.
fn read_option<'a>(
    scan: &mut Scan<'a>,
    command: &str,
    table: &'static [Argument],
    argument: &'a str,
    next: Option<&'a str>,
) {
    let (name, value) = match argument.split_once('=') {
        Some((name, value)) => (name, Some(value)),
        None => (argument, None),
    };
    let Some((place, takes_value, is_repeatable)) = option_named(table, name) else {
        scan.found = Some(if is_help_word(name) || is_version_word(name) {
            about(
                "",
                Some(name),
                "give it alone, or with the command alone",
                "",
            )
        } else {
            about("", Some(name), NO_OPTION, usage_of(command))
        });
        return;
    };
    scan.found = if scan.is_given(place) && !is_repeatable {
        Some(about("", Some(name), "give it only once", ""))
    } else if takes_value {
        match value {
            None if !is_value(next) => Some(about("", Some(name), "give its value after it", "")),
            _ => None,
        }
    } else {
        match value {
            Some(_) => Some(about("", Some(argument), "give it without a value", "")),
            None => None,
        }
    };
    scan.set_given(place);
    scan.value_follows = takes_value && value.is_none();
}

// Returns the place of an option in the table of a command, whether the option takes a value, and
// whether it may be given more than once; `None` if the command has no such option.
fn option_named(table: &[Argument], name: &str) -> Option<(usize, bool, bool)> {
    let name = name.strip_prefix("--")?;
    for place in 0..table.len() {
        let (id, takes_value, is_repeatable) = match table[place] {
            Argument::Required(_) => continue,
            Argument::Flag(id) => (id, false, false),
            Argument::RequiredOption(id) | Argument::BareOption(id) => (id, true, false),
            Argument::Option(id, _) => (id, true, false),
            Argument::RepeatableOption(id, _) => (id, true, true),
        };
        if id == name {
            return Some((place, takes_value, is_repeatable));
        }
    }
    None
}

// Returns the number of required arguments that are no options.
fn required_count(table: &[Argument]) -> usize {
    let mut count: usize = 0;
    for argument in table {
        if let Argument::Required(_) = argument {
            count = count.saturating_add(1);
        }
    }
    count
}

// Returns the line about a command in which no argument is wrong: one is missing, or `clap`
// rejected arguments that fit the command's table.
fn explain_missing<'a>(
    scan: &Scan<'a>,
    command: &'a str,
    table: &'static [Argument],
) -> Explanation<'a> {
    let mut is_missing = scan.positions < required_count(table);
    for place in 0..table.len() {
        if let Argument::RequiredOption(_) = table[place] {
            is_missing = is_missing || !scan.is_given(place);
        }
    }
    let advice = if is_missing {
        "an argument is missing: "
    } else {
        "these are not its arguments: "
    };
    about(command, None, advice, usage_of(command))
}

// Returns how a command is called.
fn usage_of(command: &str) -> &'static str {
    match command {
        "packet" => "subttx packet HEX",
        "packets" => "subttx packets PES [options]",
        "show" => "subttx show STL",
        "normal" => "subttx normal IN OUT",
        "schedule" => "subttx schedule STL PES [options]",
        "check" => "subttx check STL PES [options]",
        "listen" => "subttx listen PES --at TIME [options]",
        "extract" => "subttx extract TS PES --pid P [options]",
        _ => "subttx survey RECORDING [options]",
    }
}

// Returns whether an argument can be the value of the option before it.
fn is_value(argument: Option<&str>) -> bool {
    match argument {
        Some(text) => text == "-" || !text.starts_with('-'),
        None => false,
    }
}
