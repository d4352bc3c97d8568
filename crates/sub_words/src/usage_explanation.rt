//! Explains on standard error why the program refuses its arguments, in one line.
//!
//! No contract covers the words of the line.

use crate::arguments::argument_at;
use crate::command::subttx_command;
use crate::lists::Item;
use crate::pages::texts_at;
use crate::parsing::ParseArguments;
use crate::shown::Shown;
use crate::times::parse_time;
use crate::unread_arguments::explain_unread;
use clap::ArgMatches;
use mpeg_ts::MAX_SURVEY_PAGES;
use std::alloc::Global;
use std::fmt;
use std::fmt::{Display, Formatter};
use sub_request::{Request, UsageFault};
use ttx_packet::PageId;

/// The line about wrong arguments: `subttx: ARGUMENT VALUE: ADVICE`, and how the command is called.
#[derive(Clone, Copy)]
pub struct Explanation<'a> {
    /// The name of an argument or a command, or a word for help. May be empty.
    pub argument: &'a str,
    /// The text that the user gave, or the option's name in it, if the line has one. It is escaped
    /// when it is printed.
    pub value: Option<&'a str>,
    /// What is wrong, or what to give instead.
    pub advice: &'a str,
    /// How the command is called. May be empty.
    pub usage: &'a str,
}

impl Display for Explanation<'_> {
    fn fmt<W: fmt::Write>(&self, f: &mut Formatter<W>) -> fmt::Result {
        f.write_str("subttx: ")?;
        if !self.argument.is_empty() {
            f.write_str(self.argument)?;
            f.write_str(if self.value.is_some() { " " } else { ": " })?;
        }
        if let Some(value) = self.value {
            Shown(value).fmt(f)?;
            f.write_str(": ")?;
        }
        f.write_str(self.advice)?;
        f.write_str(self.usage)
    }
}

/// Prints one line on standard error if `Request::parse` refuses the arguments. Prints nothing if
/// memory runs out.
pub fn explain_usage<E: Eprint>(alloc: Global, arguments: &[&str], errors: &E) {
    if let Some(explanation) = explanation_of(alloc, arguments) {
        let _ = errors.eprintln(explanation);
    }
}

/// Returns the line about the first fault of arguments that `Request::parse` refuses: what is wrong
/// or missing, or what is allowed. Returns `None` if nothing is refused, or memory runs out.
pub fn explanation_of<'a>(alloc: Global, arguments: &'a [&'a str]) -> Option<Explanation<'a>> {
    let fault = match Request::parse(alloc, arguments) {
        Ok(_) => return None,
        Err(fault) => fault,
    };
    if let UsageFault::Words = fault {
        return Some(explain_unread(arguments));
    }
    let Ok(command) = subttx_command(alloc) else {
        return None;
    };
    let Ok(matches) = command.try_get_matches_from(arguments) else {
        return None;
    };
    match matches.subcommand() {
        Some((_, sub_matches)) => explain_value(&fault, sub_matches),
        None => None,
    }
}

// Returns the line about an argument whose value is wrong. Returns `None` for a fault that no value
// of an argument causes.
fn explain_value<'a>(fault: &UsageFault, matches: &ArgMatches<'a>) -> Option<Explanation<'a>> {
    let (argument, id, advice) = match fault {
        UsageFault::BadPage => return explain_page(matches),
        UsageFault::BadHex => ("HEX", "hex", "give 42 bytes as 84 hexadecimal digits"),
        UsageFault::SameFile => output_argument(matches),
        UsageFault::BadTime => time_argument(matches),
        _ => option_of(fault)?,
    };
    Some(Explanation {
        argument,
        value: argument_at(matches, id),
        advice,
        usage: "",
    })
}

// Returns the option with a fault, its name in the table of commands, and what to give instead.
// Returns `None` for faults that `explain_value` explains itself, and for faults that no value of
// an argument causes.
#[rattlefmt::skip]
fn option_of(fault: &UsageFault) -> Option<(&'static str, &'static str, &'static str)> {
    Some(match fault {
        UsageFault::Every => ("--every", "every", "give a number of frames from 1 to 2,160,000"),
        UsageFault::Origin => ("--origin", "origin", "give a PTS from 0 to 8,589,934,591"),
        UsageFault::BadOption => ("--option", "option",
            "give a national option, such as english or german; the manual lists them"),
        UsageFault::Within => ("--within", "within", "give a number of frames from 0 to 50"),
        UsageFault::Pid => ("--pid", "pid", "give a PID from 0 to 8190, or from 0x0 to 0x1FFE"),
        UsageFault::PacketSize => ("--packet-size", "packet-size", "give 188, 192 or 204"),
        UsageFault::Range => ("--pes", "pes",
            "give the numbers of the first and the last PES packet as I-J, or I- to the end"),
        UsageFault::BadLayout => ("--layout", "layout",
            "give a list of items as in the manual, such as fit,up"),
        UsageFault::Pace => ("--pace", "pace", "give a number of frames from 1 to 2,160,000"),
        UsageFault::BadSkip => ("--skip", "skip", "give a number of packets of 1 to 10 digits"),
        UsageFault::BadFlip => ("--flip", "flip",
            "give 1 to 64 bits as P:B:K,P:B:K: packet P, byte B from 0 to 41, bit K from 1 to 8, \
            no byte twice"),
        UsageFault::BadLose => ("--lose", "lose",
            "give 1 to 64 packet numbers, separated by commas, none twice"),
        UsageFault::BadReceiver => ("--receiver", "receiver", "give blank, keep, drop or anew"),
        _ => return None,
    })
}

// Returns the line about the first `--page` that is wrong.
fn explain_page<'a>(matches: &ArgMatches<'a>) -> Option<Explanation<'a>> {
    let texts = texts_at(matches, "page")?;
    for place in 0..texts.len() {
        if let Some(advice) = advice_on_page(texts, place) {
            return Some(Explanation {
                argument: "--page",
                value: Some(texts[place]),
                advice,
                usage: "",
            });
        }
    }
    None
}

// Returns what to give instead of a page that is wrong, or `None` if the page is right.
fn advice_on_page(texts: &[&str], place: usize) -> Option<&'static str> {
    let page = PageId::read(texts.get(place)?);
    if page.is_none() {
        return Some("give a page: a digit from 1 to 8 and two hexadecimal digits, not FF");
    }
    for text in texts.iter().take(place) {
        if PageId::read(text) == page {
            return Some("give each page only once");
        }
    }
    if place < MAX_SURVEY_PAGES {
        None
    } else {
        Some("give at most 8 pages")
    }
}

// Returns the argument for the output file, which has the name of the input file; the argument's
// name in the table of commands; and what to give instead.
fn output_argument(matches: &ArgMatches<'_>) -> (&'static str, &'static str, &'static str) {
    let advice = "give another file than the one that is read";
    if argument_at(matches, "out").is_some() {
        ("OUT", "out", advice)
    } else {
        ("PES", "pes", advice)
    }
}

// Returns the first option with a time whose value is wrong, its name in the table of commands, and
// what to give instead. The option is `--at` if no value of `--from` or `--to` is wrong.
fn time_argument(matches: &ArgMatches<'_>) -> (&'static str, &'static str, &'static str) {
    let advice = "give a time as HH:MM:SS:FF, from 00:00:00:00 to 23:59:59:24";
    if has_wrong_time(matches, "from") {
        ("--from", "from", advice)
    } else if has_wrong_time(matches, "to") {
        ("--to", "to", advice)
    } else {
        ("--at", "at", advice)
    }
}

fn has_wrong_time(matches: &ArgMatches<'_>, id: &str) -> bool {
    match argument_at(matches, id) {
        Some(text) => parse_time(text).is_none(),
        None => false,
    }
}
