//! Code for several crates of tests: arguments of commands, answers with devices in memory, and
//! comparisons with the expected output.
//!
//! This crate is not part of the product. It contains no assertions, since a library must not end
//! the process.
#![tactic(auto)]

mod asking;
mod judging;
mod text;

pub use asking::{ACCEPTED, CHECK, CHECK_ALL, SCHEDULE, answer_arguments};
pub use judging::{prints, prints_for_file, reports, reports_every_line, writes_every_prefix};
pub use text::{first_lines, status_of};
