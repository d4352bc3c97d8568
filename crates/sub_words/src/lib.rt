//! Parses the arguments of the command line as a request.
//!
//! The module `command` defines the command line for `clap`. `Request::parse` reads the matches
//! that `clap` returns, and `explanation_of` explains why arguments are refused.
//!
//! ```text
//! let request = Request::parse(alloc, &["subttx", "show", "film.stl"])?;
//! ```
#![tactic(auto)]

mod arguments;
mod command;
mod flips;
mod help;
mod laws;
mod lists;
mod numbers;
mod pages;
mod parsing;
mod pes_selection;
mod reading;
mod shown;
mod times;
mod unread_arguments;
mod usage_explanation;
mod version;

pub use laws::law_of_flips;
pub use lists::{Item, parse_list};
pub use numbers::parse_number;
pub use parsing::ParseArguments;
pub use pes_selection::{parse_packet_size, parse_pid, parse_range};
pub use times::{parse_receiver, parse_time};
pub use usage_explanation::{Explanation, explain_usage, explanation_of};
