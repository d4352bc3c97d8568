//! Prints lines and reports of faults, and implements the commands `packet`, `packets`, `show`,
//! `schedule`, `normal`, `extract`, `--help` and `--version`.
//!
//! Uses `sub_request` and `sub_rules`. `sub_answer` passes each request to its command, and uses
//! this crate to print the reports of the checker and of a receiver.
//!
//! ```text
//! list_subtitles(&mut stl, &mut out) // Status::Done
//! ```
#![tactic(auto)]

mod copying;
mod extract;
mod fault_line;
mod faults;
mod help;
mod hex_digits;
mod lines;
mod listing;
mod normal;
mod packet;
mod packets;
mod printer;
mod printing;
mod schedule;
mod show;
mod state;
mod status;
mod version;
mod writing;

pub use extract::extract_packets;
pub use fault_line::{FaultLine, Kind};
pub use faults::{fault_line_of_check, fault_line_of_failed_read, usage_fault_line};
pub use help::print_help;
pub use lines::{LINE_CAPACITY, Line, push_decimal, push_number, push_text};
pub use normal::{InputFault, read_input, write_normal};
pub use packet::show_packet;
pub use packets::list_packets;
pub use printer::Printer;
pub use printing::{print_done, print_fault_line};
pub use schedule::write_schedule;
pub use show::list_subtitles;
pub use state::print_state;
pub use status::Status;
pub use version::print_version;
