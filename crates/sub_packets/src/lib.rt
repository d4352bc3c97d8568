//! Checks Teletext packets against the rules for packets, and stores the page that they show.
//!
//! `sub_rules` defines the rules. `sub_checker` passes the packets of each PES packet that is not
//! skipped to this crate, and finds wrong cells of the stored page at the ends of frames.
//!
//! ```text
//! let mut listener = Listener::new(watched, due);
//! listener.hear_pes_packet(&units, false, 250, 0, &mut taker); // 2 headers of the page
//! listener.first_wrong(); // Some((22, 7))
//! ```
#![tactic(auto)]

mod broken_rule_checks;
mod comparison;
mod last_heard;
mod laws;
mod listener;
mod packet_rules;
mod rule_set;
mod taker;
mod unexpected;
mod wrong_cell;

pub use comparison::Comparison;
pub use laws::law_of_repeated_packets;
pub use listener::Listener;
pub use taker::{Taker, report_if};
