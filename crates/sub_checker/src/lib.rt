//! Checks a PES file, one PES packet at a time, and reports faults, their ends, and trusted frames.
//!
//! `sub_rules` defines the rules. `sub_packets` checks the Teletext packets, and stores the page
//! that they show. `sub_check` states what the reports mean for acceptance and for receivers.
//!
//! ```text
//! report_pes_packets(&Judging::known(&programme), &mut source, &options, &mut audience)?;
//! // Some(Accepted { frames: 51, .. })
//! ```
#![tactic(auto)]

mod accepted;
mod arrived_frame;
mod checker;
mod counts;
mod file_end;
mod flush_before_read;
mod frame_end;
mod frame_gap;
mod fused;
mod fused_taker;
mod last_events;
mod late_end;
mod pes_file;
mod reporter;
mod rule_changes;
mod skipped_run;
mod trust_tracker;
mod undecided;

pub use accepted::Accepted;
pub use pes_file::report_pes_packets;
