//! Laws about recordings: a complete recording carries the PES packets that a multiplexer sent; if
//! no jump of the continuity counter is announced, no loss of at most 14 consecutive TS packets
//! with payload of a PID creates a PES packet; and under two more assumptions about the multiplex,
//! no PES packet is missing between those that `check --pace` accepts.
//!
//! `mpeg_ts` defines what the TS packets of a PID carry, and `sub_rules` the rules for a
//! transmission. This crate contains no program: `specs/` defines what a multiplexer sends and
//! which losses are possible, and each function is a law or an example.
//!
//! ```text
//! law_of_multiplex: IsMultiplexed number distance packets recording
//! → carried_bytes number distance recording ≡ concat packets
//! ```
#![tactic(auto)]

mod examples;
mod laws;

pub use examples::{example_of_losses, example_of_multiplex};
pub use laws::{
    law_of_complete_file, law_of_losses, law_of_multiplex, law_of_neighbours, law_of_pace,
    law_of_paced_check,
};
