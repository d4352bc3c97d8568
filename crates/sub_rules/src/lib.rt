//! The requirements on a transmission, and the faults of a transmission that breaks them.
//!
//! `specs/` defines a transmission, how it is read from the bytes of a PES file, the rules of a
//! good transmission (`Good`), and the events that a check reports (`Events`). `sub_checker` checks
//! these rules.
//!
//! ```text
//! next_pes_packet(&mut reader, &mut source, &options, 0)?;
//! // Some(Sent(ValidPesPacket { frame: 250, .. }))
//! CheckFault::Gap { frame: 250 }.code(); // 73 Gap
//! ```
#![tactic(auto)]

mod active_faults;
mod end_rule;
mod event;
mod fault;
mod fault_place;
mod fault_row;
mod packet_rule;
mod pes_packet;
mod valid_pes_packet;

pub use active_faults::ActiveFaults;
pub use end_rule::EndRule;
pub use event::Event;
pub use fault::CheckFault;
pub use fault_place::FaultPlace;
pub use fault_row::FaultRow;
pub use packet_rule::{PacketRule, Watched};
pub use pes_packet::{NextPesPacket, next_pes_packet};
pub use valid_pes_packet::{ValidPesPacket, units_of};
