//! Simulates one receiver of a PES file or a recording, with requested bit errors and lost packets.
//!
//! `sub_rules` defines how a PES file is read, `sub_request` defines the request, and `ttx_page`
//! defines the receivers. Of the rules of `check`, this crate checks only that the PES packets can
//! be read and belong to frames, and that these frames are in order.
//!
//! ```text
//! listen(&mut receiver, &mut screen, &mut source, &listening)?;
//! ```
#![tactic(auto)]

mod laws;
mod listening;
mod reception;

pub use laws::law_of_listening;
pub use listening::{ListenFault, listen, listen_pes_packets};
