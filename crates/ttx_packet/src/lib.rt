//! Teletext packets (EN 300 706, level 1): coding of bytes, packet addresses, page headers and
//! rows, and the effect of one wrong bit in each byte.
//!
//! The crates for pages and receivers, PES packets, schedules and the checker build on this crate.
//!
//! ```text
//! let header = Header { page: 0x88, subcode: 0, control: Control::C4.union(Control::C6) };
//! let packet = Packet::of_header(0, &header);
//! packet.address() == Some((0, 0)) && packet.header() == Some(header)
//! ```
#![tactic(auto)]

mod bit_order;
mod control;
mod hamming;
mod header;
mod laws;
mod packet;
mod page_id;
mod parity;
mod sent_packet;

pub use bit_order::{mirror, mirrored};
pub use control::Control;
pub use hamming::{ham, is_word, unham};
pub use header::Header;
pub use laws::{
    law_of_address, law_of_decoding, law_of_header, law_of_header_packet, law_of_mirror,
    law_of_parity, law_of_row_packet,
};
pub use packet::Packet;
pub use page_id::{PageFault, PageId};
pub use parity::{is_odd, par};
pub use sent_packet::SentPacket;
