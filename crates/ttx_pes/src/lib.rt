//! Reads and writes EBU Teletext in PES packets (EN 300 472).
//!
//! A reader returns the PTS and the Teletext units of each PES packet, and consumes exactly the
//! packet's bytes. A comparing reader also returns whether the data field is the same as in the
//! packet before. A writer writes the canonical packet of a frame. Uses `sub_io` for devices and
//! `ttx_packet` for Teletext packets; the crates that write and check schedules use this one.
//!
//! ```text
//! let mut reader = PesReader::new();
//! let mut frame = PesFrame::new(0);
//! while reader.next_into(&mut source, &mut frame)? {
//!     for unit in frame.units() {
//!         receiver.hear(unit.packet());
//!     }
//! }
//! ```
#![tactic(auto)]

mod borrowed_packet;
mod buffered_packet;
mod comparing_reader;
mod data_unit;
mod equal_unit_headers;
mod fault;
mod file_pes_packets;
mod frame_buffer;
mod laws;
mod limited_pes_packets;
mod numbered_frames;
mod numbered_pes_packets;
mod part_of_pes_packets;
mod passing;
mod pes_frame;
mod pes_header;
mod pes_packet_buffer;
mod pes_packet_range;
mod pes_packets;
mod pes_packets_ahead;
mod progress;
mod reader;
mod repeated_packet;
mod same_bytes;
mod sent_units;
mod unit;
mod unit_places;
mod writer;

pub use borrowed_packet::{flush_first, has_enough_for_packet};
pub use comparing_reader::{Compared, ComparingReader};
pub use fault::PesFault;
pub use file_pes_packets::FilePesPackets;
pub use laws::{
    law_of_canonical_packet, law_of_grammar, law_of_line_order, law_of_numbered_frame,
    law_of_one_value, law_of_packet_value, law_of_pes_packets, law_of_ranges,
    law_of_reader_answers, law_of_reading, law_of_reading_back, law_of_refusal,
};
pub use limited_pes_packets::LimitedPesPackets;
pub use numbered_frames::put_frame;
pub use numbered_pes_packets::{FailedAt, NumberedPesPackets};
pub use part_of_pes_packets::PartOfPesPackets;
pub use passing::{MAX_PES_PACKETS, skip_pes_packets};
pub use pes_frame::{MAX_UNITS, PesFrame};
pub use pes_header::{decode_packet_size, is_gap_marker};
pub use pes_packet_range::PesPacketRange;
pub use pes_packets::{PesPackets, REST_BUFFER_SIZE, Received, TakePesPacket};
pub use pes_packets_ahead::PesPacketsAhead;
pub use progress::Progress;
pub use reader::PesReader;
pub use repeated_packet::RepeatedPacket;
pub use sent_units::SentUnits;
pub use unit::Unit;
pub use writer::PesWriter;
