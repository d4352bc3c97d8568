//! Transport streams (ISO/IEC 13818-1): the PES packets of one PID.
//!
//! Reads the Teletext PES packets that the transport packets of a PID carry, in the form of a PES
//! file, with a gap marker after each PES packet that a gap follows. So every reader of PES files
//! can also read recordings. Uses `sub_io` for devices and `ttx_pes` for PES packets.
//!
//! ```text
//! let pid = Pid::new(0x101).ok_or(..)?;
//! let mut pieces = RecordingPesPackets::new(recording, pid, PacketSize::Plain);
//! while reader.next(&mut pieces)? != Compared::End {
//!     ..
//! }
//! ```
#![tactic(auto)]

mod gap_marker;
mod joining;
mod laws;
mod packet_size;
mod part_bytes;
mod passing;
mod pending_item;
mod pid;
mod recording_packets;
mod stream;
mod survey_options;
mod transport_packet;
mod window;

pub use joining::Joining;
pub use laws::{law_of_failed_read, law_of_stream_calls};
pub use packet_size::PacketSize;
pub use pending_item::Next;
pub use pid::Pid;
pub use recording_packets::RecordingPesPackets;
pub use survey_options::{MAX_SURVEY_PAGES, SurveyOptions, SurveyPages};
pub use transport_packet::{
    PACKET, SYNC_BYTE, announces_jump, begins, counter_of, has_adaptation_field, has_payload,
    is_unusable, payload_of, pid_of,
};
