//! Lists the contents of a recording, a transport stream (ISO/IEC 13818-1) or a file of PES
//! packets, line by line: tables, PIDs with Teletext, their PES packets and up to eight decoded
//! pages, clocks, and the first pictures.
//!
//! `mpeg_ts` defines the data that the packets of a PID carry, `ttx_pes` the faults of a PES
//! packet, and `ttx_page` the page that a receiver decodes.
//!
//! ```text
//! let options = SurveyOptions { pages, pid: None, packet_size: None };
//! survey(alloc, options, &mut recording, &mut lines)?;
//! ```
#![tactic(auto)]

mod adaptation;
mod announcements;
mod begun;
mod buffer;
mod carrier;
mod character_set;
mod clock;
mod given;
mod heard;
mod laws;
mod lead;
mod multiplex;
mod packet_notes;
mod packet_sizes;
mod packets_in_step;
mod page;
mod page_lines;
mod pes_file;
mod pes_header;
mod pes_lines;
mod picture_forms;
mod pictures;
mod pid_packets;
mod pid_state;
mod recording;
mod reporting;
mod rows;
mod section;
mod steps;
mod subtitle_pages;
mod tables;
mod text;
mod units;

pub use laws::{law_of_received_data, law_of_two_calls};
pub use pid_packets::{PidPackets, TakesPesPackets};
pub use reporting::{SurveyFault, survey};
