//! Schedules: the frames with a transmission of a subtitle page, and the packets of each
//! transmission.
//!
//! The crate uses `stl_rows` for the expected page at each frame and `ttx_pes` for PES packets. The
//! checker converts each PTS with the same options.
//!
//! ```text
//! let options = Options::new(PageId::parse("888")?, 250, 0)?;
//! options.pts_of(900_000) == 3_240_000_000
//! let sendings = schedule(&programme, &options, false, &mut sink)?;
//! ```
#![tactic(auto)]

mod fault;
mod laws;
mod options;
mod scheduling;
mod sending;

pub use fault::{OptionFault, PlanFault};
pub use laws::{
    example_of_closing_headers, example_of_watched_headers, law_of_clock, law_of_cut_sendings,
    law_of_day, law_of_due_size, law_of_equal_pages, law_of_exact_clock, law_of_gaps,
    law_of_last_sending, law_of_near_clock, law_of_pes_values, law_of_sending, law_of_sendings,
    law_of_sent_packets, law_of_size,
};
pub use options::Options;
pub use scheduling::schedule;
