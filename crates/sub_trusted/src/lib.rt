//! Laws about trusted frames: frames that can be broadcast unchanged, whatever is wrong elsewhere.
//!
//! `sub_laws` defines the guarantees for a range of frames, and `sub_rules` defines the reports.
//! This crate contains no program: the contract of each function states a law.
//!
//! ```text
//! law_of_trusted_repeats:
//!     Contains (all_events_of_pes_packets g list) (Trusted from to) → .. MayStayWithRepeats ..
//! law_of_known_pages:
//!     .. → from ≤ f + g.within → .. → IsFalse (g.undecided f)
//! law_of_all_trusted:
//!     MayBeReportedAsTrusted g list a b → .. → Contains (all_events_of_pes_packets g list) ..
//! ```
#![tactic(auto)]

mod laws;

pub use laws::{
    law_of_all_trusted, law_of_equal_trust, law_of_known_pages, law_of_trusted_frames,
    law_of_trusted_repeats,
};
