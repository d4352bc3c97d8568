//! Laws of transmissions: a good transmission is robust (the main theorem), and the reports of a
//! check are exact.
//!
//! `sub_rules` defines the rules, and `ttx_page` defines receivers and bit errors. This crate
//! contains no program: `specs/` defines the guarantees, such as `Robust`, and the contract of each
//! function states a law.
//!
//! ```text
//! law_of_good: Good programme transmission options → HasPromises programme transmission options
//! ```
#![tactic(auto)]

mod laws;

pub use laws::{
    law_of_broken_places, law_of_complete_plan, law_of_empty_report, law_of_empty_report_repeats,
    law_of_equal_reports, law_of_erasing_headers, law_of_exact_frames, law_of_first_reported,
    law_of_followed_stretch, law_of_full_recovery, law_of_full_stretch, law_of_good,
    law_of_good_with_repeats, law_of_judged_parts, law_of_kept_codes, law_of_longer_delay_of_files,
    law_of_longer_delay_with_repeats, law_of_lossless_reception, law_of_may_keep, law_of_no_delay,
    law_of_no_repeats, law_of_old_text, law_of_plan, law_of_plan_read, law_of_plan_repeats,
    law_of_repeated_stretch, law_of_right_cells, law_of_stretch, law_of_sufficient_parts,
    law_of_trust_without_delay, law_of_unreported_repeats, law_of_unreported_stretch,
    law_of_window,
};
