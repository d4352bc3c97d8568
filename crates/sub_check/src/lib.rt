//! The checker of a PES file against a programme, and the main theorem: a good transmission of a
//! programme is robust.
//!
//! Combines `sub_checker`, which reports all faults, with `sub_laws` and `sub_trusted`, whose laws
//! state what the reports mean. Re-exports types and laws of these crates, of `sub_rules` and of
//! `sub_packets`. Unless the source fails, `check` accepts exactly the transmissions that are good
//! by the options (`GoodWithRepeats` in `sub_rules`), and returns the first fault for any other:
//!
//! ```text
//! check(&programme, &mut source, &options)?; // Accepted { frames: 51, headers: 2 }
//! check_all(&judging, &mut source, &options, &mut report_sink)?; // reports every fault
//! law_of_good: Good programme transmission options → HasPromises programme transmission options
//! ```
#![tactic(auto)]

mod checking;
mod checking_file;
mod files;
mod first_fault;
mod laws;

pub use checking::{check_all_pes_packets, check_pes_packets};
pub use checking_file::{check, check_all};
pub use files::check_files;
pub use laws::{
    law_of_accepted_keeping, law_of_accepted_within_more, law_of_accepted_without_keeping,
};
pub use sub_checker::Accepted;
pub use sub_laws::{
    law_of_broken_places, law_of_complete_plan, law_of_empty_report, law_of_empty_report_repeats,
    law_of_exact_frames, law_of_first_reported, law_of_full_recovery, law_of_full_stretch,
    law_of_good, law_of_good_with_repeats, law_of_longer_delay_of_files,
    law_of_longer_delay_with_repeats, law_of_lossless_reception, law_of_no_delay, law_of_plan,
    law_of_plan_read, law_of_plan_repeats, law_of_repeated_stretch, law_of_stretch,
    law_of_sufficient_parts, law_of_trust_without_delay, law_of_unreported_stretch, law_of_window,
};
pub use sub_packets::law_of_repeated_packets;
pub use sub_rules::{CheckFault, EndRule, Event, FaultPlace, PacketRule, Watched};
pub use sub_trusted::{law_of_all_trusted, law_of_trusted_frames, law_of_trusted_repeats};
