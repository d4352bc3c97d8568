//! Proves what exit status 0 of `check` means for receivers and viewers.
//!
//! The functions do nothing: their contracts are laws about the definitions of `specs/`.
#![tactic(auto)]

mod laws;

pub use laws::{
    law_of_check_recording_arguments, law_of_chosen_arguments, law_of_english_acceptance,
    law_of_english_characters, law_of_headline, law_of_plain_acceptance, law_of_plain_arguments,
    law_of_recording_arguments,
};
