//! Examples of transmissions and screens, byte by byte.
//!
//! The examples test the definitions of `ttx_page`, `sub_rules` and `sub_laws`. No other crate uses
//! this one.
//!
//! ```text
//! example_of_good_transmission: a transmission of two frames, its programme and its options are
//! `Good`
//! ```
#![tactic(auto)]

mod examples;
mod screen_examples;

pub use examples::{
    example_of_clean_frames, example_of_good_transmission, examples_of_needed_rules,
    examples_of_trusted_frames,
};
pub use screen_examples::{example_of_unended_page, examples_of_screens};
