//! Teletext pages, models of receivers, and the effect of wrong bits and lost rows on a page.
//!
//! This crate uses `ttx_packet`; the planner and the checker use this crate. An example of a page:
//!
//! ```rust
//! let mut page = Page::blank();
//! page.set_row(22, &[0x41; 40]);
//! page.cell(22, 0); // 0x41
//! page.first_difference(&Page::blank()); // Some((22, 0))
//! ```
#![tactic(auto)]

mod blank;
mod differing;
mod drop_row;
mod keep;
mod laws;
mod memory;
mod packet_kind;
mod page;
mod receiver;
mod screen;

pub use blank::Blank;
pub use differing::count_differing_columns;
pub use drop_row::{DropRow, is_dropped};
pub use keep::Keep;
pub use laws::{
    law_of_dropping, law_of_keeping_receivers, law_of_kept_text, law_of_lost_rows, law_of_noise,
    law_of_nothing_lost, law_of_recovery, law_of_repeat_screen, law_of_repeats, law_of_screen,
    law_of_span, law_without_noise,
};
pub use packet_kind::PacketKind;
pub use page::Page;
pub use receiver::{Receiver, hear_all};
pub use screen::{hear_and_show, show_all};
