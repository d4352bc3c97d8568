//! Turns subtitle texts into Teletext rows: drawn pages, and programmes of subtitles.
//!
//! A subtitle file (EBU Tech 3264) is loaded as a programme, which returns the expected page at
//! each frame and the next frame at which the expected page can change:
//!
//! ```text
//! let programme = load(alloc, &mut source, National::English, Layout::default(), Scope::whole())?;
//! let page = programme.due_page(900_000);
//! let edge = programme.next_edge(900_000);
//! ```
//!
//! The crate uses `stl_file` to read the subtitles, and draws pages of `ttx_page`. `sub_plan`
//! writes schedules of programmes, and `sub_check` checks transmissions against programmes.
#![tactic(auto)]

mod cues;
mod drawing;
mod every_fault;
mod fault;
mod judged;
mod keeping;
mod layout;
mod layout_drawing;
mod layout_text;
mod line;
mod loading;
mod national;
mod prepared_line;
mod programme;
mod record;
mod sub_sets;
mod text_code;
mod text_faults;
mod times;

pub use cues::StoredSubtitles;
pub use drawing::{draw, law_of_default_layout, law_of_printing_codes};
pub use every_fault::{load_all, load_all_with_allocator};
pub use fault::{LoadFault, LoadFaultKind, RowFault, RowFaultKind};
pub use judged::{JudgedProgramme, Judging, law_of_reliable_files};
pub use keeping::KeptSubtitles;
pub use layout::{Drawing, Layout};
pub use loading::{law_of_judged, law_of_loading, law_of_parts, load, load_with_allocator};
pub use national::{National, NationalBits};
pub use programme::{
    Programme, law_of_blank_pages, law_of_due_pages, law_of_due_subtitles, law_of_edges,
    law_of_row_24,
};
