//! Reads and writes EBU Tech 3264 subtitle files: a GSI block and TTI blocks.
//!
//! A file is read block by block from any `sub_io::Source`. `ResumingReader` continues after a
//! rejected subtitle; `StlReader` stops at the first fault:
//!
//! ```text
//! let mut reader = StlReader::open(&mut source)?;
//! while let Some(subtitle) = reader.next(&mut source)? {
//!     write_subtitle(&subtitle, &mut sink)?;
//! }
//! ```
//!
//! Of the project's crates it uses only `sub_io`. `stl_rows` draws the subtitles as Teletext rows;
//! other crates use the subtitles and the definition of a file, `IsFile` in `specs/File.antt`.
#![tactic(auto)]

mod counts;
mod fault;
mod gsi;
mod laws;
mod normal_form;
mod progress;
mod reader;
mod resuming;
mod scope;
mod subtitle;
mod subtitle_blocks;
mod time_code;
mod tti;
mod writer;

pub use fault::{NormalFault, StlFault};
pub use gsi::{Gsi, five_digits_of};
pub use laws::{
    law_of_files, law_of_normal_form, law_of_normal_form_again, law_of_one_reading, law_of_scope,
};
pub use normal_form::normal;
pub use progress::Progress;
pub use reader::StlReader;
pub use resuming::{Found, ResumingReader};
pub use scope::Scope;
pub use subtitle::Subtitle;
pub use time_code::TimeCode;
pub use tti::Tti;
pub use writer::write_subtitle;
