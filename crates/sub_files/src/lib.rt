//! Opens the files of a request.
//!
//! `sub_request` has the names of the files. Of the project's crates, this one uses only
//! `sub_request` and `sub_io`, so it is proved in parallel with the crates that carry out a
//! request. `sub_answer` reads and writes the opened files.
//!
//! ```text
//! open(&mut SystemFiles::new(rt, &mut names, ..), &request.files());
//! // Some(OpenedFiles::ReadStl(..)), the open file film.stl
//! ```
#![tactic(auto)]

mod checked_file;
mod distinct_files;
mod error_reporter;
mod file_system;
mod files;
mod input_kind;
mod memory;
mod opening;
mod standard_streams;
mod system;

pub use checked_file::{CheckedFile, SizeLookup};
pub use distinct_files::LookupResult;
pub use error_reporter::ErrorReporter;
pub use file_system::FileSystem;
pub use files::{CreatedFile, PesFile, StlFile};
pub use input_kind::{InputKind, InputKinds, explain_refusal, input_kind_of};
pub use memory::{MemFile, MemFiles};
pub use opening::{BUFFER_SIZE, OpenedFiles, open, required_buffer_size, room};
pub use standard_streams::{StreamInPlace, occupy_closed_stream};
pub use system::{NAMES_CAPACITY, SystemFiles};
