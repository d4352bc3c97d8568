//! Computes the program's answer to a request: the output, the output file, and the exit status.
//!
//! `answer` answers a `Request` of `sub_request` with any devices, and `print_usage_fault` prints
//! the line about invalid arguments. `open_and_answer` opens the files that the request names,
//! answers the request, and flushes the output. This crate does not depend on `sub_words`, which
//! parses requests.
//!
//! ```text
//! let words = ["subttx", "check", "film.stl", "air.ts", "--pid", "257"];
//! let request = Request::parse(alloc, &words)?;
//! open_and_answer(alloc, &mut files, &request, &mut out)? // Status::Done
//! ```
#![tactic(auto)]

mod answering;
mod ending;
mod file_answers;
mod flushing;
mod laws;
mod part;
mod parts;

pub use answering::{answer, answer_from_inputs, print_usage_fault};
pub use ending::print_and_flush_usage_fault;
pub use file_answers::open_and_answer;
pub use laws::law_of_files_in_memory;
pub use sub_listing::{InputFault, Status, read_input};
