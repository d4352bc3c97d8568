//! Requests to the program as plain data, and the faults of its arguments.
//!
//! `Request` has a variant for each command, with the values of its arguments. `Request::files`
//! names the files to read and write, each by a type that only this crate creates. The options of a
//! schedule come from `sub_plan`, national options and layouts from `stl_rows`; `mpeg_ts` and
//! `ttx_pes` define which PES packets are read. `sub_words` parses requests, `sub_listen` runs the
//! receiver of a `Listening`, and `sub_answer` carries out requests.
//!
//! ```text
//! let request = Request::Show { stl: "film.stl" };
//! request.files() // FileNames::ReadStl: film.stl
//! ```
#![tactic(auto)]

mod files;
mod listening;
mod pes_selection;
mod request;

pub use files::{FileNames, Output, PesInput, StlInput};
pub use listening::{Flip, Listening, ReceiverKind};
pub use pes_selection::{PesSelection, TransportStream};
pub use request::{Request, UsageFault};
