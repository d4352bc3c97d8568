//! Devices that read and write bytes, and count their failures.
//!
//! Uses no other crate of `subttx`. The other crates read and write files only through these
//! traits. Their contracts state which bytes a device read or wrote if its contents are known, and
//! how many of its calls failed.
//!
//! ```
//! let mut source = MemSource::new(b"EBU STL");
//! let mut room = [0; 7];
//! let mut sink = MemSink::new(&mut room);
//! let mut head = [0; 3];
//! fill(&mut source, &mut head)?; // Ok(3): head holds "EBU"
//! put_all(&mut sink, &head)?; // sink.written() is "EBU"
//! ```
//!
//! - `Source` and `Sink` are the traits of input and output devices; use `fill` and `put_all` to
//!   read and write. `Flush` is a sink that may buffer bytes. `Close` is a sink whose bytes can be
//!   stored (`Store`), and that can be closed: this drops (`Release`) its writer, if it has one.
//! - `MemSource` and `MemSink` are devices over memory; `FromRead`, `IntoWrite` and `IntoFile` are
//!   devices over std.
//! - `BufferedSource` and `BufferedSink` add a buffer to another device, so that fewer calls reach
//!   that device.
//! - `FailAt` makes one chosen call of another device fail.
//! - `ReportSink` is the trait of consumers of reported items, which may stop the reporting;
//!   `FirstReported` stops at the first item.
//! - `Live` is a consumer that can flush what it buffers before a read that may block.
//! - `FaultCode` is the number and the name of a fault of any crate.
#![tactic(auto)]

mod buffered_sink;
mod buffered_source;
mod close;
mod fail_at;
mod fault_code;
mod into_file;
mod live;
mod memory;
mod report_sink;
mod sink;
mod source;
mod std_io;
mod taken;

pub use buffered_sink::BufferedSink;
pub use buffered_source::BufferedSource;
pub use close::{Close, Release, Store};
pub use fail_at::FailAt;
pub use fault_code::FaultCode;
pub use into_file::IntoFile;
pub use live::{Live, LiveReportSink};
pub use memory::{MemSink, MemSource};
pub use report_sink::{FirstReported, ReportSink, Stopped};
pub use sink::{Flush, Sink, put_all};
pub use source::{Failed, Source, fill};
pub use std_io::{FromRead, IntoWrite};
