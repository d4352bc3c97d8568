//! Tests of answers for recordings and ranges of PES packets, of the functions for PES packets, and
//! of the files that a request opens. Nothing in this crate is part of the product.
//!
//! These tests are a separate crate, since all tests of a crate are proved by one process.
#![tactic(auto)]

#[cfg(test)]
mod asserting;
#[cfg(test)]
mod checked_files;
#[cfg(test)]
mod failing_recordings;
#[cfg(test)]
mod files;
#[cfg(test)]
mod files_in_memory;
#[cfg(test)]
mod lost_packets;
#[cfg(test)]
mod pes_packet_devices;
#[cfg(test)]
mod pes_ranges;
#[cfg(test)]
mod recorded;
#[cfg(test)]
mod recordings;
#[cfg(test)]
mod survey;
#[cfg(test)]
mod survey_lines;
