//! Tests of the libraries. Nothing in this crate is part of the product.
//!
//! The libraries contain no tests, since a crate with tests is proved twice.
#![tactic(auto)]

#[cfg(test)]
mod asserting;
#[cfg(test)]
mod borrowed_packets;
#[cfg(test)]
mod buffers;
#[cfg(test)]
mod closing;
#[cfg(test)]
mod compared_packets;
#[cfg(test)]
mod device_calls;
#[cfg(test)]
mod devices;
#[cfg(test)]
mod drawings;
#[cfg(test)]
mod dropped_rows;
#[cfg(test)]
mod fault_codes;
#[cfg(test)]
mod given_pes_packets;
#[cfg(test)]
mod interrupted;
#[cfg(test)]
mod libzvbi;
#[cfg(test)]
mod national_options;
#[cfg(test)]
mod options;
#[cfg(test)]
mod packets;
#[cfg(test)]
mod pages;
#[cfg(test)]
mod pes_packet_ranges;
#[cfg(test)]
mod pes_packet_tests;
#[cfg(test)]
mod programmes;
#[cfg(test)]
mod receivers;
#[cfg(test)]
mod resuming;
#[cfg(test)]
mod schedules;
#[cfg(test)]
mod subtitle_files;
#[cfg(test)]
mod transport_parts;
#[cfg(test)]
mod transport_recordings;
#[cfg(test)]
mod transport_streams;
