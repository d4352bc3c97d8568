//! Tests of the answers of all commands except `check`, with devices in memory. Nothing in this
//! crate is part of the product.
//!
//! These tests are a separate crate, since all tests of a crate are proved by one process.
#![tactic(auto)]

#[cfg(test)]
mod answers;
#[cfg(test)]
mod arguments;
#[cfg(test)]
mod asserting;
#[cfg(test)]
mod layouts;
#[cfg(test)]
mod listen;
#[cfg(test)]
mod normal;
#[cfg(test)]
mod packet;
#[cfg(test)]
mod packets;
#[cfg(test)]
mod refused_memory;
#[cfg(test)]
mod schedule;
#[cfg(test)]
mod show;
#[cfg(test)]
mod writing;
