//! Tests of the answers of `check`, with devices in memory. Nothing in this crate is part of the
//! product.
//!
//! These tests are a separate crate, since all tests of a crate are proved by one process.
#![tactic(auto)]

#[cfg(test)]
mod answers;
#[cfg(test)]
mod asserting;
#[cfg(test)]
mod check;
#[cfg(test)]
mod complete;
#[cfg(test)]
mod every_fault;
#[cfg(test)]
mod every_place;
#[cfg(test)]
mod failing;
#[cfg(test)]
mod keeping;
#[cfg(test)]
mod live;
#[cfg(test)]
mod national;
#[cfg(test)]
mod pace;
#[cfg(test)]
mod scope;
#[cfg(test)]
mod skipped_over;
#[cfg(test)]
mod stopped;
#[cfg(test)]
mod trusted;
#[cfg(test)]
mod undecided;
#[cfg(test)]
mod within;
