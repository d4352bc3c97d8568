//! Tests of parsing arguments: requests, and the values in them. Nothing in this crate is part of
//! the product.
//!
//! These tests are a separate crate, since all tests of a crate are proved by one process.
#![tactic(auto)]

#[cfg(test)]
mod asserting;
#[cfg(test)]
mod explanations;
#[cfg(test)]
mod requests;
#[cfg(test)]
mod values;
