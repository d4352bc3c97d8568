//! Computes the parity of 16 bytes at once, one byte per lane of a vector.
//!
//! Three steps, for n = 4, 2, 1. Afterwards bit 1 of a lane is set if the byte has an odd number of
//! ones:
//!
//! ```text
//! lane = lane ^ lane >> n
//! ```
ghost use Rattle.std.specs.Prelude.{◌≡◌, ◌<◌, ℕ, map, slice_index};
ghost use Rattle.ttx_packet.specs.Lanes.{even_parity_flags, folded_bits};
ghost use Rattle.ttx_packet.specs.Parity.{odd_parity_byte};

use std::simd::prelude::*;

// Combines each byte by exclusive or with the byte shifted right by 4 bits.
#[inline(always)]
fn fold_halves(bytes: u8x16) -> u8x16
    ensures lanes { result ≡ map (folded_bits 4) bytes }
    ensures fits { (k : ℕ) → slice_index bytes k < 0x100 }
{
    bytes ^ (bytes >> u8x16::splat(4))
}

// Combines each byte by exclusive or with the byte shifted right by 2 bits.
#[inline(always)]
fn fold_pairs(bytes: u8x16) -> u8x16
    ensures { result ≡ map (folded_bits 2) bytes }
{
    bytes ^ (bytes >> u8x16::splat(2))
}

// Combines each byte by exclusive or with the byte shifted right by 1 bit.
#[inline(always)]
fn fold_bits(bytes: u8x16) -> u8x16
    ensures { result ≡ map (folded_bits 1) bytes }
{
    bytes ^ (bytes >> u8x16::splat(1))
}

// Returns a mask with one bit per byte, the lowest bit for the first byte. A bit is set if its byte
// has even parity.
#[inline(always)]
pub(crate) fn find_even_parity_bytes(block: &[u8; 16]) -> u64
    ensures { result ≡ even_parity_flags block.now }
{
    let folded_bits = fold_bits(fold_pairs(fold_halves(u8x16::from_array(*block))));
    (folded_bits & u8x16::splat(1))
        .simd_eq(u8x16::splat(0))
        .to_bitmask()
}

// Adds the odd parity bit to each of 16 codes.
#[inline(always)]
pub(super) fn add_parity_to_block(block: &[u8; 16]) -> [u8; 16]
    requires { (k : ℕ) → slice_index block.now k < 0x80 }
    ensures { result ≡ map odd_parity_byte block.now }
{
    let codes = u8x16::from_array(*block);
    let folded_bits = fold_bits(fold_pairs(fold_halves(codes)));
    (codes | ((folded_bits ^ u8x16::splat(1)) << u8x16::splat(7))).to_array()
}
