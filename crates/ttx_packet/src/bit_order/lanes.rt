//! Reverses the bits of 16 bytes at once, one byte per lane of a vector.
//!
//! Three steps, for n = 4, 2, 1. The mask selects the lower n bits of each group of 2n bits:
//!
//! ```text
//! lane = (lane >> n & mask) | (lane & mask) << n
//! ```
ghost use Rattle.std.specs.Prelude.{◌≡◌, ◌<◌, ℕ, map, slice_index};
ghost use Rattle.ttx_packet.specs.BitOrder.{mirror};
ghost use Rattle.ttx_packet.specs.Lanes.{swapped_bits};

use std::simd::prelude::*;

// Swaps the two 4-bit halves of each byte.
#[inline(always)]
fn swap_halves(bytes: u8x16) -> u8x16
    ensures lanes { result ≡ map (swapped_bits 4 0x0F) bytes }
    ensures fits { (k : ℕ) → slice_index bytes k < 0x100 }
{
    let mask = u8x16::splat(0x0F);
    let n = u8x16::splat(4);
    ((bytes >> n) & mask) | ((bytes & mask) << n)
}

// Swaps the two bit pairs in each 4-bit half of each byte.
#[inline(always)]
fn swap_pairs(bytes: u8x16) -> u8x16
    ensures { result ≡ map (swapped_bits 2 0x33) bytes }
{
    let mask = u8x16::splat(0x33);
    let n = u8x16::splat(2);
    ((bytes >> n) & mask) | ((bytes & mask) << n)
}

// Swaps the two bits of each bit pair of each byte.
#[inline(always)]
fn swap_bits(bytes: u8x16) -> u8x16
    ensures { result ≡ map (swapped_bits 1 0x55) bytes }
{
    let mask = u8x16::splat(0x55);
    let n = u8x16::splat(1);
    ((bytes >> n) & mask) | ((bytes & mask) << n)
}

// Reverses the bits of each of the 16 bytes.
#[inline(always)]
pub(super) fn mirror_block(block: &[u8; 16]) -> [u8; 16]
    ensures { result ≡ map mirror block.now }
{
    swap_bits(swap_pairs(swap_halves(u8x16::from_array(*block)))).to_array()
}
