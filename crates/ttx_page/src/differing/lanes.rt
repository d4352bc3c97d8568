//! Counts the cells in which two blocks of a row differ, one cell per lane of a vector.
//!
//! A comparison of the vectors gives one bit per cell; the count is the number of ones.
ghost use Rattle.std.specs.Prelude.{◌≡◌, ◌≤◌};
ghost use Rattle.ttx_page.specs.Differing.{differing_column_count};

use std::simd::prelude::*;

// Returns how many of the 16 cells of two blocks differ.
#[inline(always)]
pub(super) fn count_differing_16(a: &[u8; 16], b: &[u8; 16]) -> u16
    ensures value { result ≡ differing_column_count 16 a.now b.now }
    ensures range { result ≤ 16 }
{
    let mask = u8x16::from_array(*a)
        .simd_ne(u8x16::from_array(*b))
        .to_bitmask();
    mask.count_ones() as u16
}

// Returns how many of the 8 cells of two blocks differ.
#[inline(always)]
pub(super) fn count_differing_8(a: &[u8; 8], b: &[u8; 8]) -> u16
    ensures value { result ≡ differing_column_count 8 a.now b.now }
    ensures range { result ≤ 8 }
{
    let mask = u8x8::from_array(*a)
        .simd_ne(u8x8::from_array(*b))
        .to_bitmask();
    mask.count_ones() as u16
}
