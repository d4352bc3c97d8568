//! Compares 16 cells of two rows at once, one cell per lane of a vector.
ghost use Rattle.std.specs.Prelude.{◌≡◌};
ghost use Rattle.ttx_page.specs.Lanes.{differing_mask};

use std::simd::prelude::*;

// Returns a mask with one bit per cell, the lowest bit for the first cell. A bit is set if the
// cells of the two blocks differ.
#[inline(always)]
pub(super) fn mask_differing_cells(a: &[u8; 16], b: &[u8; 16]) -> u64
    ensures { result ≡ differing_mask a.now b.now }
{
    u8x16::from_array(*a)
        .simd_ne(u8x16::from_array(*b))
        .to_bitmask()
}
