//! Compares blocks of bytes, one byte per lane of a vector.
ghost use Rattle.std.specs.Prelude.{◌≡◌, ◌↔◌, ◌≤◌, true};

use std::simd::prelude::*;

// Returns whether two blocks of N bytes are equal.
#[inline(always)]
pub(super) fn is_block_equal<const N: usize>(a: &[u8; N], b: &[u8; N]) -> bool
    requires { N ≤ 64 }
    ensures { (result ≡ true) ↔ (a.now ≡ b.now) }
{
    Simd::<u8, N>::from_array(*a)
        .simd_ne(Simd::<u8, N>::from_array(*b))
        .to_bitmask()
        == 0
}

// Returns whether two blocks of 256 bytes are equal, without branches between their quarters.
#[inline(always)]
pub(super) fn is_long_block_equal(a: &[u8; 256], b: &[u8; 256]) -> bool
    ensures { (result ≡ true) ↔ (a.now ≡ b.now) }
{
    let (a_blocks, _) = a.as_chunks::<64>();
    let (b_blocks, _) = b.as_chunks::<64>();
    is_block_equal(&a_blocks[0], &b_blocks[0])
        & is_block_equal(&a_blocks[1], &b_blocks[1])
        & is_block_equal(&a_blocks[2], &b_blocks[2])
        & is_block_equal(&a_blocks[3], &b_blocks[3])
}
