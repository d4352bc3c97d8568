//! Converts 16 bytes at once to lower case hexadecimal digits, one byte in each lane of a vector.
//!
//! Each half of a byte is an index into a table of 16 digits. The digits of the upper and lower
//! halves are then interleaved.
ghost use Rattle.std.specs.Prelude.{◌≡◌, ◌/◌, ◌%◌, map, slice_index};
ghost use Rattle.hex.specs.Hex.{encode_lower, lower_digits};

use std::simd::prelude::*;

/// The lower case hexadecimal digits, by value.
const DIGITS: [u8; 16] = *b"0123456789abcdef";

// Returns the first hexadecimal digit of each byte.
#[inline(always)]
fn first_digits(bytes: u8x16) -> u8x16
    ensures { result ≡ map (λ b. slice_index lower_digits (b / 16)) bytes }
{
    u8x16::from_array(DIGITS).swizzle_dyn(bytes >> u8x16::splat(4))
}

// Returns the second hexadecimal digit of each byte.
#[inline(always)]
fn second_digits(bytes: u8x16) -> u8x16
    ensures { result ≡ map (λ b. slice_index lower_digits (b % 16)) bytes }
{
    u8x16::from_array(DIGITS).swizzle_dyn(bytes & u8x16::splat(15))
}

/// Returns the 32 lower case hexadecimal digits of 16 bytes.
#[inline(always)]
pub fn digits_of_block(block: &[u8; 16]) -> [u8; 32]
    ensures { result ≡ encode_lower block.now }
{
    let bytes = u8x16::from_array(*block);
    let first = first_digits(bytes);
    let second = second_digits(bytes);
    let mut digits = [0; 32];
    let (prefix, back) = digits.split_at_mut(16);
    let first_half_digits = first.shuffle(
        second,
        [0, 16, 1, 17, 2, 18, 3, 19, 4, 20, 5, 21, 6, 22, 7, 23],
    );
    let second_half_digits = first.shuffle(
        second,
        [8, 24, 9, 25, 10, 26, 11, 27, 12, 28, 13, 29, 14, 30, 15, 31],
    );
    prefix.copy_from_slice(&first_half_digits.to_array());
    back.copy_from_slice(&second_half_digits.to_array());
    digits
}
