//! Odd parity: a byte of seven code bits and a parity bit, with which a single wrong bit is
//! detected.
ghost use Rattle.std.specs.Prelude.{◌≡◌, ◌<◌, ℕ, map, slice_index};
ghost use Rattle.ttx_packet.specs.Parity.{is_odd, odd_parity_byte};

pub(crate) mod lanes;

use self::lanes::add_parity_to_block;

/// Returns whether a byte has an odd number of ones (EN 300 706, 8.1).
#[tactic(auto, unfolding(crate::specs::Parity::is_odd))]
pub fn is_odd(byte: u8) -> bool
    ensures { result ≡ is_odd byte }
{
    byte.count_ones() % 2 == 1
}

/// Adds the odd parity bit to a code below 128 (EN 300 706, 8.1).
pub fn par(code: u8) -> u8
    requires { code < 0x80 }
    ensures { result ≡ odd_parity_byte code }
{
    if is_odd(code) { code } else { code + 0x80 }
}

/// Adds the odd parity bit to each of the 40 codes of a row, all below 128.
pub(crate) fn odd_parity_bytes(codes: &[u8; 40]) -> [u8; 40]
    requires { (k : ℕ) → slice_index codes.now k < 0x80 }
    ensures { result ≡ map odd_parity_byte codes.now }
{
    let mut bytes = [0; 40];
    let (blocks, rest) = codes.as_chunks::<16>();
    for (i, block) in blocks.iter().enumerate() {
        bytes[16 * i..16 * i + 16].copy_from_slice(&add_parity_to_block(block));
    }
    for (j, code) in rest.iter().enumerate() {
        bytes[32 + j] = par(*code);
    }
    bytes
}
