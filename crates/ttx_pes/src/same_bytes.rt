//! Compares slices of bytes in blocks.
ghost use Rattle.std.specs.Prelude.{◌≡◌, ◌↔◌, ◌≤◌, length, true};
ghost use Rattle.ttx_pes.specs.Accepting.{IsDataFieldSize};

mod lanes;

use self::lanes::{is_block_equal, is_long_block_equal};
use byteorder::{ByteOrder, LittleEndian};

// The size in bytes of the data field of a PES packet of one payload.
const SINGLE_PAYLOAD_FIELD_SIZE: usize = 139;

// Returns whether the first eight bytes of two slices are equal.
#[inline(always)]
pub(crate) fn have_equal_starts(a: &[u8], b: &[u8]) -> bool
    requires a { 8 ≤ length a.now }
    requires b { 8 ≤ length b.now }
    ensures { a.now ≡ b.now → result ≡ true }
{
    LittleEndian::read_u64(a) == LittleEndian::read_u64(b)
}

// Returns whether two data fields of the same length are equal. Not inlined, for speed: otherwise
// each byte would be loaded from both possible buffers.
#[inline(never)]
pub(crate) fn is_same(a: &[u8], b: &[u8]) -> bool
    requires size { IsDataFieldSize (length a.now) }
    requires length { length a.now ≡ length b.now }
    ensures { (result ≡ true) ↔ (a.now ≡ b.now) }
{
    if a.len() == SINGLE_PAYLOAD_FIELD_SIZE {
        is_payload_equal(a, b)
    } else {
        are_long_blocks_equal(a, b)
    }
}

// Returns whether two data fields of one payload are equal. For speed, compares bytes 64 to 127
// first: they contain most of the text of the second data unit, which is often a subtitle's row.
#[inline(always)]
#[tactic(auto, using(crate::proofs::SameBytesLemmas::payload_comparison_is_correct))]
fn is_payload_equal(a: &[u8], b: &[u8]) -> bool
    requires a { length a.now ≡ 139 }
    requires b { length b.now ≡ 139 }
    ensures { (result ≡ true) ↔ (a.now ≡ b.now) }
{
    let (a_blocks, _) = a.as_chunks::<64>();
    let (b_blocks, _) = b.as_chunks::<64>();
    if !is_block_equal(&a_blocks[1], &b_blocks[1]) {
        return false;
    }
    if !is_block_equal(&a_blocks[0], &b_blocks[0]) {
        return false;
    }
    is_block_equal::<16>(a.last_chunk().unwrap(), b.last_chunk().unwrap())
}

// Returns whether two slices are equal, by comparing blocks of 256 bytes. The last block overlaps
// the block before it, so that no byte is left over. It is compared first, because different
// subtitles mostly differ in their last row.
#[inline(always)]
#[tactic(auto, using(crate::proofs::SameBytesLemmas::same_blocks))]
fn are_long_blocks_equal(a: &[u8], b: &[u8]) -> bool
    requires long { 256 ≤ length a.now }
    requires length { length a.now ≡ length b.now }
    ensures { (result ≡ true) ↔ (a.now ≡ b.now) }
{
    let (a_blocks, _) = a.as_chunks::<256>();
    let (b_blocks, _) = b.as_chunks::<256>();
    if !is_long_block_equal(a.last_chunk().unwrap(), b.last_chunk().unwrap()) {
        return false;
    }
    for i in 0..a_blocks.len() {
        if !is_long_block_equal(&a_blocks[i], &b_blocks[i]) {
            return false;
        }
    }
    true
}
