//! The order of bits in a byte. Teletext sends the lowest bit first; a DVB data unit carries that
//! bit as the highest bit of the byte.
ghost use Rattle.std.specs.Prelude.{◌≡◌, map};
ghost use Rattle.ttx_packet.specs.BitOrder.{mirror};

mod lanes;

use self::lanes::mirror_block;

/// Reverses the bits of a byte, as a DVB data unit carries each Teletext byte (EN 300 472, data
/// field syntax).
pub fn mirror(byte: u8) -> u8
    ensures { result ≡ mirror byte }
{
    byte.reverse_bits()
}

/// Reverses the bits of each of the 42 bytes of a packet. Twice gives the original packet.
///
/// The last block of 16 bytes starts 6 bytes early, so that no byte is left over.
#[inline(always)]
pub fn mirrored(bytes: &[u8; 42]) -> [u8; 42]
    ensures { result ≡ map mirror bytes.now }
{
    let mut other = [0; 42];
    let (blocks, _) = bytes.as_chunks::<16>();
    for (i, block) in blocks.iter().enumerate() {
        other[16 * i..16 * i + 16].copy_from_slice(&mirror_block(block));
    }
    let last = mirror_block(bytes.last_chunk().unwrap());
    other[32..42].copy_from_slice(&last[6..16]);
    other
}
