//! Writes the blocks of a subtitle (EBU Tech 3264, TTI block).

ghost use Rattle.std.specs.Prelude.{◌≡◌, ◌+◌, ◌/◌, ◌%◌, ◌<◌, ◌≤◌, [], ◌∷◌, ◌++◌, length, IfOk};
ghost use Rattle.std.specs.List.{concat};
ghost use Rattle.sub_io.specs.Device.{CanFail, CountsFailure, Writes};
ghost use Rattle.stl_file.specs.NormalForm.{block_head, block_of, blocks_of};

use crate::subtitle::Subtitle;
use arrayvec::ArrayVec;
use byteorder::{ByteOrder, LittleEndian};
use sub_io::{Failed, Sink, put_all};

/// A text field that has only unused space.
const UNUSED_SPACE: [u8; 112] = [0x8f; 112];

/// Writes a subtitle in the fewest blocks that hold its text, at least one, and returns their
/// number.
///
/// EBN counts from 00 and is FF in the last block; CS and CF are 0 in each; text fields are padded
/// with unused space (8F).
///
/// # Errors
///
/// Returns `Failed` if the sink fails. A prefix of the blocks was written.
pub fn write_subtitle<K: Sink>(subtitle: &Subtitle, sink: &mut K) -> Result<u8, Failed>
    requires { CanFail (K.failure_count sink.old) }
    ensures bytes { Writes (K.contents sink.old) (K.contents sink.new)
        (concat (blocks_of subtitle.now)) result }
    ensures number { IfOk result (λ n. n ≡ length (blocks_of subtitle.now)) }
    ensures count { CountsFailure (K.failure_count sink.old) result (K.failure_count sink.new) }
{
    let (blocks, count) = encode_blocks(subtitle);
    put_all(sink, blocks.as_slice())?;
    Ok(count)
}

// Returns the bytes of a subtitle's blocks, and the number of the blocks.
#[tactic(auto, using(crate::proofs::BlocksOfLemmas::spelled))]
fn encode_blocks(subtitle: &Subtitle) -> (ArrayVec<u8, 1152>, u8)
    ensures bytes { result.0.items ≡ concat (blocks_of subtitle.now) }
    ensures count { result.1 ≡ length (blocks_of subtitle.now) }
{
    let mut out = ArrayVec::new();
    let mut ebn = 0;
    let mut rest = subtitle.text();
    while rest.len() > 112 {
        let (chunk, after) = rest.split_at(112);
        push_block(&mut out, subtitle, ebn, chunk);
        ebn += 1;
        rest = after;
    }
    push_block(&mut out, subtitle, 0xff, rest);
    (out, ebn + 1)
}

// Appends one TTI block of a subtitle, with the given EBN and part of the text.
#[tactic(auto, using(crate::proofs::BlocksOfLemmas::block_layout_rules))]
fn push_block(out: &mut ArrayVec<u8, 1152>, subtitle: &Subtitle, ebn: u8, chunk: &[u8])
    requires room { length out.old.items + 128 ≤ 1152 }
    requires chunk { length chunk.now ≤ 112 }
    ensures items { out.new.items ≡ out.old.items ++ block_of subtitle.now ebn chunk.now }
    ensures len { length out.new.items ≡ length out.old.items + 128 }
{
    let head = block_header(subtitle, ebn);
    push_all(out, &head);
    push_all(out, chunk);
    let (_, pad) = UNUSED_SPACE.split_at(chunk.len());
    push_all(out, pad);
}

// Returns the first 16 bytes of a TTI block: all fields before the text field.
fn block_header(subtitle: &Subtitle, ebn: u8) -> [u8; 16]
    ensures { result ≡ block_head subtitle.now ebn }
{
    let sn = sn_bytes(subtitle.sn());
    let tci = subtitle.tci().to_bytes();
    let tco = subtitle.tco().to_bytes();
    [
        subtitle.sgn(),
        sn[0],
        sn[1],
        ebn,
        0,
        tci[0],
        tci[1],
        tci[2],
        tci[3],
        tco[0],
        tco[1],
        tco[2],
        tco[3],
        subtitle.vp(),
        subtitle.jc(),
        0,
    ]
}

// Returns the two bytes of SN, low byte first.
fn sn_bytes(sn: u16) -> [u8; 2]
    ensures { result ≡ (sn % 256) ∷ (sn / 256) ∷ [] }
{
    let mut bytes = [0; 2];
    LittleEndian::write_u16(&mut bytes, sn);
    bytes
}

fn push_all(out: &mut ArrayVec<u8, 1152>, bytes: &[u8])
    requires { length out.old.items + length bytes.now ≤ 1152 }
    ensures items { out.new.items ≡ out.old.items ++ bytes.now }
    ensures len { length out.new.items ≡ length out.old.items + length bytes.now }
{
    let added = out.try_extend_from_slice(bytes);
    prove!(added.is_ok());
}
