//! Reads and writes data units (EN 300 472, data unit syntax).
ghost use Rattle.std.specs.Prelude.{◌≡◌, ◌+◌, ◌*◌, ◌≤◌, ◌++◌, true, length, Ok, Err, OnOk};
ghost use Rattle.std.specs.Prelude.{IfErr, IfOk, slice_index};
ghost use Rattle.ttx_pes.specs.DataUnit.{data_unit_size, teletext_unit, stuffing_unit};
ghost use Rattle.ttx_pes.specs.DataUnit as data_unit_words;
ghost use Rattle.ttx_pes.specs.PesGrammar.{max_pes_packet_size, max_units};
ghost use Rattle.ttx_pes.specs.Reading.{teletext_at, unit_at, unit_of, units_at, is_format_fault};
ghost use Rattle.ttx_pes.specs.SentUnits.{unit_if_teletext};

use crate::fault::PesFault;
use crate::pes_frame::PesFrame;
use crate::unit::Unit;
use crate::writer::{Bytes, add};
use ttx_packet::{Packet, mirrored};

/// The size of a data unit in bytes.
pub(crate) const DATA_UNIT: usize = 46;

// The value of data_unit_length in every data unit.
const DATA_UNIT_LENGTH: u8 = 0x2C;

// The framing code of a Teletext unit.
const FRAMING_CODE: u8 = 0xE4;

// Returns whether a data unit carries a Teletext packet, or its fault: `UnitLength` or `Framing`.
#[inline(always)]
#[tactic(auto, unfolding(crate::specs::Reading::teletext_at))]
pub(crate) fn is_teletext(block: &[u8]) -> Result<bool, PesFault>
    requires { length block.now ≡ data_unit_size }
    ensures exact { teletext_at block.now ≡ unit_if_teletext block.now result }
    ensures id { result ≡ Ok true
        → (2 ≤ slice_index block.now 0) × (slice_index block.now 0 ≤ 3) }
    ensures which { IfOk result (λ is. is ≡ data_unit_words.is_teletext (slice_index block.now 0)) }
    ensures kind { IfErr result (λ fault. is_format_fault fault ≡ true) }
{
    if block[1] != DATA_UNIT_LENGTH {
        return Err(PesFault::UnitLength);
    }
    let id = block[0];
    if id != 2 && id != 3 {
        return Ok(false);
    }
    if block[3] != FRAMING_CODE {
        return Err(PesFault::Framing);
    }
    Ok(true)
}

// Returns the Teletext unit of a data unit, `None` if it carries none, or its fault.
fn decode_data_unit(block: &[u8]) -> Result<Option<Unit>, PesFault>
    requires { length block.now ≡ data_unit_size }
    ensures exact { teletext_at block.now ≡ result }
    ensures kind { IfErr result (λ fault. is_format_fault fault ≡ true) }
{
    if is_teletext(block)? {
        Ok(Some(decode_unit(block)))
    } else {
        Ok(None)
    }
}

// Decodes the Teletext unit that a data unit carries.
pub(crate) fn decode_unit(block: &[u8]) -> Unit
    requires block { length block.now ≡ data_unit_size }
    requires id { (2 ≤ slice_index block.now 0) × (slice_index block.now 0 ≤ 3) }
    ensures { result ≡ unit_of block.now }
{
    let field = if block[2] / 32 % 2 == 1 { 1 } else { 2 };
    let line = block[2] % 32;
    let (_, sent) = block.split_at(4);
    let packet = Packet::new(mirrored(sent.as_array().unwrap()));
    Unit::new(block[0], field, line, packet)
}

// Appends the Teletext unit of a data unit, if there is one, to a `PesFrame`, or returns the fault
// of the data unit.
#[tactic(auto, unfolding(crate::specs::Reading::unit_at))]
fn append_unit_from_block(frame: &mut PesFrame, block: &[u8]) -> Result<(), PesFault>
    requires room { length frame.old.units + 1 ≤ max_units }
    requires block { length block.now ≡ data_unit_size }
    ensures room { length frame.new.units ≤ length frame.old.units + 1 }
    ensures ok { OnOk result (unit_at frame.old.units block.now ≡ Ok frame.new.units) }
    ensures kind { IfErr result (λ fault. is_format_fault fault ≡ true) }
    ensures err { IfErr result (λ e. unit_at frame.old.units block.now ≡ Err e) }
    ensures pts { frame.new.pts ≡ frame.old.pts }
{
    if let Some(unit) = decode_data_unit(block)? {
        if frame.add(unit).is_err() {
            return Err(PesFault::LineOrder);
        }
    }
    Ok(())
}

// Appends the Teletext units of `count` data units to a `PesFrame`, up to the first fault.
#[tactic(auto, using(crate::proofs::DataUnitLemmas::units_left))]
pub(crate) fn append_units_from_blocks(
    frame: &mut PesFrame,
    count: usize,
    blocks: &[u8],
) -> Result<(), PesFault>
    requires room { length frame.old.units + count ≤ max_units }
    requires blocks { length blocks.now ≡ data_unit_size * count }
    ensures ok { OnOk result (units_at count frame.old.units blocks.now ≡ Ok frame.new.units) }
    ensures kind { IfErr result (λ fault. is_format_fault fault ≡ true) }
    ensures err { IfErr result (λ e. units_at count frame.old.units blocks.now ≡ Err e) }
    ensures pts { frame.new.pts ≡ frame.old.pts }
{
    let mut rest = blocks;
    for _ in 0..count {
        let (block, after) = rest.split_at(DATA_UNIT);
        append_unit_from_block(frame, block)?;
        rest = after;
    }
    Ok(())
}

// Appends a Teletext unit, as a data unit, to the bytes of a PES packet.
pub(crate) fn add_unit(out: &mut Bytes, unit: &Unit)
    requires { length out.old.items + data_unit_size ≤ max_pes_packet_size }
    ensures items { out.new.items ≡ out.old.items ++ teletext_unit unit.now }
    ensures len { length out.new.items ≡ length out.old.items + data_unit_size }
{
    let field_and_line = 192 + 32 * (2 - unit.field()) + unit.line();
    add(
        out,
        &[unit.id(), DATA_UNIT_LENGTH, field_and_line, FRAMING_CODE],
    );
    add(out, &unit.packet().mirrored());
}

// Appends a stuffing unit to the bytes of a PES packet.
pub(crate) fn add_stuffing(out: &mut Bytes)
    requires { length out.old.items + data_unit_size ≤ max_pes_packet_size }
    ensures items { out.new.items ≡ out.old.items ++ stuffing_unit }
    ensures len { length out.new.items ≡ length out.old.items + data_unit_size }
{
    add(out, &[0xFF, DATA_UNIT_LENGTH]);
    add(out, &[0xFF; 44]);
}
