//! Writes the Teletext packets of a frame as one PES packet, on the lines of EN 300 472.
ghost use Rattle.std.specs.Prelude.{◌≡◌, ◌+◌, ◌^◌, ◌<◌, ◌≤◌, ◌==◌, false, length, IfErr};
ghost use Rattle.sub_io.specs.Device.{CanFail, CountsFailureIf, Writes, failed};
ghost use Rattle.ttx_pes.specs.Fault.{is_write_fault};
ghost use Rattle.ttx_pes.specs.declared.fault.PesFault.TheVariants.{Write};
ghost use Rattle.ttx_pes.specs.LineOrder.{line_order_place, numbered_place, numbered_unit};
ghost use Rattle.ttx_pes.specs.PesGrammar.{canonical_packet, numbered_frame};

use crate::fault::PesFault;
use crate::pes_frame::PesFrame;
use crate::unit::Unit;
use crate::writer::PesWriter;
use sub_io::Sink;
use ttx_packet::Packet;

// Returns the unit for Teletext packet number `i` of a frame, counted from 0.
fn numbered_unit_of_packet(i: usize, packet: &Packet) -> Unit
    requires { i < 32 }
    ensures value { result ≡ numbered_unit i packet.now }
    ensures place { line_order_place result ≡ numbered_place i }
    ensures line { (result.line == 0) ≡ false }
{
    let i = i as u8;
    if i < 16 {
        Unit::new(3, 1, 7 + i, *packet)
    } else {
        Unit::new(3, 2, i - 9, *packet)
    }
}

// Returns the contents of a PES packet with these Teletext packets.
pub(crate) fn frame_of(pts: u64, packets: &[Packet]) -> PesFrame
    requires pts { pts < 2 ^ 33 }
    requires few { length packets.now ≤ 32 }
    ensures { result ≡ numbered_frame pts packets.now }
{
    let mut frame = PesFrame::new(pts);
    for (i, packet) in packets.iter().enumerate() {
        frame.push(numbered_unit_of_packet(i, packet));
    }
    frame
}

/// Writes Teletext packets as one PES packet (EN 300 472): as subtitle units (data_unit_id 03) on
/// lines 7 to 22 of the first field, then on lines 7 to 22 of the second field.
///
/// `pts` is in ticks of 90 kHz, 33 bits. At most 32 packets fit.
///
/// # Errors
///
/// Returns `Write` if the sink fails. A prefix of the packet was written.
pub fn put_frame<K: Sink>(sink: &mut K, pts: u64, packets: &[Packet]) -> Result<(), PesFault>
    requires pts { pts < 2 ^ 33 }
    requires few { length packets.now ≤ 32 }
    requires count { CanFail (K.failure_count sink.old) }
    ensures bytes { Writes (K.contents sink.old) (K.contents sink.new)
        (canonical_packet (numbered_frame pts packets.now)) result }
    ensures faults { IfErr result (λ fault. fault ≡ Write) }
    ensures count { CountsFailureIf K.failure_count sink.old (failed is_write_fault result)
        sink.new }
{
    PesWriter::new().put(sink, &frame_of(pts, packets))
}
