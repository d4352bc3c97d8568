//! Reads PES packets one after another.
ghost use Rattle.std.specs.Prelude.{⊤};
ghost use Rattle.sub_io.specs.Device.{CanFail, CountsFailure};

use sub_io::{Failed, MemSink, Sink, put_all};
use ttx_pes::{PesPackets, Received, TakePesPacket};

/// Copies each PES packet to a sink, if the sink has room.
#[derive(Drop)]
pub(crate) struct Given<'a> {
    /// The sink for the PES packets.
    pub sink: MemSink<'a>,
}

impl TakePesPacket for Given<'_> {
    type Answer = ();

    ghost is_take = { λ old pes_packet answer new. ⊤ };

    fn take(&mut self, pes_packet: &[u8]) {
        if self.sink.failures() == 0 {
            let _ = put_all(&mut self.sink, pes_packet);
        }
    }
}

// Returns whether a PES packet was received.
fn is_pes_packet(received: &Received<()>) -> bool {
    matches!(received, Received::PesPacket(()))
}

// Reads at most four PES packets, and returns the last result.
fn take_four<P: PesPackets>(
    pes_packets: &mut P,
    given: &mut Given<'_>,
) -> Result<Received<()>, Failed>
    requires { CanFail (P.failure_count pes_packets.old) }
    ensures count { CountsFailure (P.failure_count pes_packets.old) result
        (P.failure_count pes_packets.new) }
{
    let first = pes_packets.next(given)?;
    if !is_pes_packet(&first) {
        return Ok(first);
    }
    let second = pes_packets.next(given)?;
    if !is_pes_packet(&second) {
        return Ok(second);
    }
    let third = pes_packets.next(given)?;
    if !is_pes_packet(&third) {
        return Ok(third);
    }
    pes_packets.next(given)
}

/// Reads all PES packets, of which there are at most seven, and returns the result after them.
pub(crate) fn take_all<P: PesPackets>(
    pes_packets: &mut P,
    given: &mut Given<'_>,
) -> Result<Received<()>, Failed>
    requires { CanFail (P.failure_count pes_packets.old) }
{
    let received = take_four(pes_packets, given)?;
    if !is_pes_packet(&received) {
        return Ok(received);
    }
    take_four(pes_packets, given)
}
