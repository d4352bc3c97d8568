//! The traits of readers of PES packets. A PES packet is as long as its length field states, but
//! its contents may be invalid.
//!
//! `next` passes a borrowed packet to a taker, and then skips it. So a packet is copied only if the
//! reader must collect its bytes first. Bytes that do not begin with a packet are read by a
//! separate function, which only `extract` uses.
ghost use Rattle.std.specs.Borrow.{GName};
ghost use Rattle.std.specs.Prelude.{◌≡◌, ℕ, Bool, List, Option, is_ok, true};
ghost use Rattle.std.specs.Io.{ReadsAtMost};
ghost use Rattle.sub_io.specs.Device.{CanFail, CountsFailure, Pulls};
ghost use Rattle.ttx_pes.specs.Advancing.{Advances, no_borrowed_devices, is_never_ready};
ghost use Rattle.ttx_pes.specs.Advancing.{faulty_rest_is_answer};
ghost use Rattle.ttx_pes.specs.PesPackets.{IsPesPacket};

use crate::fault::PesFault;
use sub_io::Failed;

/// The size in bytes of a buffer for bytes that do not begin with a PES packet. A reader has read
/// at most this many of them when it reports their fault.
pub const REST_BUFFER_SIZE: usize = 2048;

/// The result of reading a PES packet: a packet, with the taker's answer, or the reason why no
/// packet follows.
#[derive(Clone, Copy, Debug, PartialEq, Eq)]
pub enum Received<A> {
    /// The end of the file or recording, or of the range of PES packets to read.
    End,
    /// A PES packet, with the taker's answer.
    PesPacket(A),
    /// Bytes that do not begin with a PES packet, with their fault: `Truncated`, `Start` or
    /// `Length`.
    Rest(PesFault),
}

/// A consumer of PES packets that returns an answer for each packet.
pub trait TakePesPacket {
    /// The answer of the taker for one PES packet.
    type Answer;

    // How processing a packet changes the taker. Arguments: old state, packet, answer, new state.
    ghost is_take: { Self → List ℕ → Self.Answer → Self → Type 0 };

    /// Processes a PES packet, which is borrowed from the source or from the reader.
    fn take(&mut self, pes_packet: &[u8]) -> Self::Answer
        requires { IsPesPacket pes_packet.now }
        ensures { is_take self.old pes_packet.now result self.new };
}

/// A reader of the PES packets of a file or recording, in order, up to the end or to bytes that do
/// not begin with a packet. A packet has a start code and is as long as its length field states (EN
/// 300 472, PES_packet_length); its contents may be invalid.
pub trait PesPackets {
    // The remaining bytes of the reader, or `None` if they are unknown.
    ghost remaining: { Self → Option (List ℕ) };

    // The remaining bytes without those that were read before a failure or `Rest`. Readers other
    // than `FilePesPackets` may include bytes that were read before a failure.
    ghost left: { Self → Option (List ℕ) };

    // The number of failed calls of the reader's device.
    ghost failure_count: { Self → ℕ };

    // Whether `read_rest` may be called. It is true if the last call of `next` returned `Rest`, and
    // may be true otherwise.
    ghost may_read_rest: { Self → Bool };

    // If true, the next call uses no device.
    ghost ready: { Self → Bool } = { is_never_ready };

    // The references by which the reader borrows its device, outermost first.
    ghost device: { Self → List GName } = { no_borrowed_devices };

    /// Lets `taker` process the next PES packet. If there is none, the taker is not called, and
    /// nothing is consumed.
    ///
    /// # Errors
    ///
    /// Returns `Failed` if the device fails. No byte of the packet was consumed by the call.
    fn next<T: TakePesPacket>(&mut self, taker: &mut T) -> Result<Received<T::Answer>, Failed>
        requires failures { CanFail (failure_count self.old) }
        ensures received { Advances (remaining self.old) (remaining self.new) (left self.new)
            T.is_take taker.old taker.new result }
        ensures rest { faulty_rest_is_answer result ≡ true → may_read_rest self.new ≡ true }
        ensures ready { ready self.old ≡ true → is_ok result ≡ true }
        ensures same { device self.new ≡ device self.old }
        ensures count { CountsFailure (failure_count self.old) result (failure_count self.new) };

    /// Reads remaining bytes after `Rest` into the front of `room`, and returns their number. First
    /// come the bytes that were already read to find the fault. Returns 0 at the end.
    ///
    /// # Errors
    ///
    /// Returns `Failed` if the device fails. No byte was consumed by the call.
    fn read_rest(&mut self, room: &mut [u8; REST_BUFFER_SIZE]) -> Result<usize, Failed>
        requires rest { may_read_rest self.old ≡ true }
        requires failures { CanFail (failure_count self.old) }
        ensures bound { ReadsAtMost result room.new }
        ensures bytes { Pulls (remaining self.old) (remaining self.new) room.new result }
        ensures rest { may_read_rest self.new ≡ true }
        ensures same { device self.new ≡ device self.old }
        ensures count { CountsFailure (failure_count self.old) result (failure_count self.new) };

    /// Returns `true` only if the next call uses no device.
    fn is_ready(&self) -> bool
        ensures { result ≡ true → ready self.now ≡ true };
}
