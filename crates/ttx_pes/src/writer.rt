//! Writes the canonical packets of frames.
ghost use Rattle.std.specs.Prelude.{◌≡◌, ◌+◌, ◌<◌, ◌≤◌, ◌++◌, length, Err, IfErr, is_err, true};
ghost use Rattle.std.specs.Prelude.{false, if◌then◌else◌};
ghost use Rattle.sub_io.specs.Device.{CanFail, CountsFailureIf, Writes, failed};
ghost use Rattle.ttx_pes.specs.Fault.{is_write_fault};
ghost use Rattle.ttx_pes.specs.declared.fault.PesFault.TheVariants.{Ended, Write};
ghost use Rattle.ttx_pes.specs.PesGrammar.{canonical_packet, max_pes_packet_size};

use crate::data_unit::{add_stuffing, add_unit};
use crate::fault::PesFault;
use crate::pes_frame::PesFrame;
use crate::pes_header::{MAX_PES_PACKET_SIZE, canonical_header};
use arrayvec::ArrayVec;
use std::marker::Model;
use sub_io::{Sink, put_all};

/// The bytes of a PES packet that is being written.
pub(crate) type Bytes = ArrayVec<u8, MAX_PES_PACKET_SIZE>;

// Appends bytes to a packet that has space for them.
pub(crate) fn add(out: &mut Bytes, bytes: &[u8])
    requires { length out.old.items + length bytes.now ≤ max_pes_packet_size }
    ensures items { out.new.items ≡ out.old.items ++ bytes.now }
    ensures len { length out.new.items ≡ length out.old.items + length bytes.now }
{
    out.try_extend_from_slice(bytes).unwrap();
}

// Returns the canonical packet with the contents of a `PesFrame`.
#[tactic(auto, using(crate::proofs::PesGrammarLemmas::packing))]
pub(crate) fn packet_of(frame: &PesFrame) -> Bytes
    ensures { result.items ≡ canonical_packet frame.now }
{
    let units = frame.units();
    let n = units.len() / 4 + 1;
    let mut out = canonical_header(n as u16, frame.pts());
    for unit in units {
        add_unit(&mut out, unit);
    }
    for _ in 0..4 * n - 1 - units.len() {
        add_stuffing(&mut out);
    }
    out
}

/// A writer of PES packets with Teletext units.
#[derive(Drop)]
pub struct PesWriter {
    broken: bool,
}

impl Model for PesWriter {
    ghost use Rattle.std.specs.Prelude.{Bool};

    // Its model: whether a write has failed.
    ghost Value = { Bool };

    ghost view = { λ w. w.broken };
}

impl PesWriter {
    /// Creates a writer.
    pub fn new() -> Self
        ensures { result ≡ false }
    {
        PesWriter { broken: false }
    }

    /// Writes the canonical packet of a frame: its units in order, then stuffing units, in the
    /// smallest number of payloads of 184 bytes (EN 300 472; the choice of stuffing is not defined
    /// by a standard).
    ///
    /// # Errors
    ///
    /// Returns `Write` if the sink fails; a prefix of the packet was written. Each later call
    /// returns `Ended` and writes nothing.
    pub fn put<K: Sink>(&mut self, sink: &mut K, frame: &PesFrame) -> Result<(), PesFault>
        requires { CanFail (K.failure_count sink.old) }
        ensures bytes { Writes (K.contents sink.old) (K.contents sink.new)
            (canonical_packet frame.now) result }
        ensures faults { IfErr result (λ fault. fault ≡ (if self.old then Ended else Write)) }
        ensures ended { self.old ≡ true → (result ≡ Err Ended) × (sink.new ≡ sink.old) }
        ensures state { self.new ≡ is_err result }
        ensures count { CountsFailureIf K.failure_count sink.old (failed is_write_fault result)
            sink.new }
    {
        if self.broken {
            return Err(PesFault::Ended);
        }
        let bytes = packet_of(frame);
        if put_all(sink, bytes.as_slice()).is_err() {
            self.broken = true;
            return Err(PesFault::Write);
        }
        Ok(())
    }
}
