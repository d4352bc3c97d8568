//! Reads a range of the PES packets of a file or recording.
ghost use Rattle.std.specs.Prelude.{◌≡◌, ◌∷◌, ◌≤◌, ℕ, IfErr, IfOk, OnErr, OnOk, Ok, Some};
ghost use Rattle.std.specs.Io.KnownBytes.{Keeps};
ghost use Rattle.sub_io.specs.Device.{CanFail, CountsFailure};
ghost use Rattle.ttx_pes.specs.PartOfPesPackets.{known_part, left_after_part, part_first_index};
ghost use Rattle.ttx_pes.specs.PartOfPesPackets.{is_part_ready};
ghost use Rattle.ttx_pes.specs.PartOfPesPackets.{is_part_rest};

use crate::limited_pes_packets::LimitedPesPackets;
use crate::numbered_pes_packets::{FailedAt, NumberedPesPackets};
use crate::pes_packets::{PesPackets, REST_BUFFER_SIZE, Received, TakePesPacket};
use crate::pes_packets_ahead::PesPacketsAhead;
use sub_io::Failed;

/// A reader of a range of the PES packets of another reader. If the file ends before the range
/// does, both readers end in the same way. No PES packet after the last one of the range is read.
///
/// Callers construct the value in place, because the prover does not track borrows in nested
/// structs that a function returns.
#[derive(Drop)]
pub struct PartOfPesPackets<'a, P> {
    /// Reads the PES packets up to the last packet of the range.
    pub inner: LimitedPesPackets<'a, P>,
    /// Counts the PES packets before the range.
    pub ahead: PesPacketsAhead,
}

impl<P: PesPackets> PartOfPesPackets<'_, P> {
    // Skips the PES packets before the range.
    fn skip_before_range(&mut self) -> Result<u64, FailedAt>
        requires failures { CanFail (P.failure_count self.old.inner.inner.now) }
        ensures kept { Keeps
            (known_part self.old.ahead.to_skip self.old.inner.left
            (P.remaining self.old.inner.inner.now))
            (known_part self.new.ahead.to_skip self.new.inner.left
            (P.remaining self.new.inner.inner.now)) }
        ensures first { (n : ℕ)
            → part_first_index self.old.ahead (P.remaining self.old.inner.inner.now) ≡ Some n
            → IfOk result (λ found. found ≡ n) }
        ensures before { (n : ℕ)
            → part_first_index self.old.ahead (P.remaining self.old.inner.inner.now) ≡ Some n
            → IfErr result (λ at. at.pes ≤ n) }
        ensures failed { IfErr result (λ at. at.pes ≡ self.new.ahead.skipped) }
        ensures left { (n : ℕ)
            → part_first_index self.old.ahead (P.remaining self.old.inner.inner.now) ≡ Some n
            → IfErr result (λ _.
            part_first_index self.new.ahead (P.remaining self.new.inner.inner.now) ≡ Some n) }
        ensures found { OnOk result (self.new.ahead.to_skip ≡ 0) }
        ensures unread { OnErr result (Keeps
            (known_part self.old.ahead.to_skip self.old.inner.left
            (P.remaining self.old.inner.inner.now))
            (left_after_part self.new.ahead.to_skip self.new.inner.left
            (P.remaining self.new.inner.inner.now) (P.left self.new.inner.inner.now))) }
        ensures none { self.old.ahead.to_skip ≡ 0
            → (self.new ≡ self.old) × (result ≡ Ok self.old.ahead.skipped) }
        ensures same { self.new.inner.inner.ghost_name ∷ P.device self.new.inner.inner.now
            ≡ self.old.inner.inner.ghost_name ∷ P.device self.old.inner.inner.now }
        ensures count { CountsFailure (P.failure_count self.old.inner.inner.now) result
            (P.failure_count self.new.inner.inner.now) }
    {
        if self.ahead.to_skip() == 0 {
            return Ok(self.ahead.skipped());
        }
        let (skipped, ended) = self.inner.skip_first(self.ahead.to_skip());
        self.ahead.add_skipped(skipped);
        match ended {
            Ok(()) => {
                self.ahead.stop_skipping();
                Ok(self.ahead.skipped())
            }
            Err(_) => Err(FailedAt {
                pes: self.ahead.skipped(),
            }),
        }
    }
}

impl<P: PesPackets> PesPackets for PartOfPesPackets<'_, P> {
    ghost remaining = { λ p.
        known_part p.ahead.to_skip p.inner.left (P.remaining p.inner.inner.now) };

    ghost left = { λ p. left_after_part p.ahead.to_skip p.inner.left
        (P.remaining p.inner.inner.now) (P.left p.inner.inner.now) };

    ghost failure_count = { λ p. P.failure_count p.inner.inner.now };

    ghost may_read_rest = { λ p. is_part_rest p.ahead.to_skip p.inner.left
        (P.may_read_rest p.inner.inner.now) };

    ghost ready = { λ p. is_part_ready p.ahead.to_skip (P.ready p.inner.inner.now) };

    ghost device = { λ p. p.inner.inner.ghost_name ∷ P.device p.inner.inner.now };

    #[inline(always)]
    fn next<T: TakePesPacket>(&mut self, taker: &mut T) -> Result<Received<T::Answer>, Failed> {
        if self.skip_before_range().is_err() {
            return Err(Failed);
        }
        self.inner.next(taker)
    }

    fn read_rest(&mut self, room: &mut [u8; REST_BUFFER_SIZE]) -> Result<usize, Failed> {
        self.inner.read_rest(room)
    }

    fn is_ready(&self) -> bool {
        self.ahead.to_skip() == 0 && self.inner.is_ready()
    }
}

impl<P: PesPackets> NumberedPesPackets for PartOfPesPackets<'_, P> {
    ghost first = { λ p. part_first_index p.ahead (P.remaining p.inner.inner.now) };

    ghost skipped = { λ p. p.ahead.skipped };

    fn find_first(&mut self) -> Result<u64, FailedAt> {
        self.skip_before_range()
    }
}
