//! Reads a limited number of PES packets.
ghost use Rattle.std.specs.Prelude.{◌≡◌, ◌∷◌, ◌<◌, ◌≤◌, OnErr, OnOk, false, is_ok, true};
ghost use Rattle.sub_io.specs.Device.{CanFail, CountsFailure};
ghost use Rattle.ttx_pes.specs.Advancing.{Advances, HasSkipped, SkipsPesPackets, is_finished};
ghost use Rattle.ttx_pes.specs.Advancing.{left_within_limit};
ghost use Rattle.ttx_pes.specs.Advancing.{limited_known_bytes, is_unlimited_rest};
ghost use Rattle.ttx_pes.specs.Advancing.{faulty_rest_is_answer};
ghost use Rattle.ttx_pes.specs.Advancing as specs;

use crate::passing::skip_pes_packets;
use crate::pes_packets::{PesPackets, REST_BUFFER_SIZE, Received, TakePesPacket};
use sub_io::Failed;

/// A reader of at most a given number of the PES packets of another reader.
#[derive(Drop)]
pub struct LimitedPesPackets<'a, P> {
    inner: &'a mut P,
    // The number of PES packets that may still be read. `None` means no limit.
    left: Option<u64>,
}

impl<'a, P: PesPackets> LimitedPesPackets<'a, P> {
    /// Creates a reader of the next `left` PES packets of `inner`, or of all packets if `left` is
    /// `None`.
    pub fn new(inner: &'a mut P, left: Option<u64>) -> Self
        ensures same { result.inner.ghost_name ≡ inner.entry.ghost_name }
        ensures now { result.inner.now ≡ inner.old }
        ensures left { result.left ≡ left }
    {
        LimitedPesPackets { inner, left }
    }

    /// Skips the first `n` PES packets, or all if the file has fewer. They do not count towards the
    /// limit. Stops if the device fails. Returns the number of skipped packets, and whether the
    /// device failed.
    pub(crate) fn skip_first(&mut self, n: u64) -> (u64, Result<(), Failed>)
        requires failures { CanFail (P.failure_count self.old.inner.now) }
        ensures most { result.0 ≤ n }
        ensures fewer { OnErr result.1 (result.0 < n) }
        ensures skipped { OnOk result.1
            (SkipsPesPackets n (P.remaining self.old.inner.now) (P.remaining self.new.inner.now)
            result.0) }
        ensures so_far { HasSkipped n result.0
            (P.remaining self.old.inner.now) (P.remaining self.new.inner.now) }
        ensures limit { self.new.left ≡ self.old.left }
        ensures same { self.new.inner.ghost_name ∷ P.device self.new.inner.now
            ≡ self.old.inner.ghost_name ∷ P.device self.old.inner.now }
        ensures count { CountsFailure (P.failure_count self.old.inner.now) result.1
            (P.failure_count self.new.inner.now) }
    {
        skip_pes_packets(n, self.inner)
    }
}

impl<P: PesPackets> PesPackets for LimitedPesPackets<'_, P> {
    ghost remaining = { λ l. limited_known_bytes l.left (P.remaining l.inner.now) };

    ghost left = { λ l. left_within_limit l.left (P.remaining l.inner.now) (P.left l.inner.now) };

    ghost failure_count = { λ l. P.failure_count l.inner.now };

    ghost may_read_rest = { λ l. is_unlimited_rest l.left (P.may_read_rest l.inner.now) };

    ghost ready = { λ l. P.ready l.inner.now };

    ghost device = { λ l. l.inner.ghost_name ∷ P.device l.inner.now };

    #[inline(always)]
    fn next<T: TakePesPacket>(&mut self, taker: &mut T) -> Result<Received<T::Answer>, Failed>
        requires failures { CanFail (P.failure_count self.old.inner.now) }
        // Once the limit is reached, no bytes are read.
        ensures over { is_finished self.old.left ≡ true → self.new ≡ self.old }
        ensures received { Advances
            (limited_known_bytes self.old.left (P.remaining self.old.inner.now))
            (limited_known_bytes self.new.left (P.remaining self.new.inner.now))
            (left_within_limit self.new.left (P.remaining self.new.inner.now)
            (P.left self.new.inner.now))
            T.is_take taker.old taker.new result }
        ensures rest { faulty_rest_is_answer result ≡ true
            → is_unlimited_rest self.new.left (P.may_read_rest self.new.inner.now) ≡ true }
        ensures ready { P.ready self.old.inner.now ≡ true → is_ok result ≡ true }
        ensures same { self.new.inner.ghost_name ∷ P.device self.new.inner.now
            ≡ self.old.inner.ghost_name ∷ P.device self.old.inner.now }
        ensures count { CountsFailure (P.failure_count self.old.inner.now) result
            (P.failure_count self.new.inner.now) }
    {
        if is_finished(self.left) {
            return Ok(Received::End);
        }
        let received = self.inner.next(taker)?;
        self.left = limit_after(self.left, &received);
        Ok(received)
    }

    fn read_rest(&mut self, room: &mut [u8; REST_BUFFER_SIZE]) -> Result<usize, Failed> {
        self.inner.read_rest(room)
    }

    fn is_ready(&self) -> bool {
        self.inner.is_ready()
    }
}

// Returns whether the limit is reached, so that no more PES packets may be read.
#[inline(always)]
fn is_finished(left: Option<u64>) -> bool
    ensures { result ≡ is_finished left }
{
    match left {
        Some(left) => left == 0,
        None => false,
    }
}

// Returns the number of PES packets that may be read after this result. Bytes that do not begin
// with a packet remove the limit, since all of them belong to the range.
#[inline(always)]
fn limit_after<A>(left: Option<u64>, received: &Received<A>) -> Option<u64>
    requires { is_finished left ≡ false }
    ensures { result ≡ specs.limit_after left received.now }
{
    match received {
        Received::End => left,
        Received::PesPacket(_) => match left {
            Some(left) => Some(left - 1),
            None => None,
        },
        Received::Rest(_) => None,
    }
}
