//! Flushes pending reports before a read that may block.
ghost use Rattle.std.specs.Prelude.{◌≡◌, OnOk, false, is_err};
ghost use Rattle.sub_io.specs.Flushing.{BuffersOnlyWhilePending, KeepsReports};
ghost use Rattle.ttx_pes.specs.BorrowedPacket.{NothingIsPendingUnlessReady};

use crate::fused::FusedAudience;
use sub_io::{LiveReportSink, Stopped};
use sub_rules::Event;
use ttx_pes::{PesPackets, flush_first};

/// Flushes pending reports if reading the next PES packet may block.
///
/// # Errors
///
/// Returns `Stopped` if the reports cannot be flushed.
pub(crate) fn flush_reports<P: PesPackets, A: LiveReportSink<Event>>(
    source: &P,
    fused: &mut FusedAudience<'_, A>,
) -> Result<(), Stopped>
    requires { fused.old.stopped ≡ false }
    ensures reported { KeepsReports A.is_reported A.has_pending_reports fused.old.device.now
        fused.new.device.now }
    ensures same { fused.new.device.ghost_name ≡ fused.old.device.ghost_name }
    ensures stopped { fused.new.stopped ≡ is_err result }
    ensures settled { OnOk result
        (NothingIsPendingUnlessReady (A.has_pending_reports fused.new.device.now)
        (P.ready source.now)) }
    ensures holds { BuffersOnlyWhilePending A.has_pending_reports A.buffered fused.old.device.now
        → OnOk result (BuffersOnlyWhilePending A.has_pending_reports A.buffered
        fused.new.device.now) }
{
    let flushed = flush_first(source, fused.device);
    fused.stopped = flushed.is_err();
    flushed
}
