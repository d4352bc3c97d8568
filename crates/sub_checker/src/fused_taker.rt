//! Passes events to the device of a `FusedAudience`.
ghost use Rattle.sub_checker.specs.FusedAudience.{ReportsUnlessStopped};

use crate::fused::FusedAudience;
use sub_io::ReportSink;
use sub_packets::Taker;
use sub_rules::Event;

impl<A: ReportSink<Event>> Taker for FusedAudience<'_, A> {
    ghost is_reported = { ReportsUnlessStopped A.is_reported };

    /// Reports the event to the device, unless the device has stopped the check.
    fn report(&mut self, event: Event) {
        if self.stopped {
            return;
        }
        self.stopped = self.device.report(event).is_err();
    }
}
