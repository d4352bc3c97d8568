//! Protects a device from events after it has stopped the check.
//!
//! With this wrapper, functions need not return whether to stop. The ghost field `agrees` says that
//! `stopped` is true exactly if the device has stopped the check.
ghost use Rattle.std.specs.Prelude.{◌≡◌};

use sub_io::ReportSink;
use sub_rules::Event;

/// Passes events to a device until it stops the check.
#[derive(Drop)]
pub(crate) struct FusedAudience<'a, A: ReportSink<Event>> {
    /// The device that receives the events.
    pub device: &'a mut A,
    /// Whether the device has stopped the check.
    pub stopped: bool,

    ghost agrees: { A.has_stopped device.now ≡ stopped },
}
