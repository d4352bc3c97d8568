//! The events that are reported for a PES file, in order.
use crate::end_rule::EndRule;
use crate::fault::CheckFault;

/// An event of checking a PES file: a fault, the end of a fault, the end of a run of skipped PES
/// packets, or frames that can be broadcast unchanged.
#[derive(Clone, Copy, Debug, PartialEq, Eq)]
pub enum Event {
    /// A fault, such as a broken rule. For a rule that is checked at the end of each frame, the
    /// event is reported only if the fault was not already active at this place at the end of the
    /// frame that was ended before.
    Reported(CheckFault),
    /// An active fault has ended.
    Ended {
        /// The rule that was broken.
        rule: EndRule,
        /// The last frame at whose end the rule was broken at the reported place.
        frame: u32,
    },
    /// Several consecutive PES packets were skipped because of the same fault. The fault of the
    /// first packet was reported before; this event has the fault of the last.
    SkippedUntil(CheckFault),
    /// Trusted frames: frames that can be broadcast unchanged, whatever is wrong elsewhere. They
    /// have no fault that affects receivers, and the first frame has a header of the page.
    Trusted {
        /// The first trusted frame.
        from: u32,
        /// The last trusted frame.
        to: u32,
    },
}
