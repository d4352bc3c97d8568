//! The table of faults: the properties of each fault.
ghost use Rattle.std.specs.Prelude.{◌≡◌};
ghost use Rattle.sub_rules.specs.Fault.{invalidated_frame};

use crate::fault_place::FaultPlace;
use sub_io::FaultCode;

/// A row of the table of faults, which `CheckFault::row` returns.
#[derive(Drop)]
pub struct FaultRow {
    /// The number and name of the fault.
    pub code: FaultCode,
    /// The place of the fault: a block or a text position in the subtitle file; or a PES packet, a
    /// frame, a Teletext packet or a cell; `Nowhere` for `Empty`.
    pub place: FaultPlace,
    /// Whether the fault affects receivers, so its frame cannot be broadcast unchanged.
    pub invalidates: bool,
    /// Whether the PES packet is skipped: reading continues after it.
    pub is_skipped: bool,
}

impl FaultRow {
    /// Returns the first frame that is no longer trusted because of the fault, or `None` if the
    /// fault does not affect receivers. It is the frame of the fault's place, with two exceptions:
    /// a faulty PES packet may belong to `last`, the frame of the last PES packet that was not
    /// skipped, and at the end of a frame an overdue page has been unfinished since the frame
    /// `late`.
    pub fn invalidated(&self, last: u32, late: Option<u32>) -> Option<u32>
        ensures { result ≡ invalidated_frame last late self.now.invalidates self.now.place }
    {
        match self.place {
            _ if !self.invalidates => None,
            FaultPlace::Pes { .. } => Some(last),
            FaultPlace::Packet { frame, .. } => Some(frame),
            FaultPlace::Frame { frame } | FaultPlace::Cell { frame, .. } => {
                Some(late.unwrap_or(frame))
            }
            FaultPlace::Nowhere | FaultPlace::Block { .. } | FaultPlace::Text { .. } => None,
        }
    }
}
