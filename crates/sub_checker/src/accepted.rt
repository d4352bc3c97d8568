//! The counts that the checker returns for a PES file.
ghost use Rattle.std.specs.Prelude.{◌≡◌};
ghost use Rattle.sub_rules.specs.Fault.{is_pes_read_failure};

use sub_rules::CheckFault;
use ttx_pes::PesFault;

/// The counts of the PES packets read: the frames that they span, and their headers of the page.
#[derive(Clone, Copy, Debug, PartialEq, Eq)]
pub struct Accepted {
    /// The number of frames from the frame of the first PES packet that was not skipped to the
    /// greatest frame number; 0 if there is none.
    pub frames: u64,
    /// The number of headers of the page in the PES packets that were not skipped.
    pub headers: u64,
}

/// Returns whether the fault is a failure to read the PES file.
pub(crate) fn is_source_failure(fault: &CheckFault) -> bool
    ensures { result ≡ is_pes_read_failure fault.now }
{
    match fault {
        CheckFault::Pes { fault, .. } => *fault == PesFault::Read,
        _ => false,
    }
}
