//! The times of a subtitle: TCI and TCO.

ghost use Rattle.std.specs.Prelude.{◌≡◌};
ghost use Rattle.stl_file.specs.Subtitle.{IsSubtitle};
ghost use Rattle.stl_rows.specs.Programme.{order_faults, times_of};
ghost use Rattle.stl_rows.specs.TextCode.{first_of};

use crate::fault::LoadFaultKind;
use stl_file::Subtitle;

/// The TCI and the TCO of a subtitle, as frames of the day.
#[derive(Clone, Copy)]
pub(crate) struct Times {
    // TCI, the first frame at which the subtitle is shown.
    pub(crate) tci: u32,
    // TCO, the first frame at which the subtitle is no longer shown.
    pub(crate) tco: u32,
}

impl Times {
    // Returns the TCI and the TCO of a subtitle.
    pub(crate) fn of(subtitle: &Subtitle) -> Times
        ensures value { result ≡ times_of subtitle.now }
        ensures subtitle { IsSubtitle subtitle.now }
    {
        Times {
            tci: subtitle.tci().frame(),
            tco: subtitle.tco().frame(),
        }
    }

    // Returns the fault of these times, if any, compared with the times of the previous subtitle.
    pub(crate) fn order_fault_after(self, before: Option<Times>) -> Option<LoadFaultKind>
        ensures { result ≡ first_of (order_faults before self) }
    {
        let before = before?;
        if self.tci < before.tci {
            return Some(LoadFaultKind::OutOfOrder);
        }
        if self.tci < before.tco {
            return Some(LoadFaultKind::Overlap);
        }
        None
    }
}
