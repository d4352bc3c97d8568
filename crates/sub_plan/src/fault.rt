//! Faults of options, and of writing a schedule.
ghost use Rattle.std.specs.Prelude.{◌≡◌};

use sub_io::FaultCode;
use thiserror::Error;

/// A fault of options. The order of the variants is the order of reports.
#[derive(Clone, Copy, Debug, PartialEq, Eq, Error)]
pub enum OptionFault {
    /// The repeat bound is not 1 to 2,160,000 frames, a day.
    #[error("the repeat bound is not 1 to 2160000 frames")]
    Every,
    /// The PTS of frame 0 does not fit in 33 bits.
    #[error("the PTS of frame 0 is 2^33 or more")]
    Origin,
    /// More than 50 frames, two seconds, are allowed until the page is right.
    #[error("the page is allowed more than 50 frames")]
    Within,
    /// The pace is not 1 to 2,160,000 frames, a day.
    #[error("the pace is not 1 to 2160000 frames")]
    Pace,
}

/// An error of writing a schedule.
#[derive(Clone, Copy, Debug, PartialEq, Eq, Error)]
pub enum PlanFault {
    /// The programme has no subtitle.
    #[error("there is no subtitle")]
    NoSubtitles,
    /// The sink failed, after it received a prefix of the schedule.
    #[error("the schedule could not be written")]
    Write,
}

impl PlanFault {
    ghost use Rattle.sub_plan.specs.Fault.{code_of_plan_fault};

    /// Returns the number and the name of the error for reports.
    pub fn code(self) -> FaultCode
        ensures { result ≡ code_of_plan_fault self }
    {
        match self {
            PlanFault::NoSubtitles => FaultCode::new(82, "NoSubtitles"),
            PlanFault::Write => FaultCode::new(42, "Write"),
        }
    }
}
