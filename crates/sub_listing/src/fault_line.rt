//! The line of a fault, which also determines the exit status.
ghost use Rattle.std.specs.Prelude.{◌≡◌};
ghost use Rattle.sub_listing.specs.FaultLine.{status_of, counted_from};

use crate::status::Status;
use sub_io::FaultCode;
use sub_rules::FaultPlace;

/// The kind of a fault, printed as the first word of its line.
#[derive(Clone, Copy)]
pub enum Kind {
    /// `refused`: the input is rejected.
    Refused,
    /// `fault`: a device failed, memory ran out, or a file can't or must not be opened or created.
    Fault,
    /// `usage`: the arguments are invalid.
    Usage,
}

/// The contents of the line of a fault.
#[derive(Drop)]
pub struct FaultLine {
    /// The kind of the fault, which is the first word of the line.
    pub kind: Kind,
    /// The number and the name of the fault.
    pub code: FaultCode,
    /// The place of the fault.
    pub place: FaultPlace,
    /// The number from which the PES packets of `place` are counted, such as the number, in its
    /// file, of the first PES packet to read.
    pub first: u64,
}

impl FaultLine {
    /// Returns the line of the fault with PES packets counted from the number `first`.
    pub fn counted_from(self, first: u64) -> FaultLine
        ensures { result ≡ counted_from first self }
    {
        let FaultLine {
            kind,
            code,
            place,
            first: _,
        } = self;
        FaultLine {
            kind,
            code,
            place,
            first,
        }
    }

    /// Returns the exit status that belongs to the line.
    pub fn status(&self) -> Status
        ensures { result ≡ status_of self.now.kind }
    {
        match self.kind {
            Kind::Refused => Status::Refused,
            Kind::Fault | Kind::Usage => Status::Fault,
        }
    }
}
