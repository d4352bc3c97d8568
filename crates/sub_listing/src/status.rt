//! The exit status of the program.
ghost use Rattle.std.specs.Prelude.{◌≡◌};
ghost use Rattle.sub_listing.specs.Listing.{exit_code};

/// The exit status of the program.
#[derive(Clone, Copy, Debug, PartialEq, Eq)]
pub enum Status {
    /// Status 0: the command succeeded, or the input is accepted.
    Done,
    /// Status 1: the input is rejected, and a line gives the reason.
    Refused,
    /// Status 2: the arguments are invalid, a file can't or must not be opened or created, memory
    /// ran out, or a device failed.
    Fault,
}

impl Status {
    /// Returns the exit status as a number.
    pub fn code(self) -> u8
        ensures { result ≡ exit_code self }
    {
        match self {
            Status::Done => 0,
            Status::Refused => 1,
            Status::Fault => 2,
        }
    }
}
