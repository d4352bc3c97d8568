//! The PID by which transport packets are selected.
ghost use Rattle.std.specs.Prelude.{◌≡◌, ◌≤◌, None, Some};

use std::marker::Model;

/// A PID, 0 to 8190. The PID 8191 is excluded, since it marks null packets (ISO/IEC 13818-1).
///
/// Its model is its number.
#[derive(Clone, Copy, Debug, PartialEq, Eq)]
pub struct Pid {
    number: u16,
}

impl Model for Pid {
    ghost use Rattle.std.specs.Prelude.{ℕ, ◌≤◌};
    ghost use Rattle.mpeg_ts.specs.Pid.{greatest_pid};

    ghost Value = { ℕ };

    ghost view = { λ p. p.number };

    ghost invariant = { λ p. p.number ≤ greatest_pid };

    ghost inverse = { λ number. record { number = number } };
}

impl Pid {
    ghost use Rattle.mpeg_ts.specs.Pid.{greatest_pid, pid_with_number};

    /// Creates a PID from its number. Returns `None` if the number is greater than 8190.
    pub fn new(number: u16) -> Option<Pid>
        ensures { result ≡ pid_with_number number }
    {
        if number > 8190 {
            return None;
        }
        Some(Pid { number })
    }

    /// Returns the number of the PID, 0 to 8190.
    pub fn number(self) -> u16
        ensures number { result ≡ self }
        ensures bound { result ≤ greatest_pid }
    {
        self.number
    }
}
