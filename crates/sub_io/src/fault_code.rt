//! The numbers and names of faults in reports.
ghost use Rattle.std.specs.Prelude.{◌≡◌, ◌≤◌, length};
ghost use Rattle.sub_io.specs.FaultCode.{fault_code};

use std::marker::Model;

/// The number and the name of a fault in reports. The types of reported faults return it by a
/// method `code`.
///
/// Its model is a `FaultCodeValue`.
#[derive(Drop)]
pub struct FaultCode {
    number: u8,
    name: &'static str,
}

impl Model for FaultCode {
    ghost use Rattle.std.specs.Prelude.{◌≤◌, length};
    ghost use Rattle.sub_io.specs.FaultCode.{FaultCodeValue};

    ghost Value = { FaultCodeValue };

    ghost view = { λ c. record { number = c.number; name = c.name.now } };

    // A name has at most 16 bytes, which limits the length of fault lines.
    ghost invariant = { λ c. length c.name.now ≤ 16 };
}

impl FaultCode {
    /// Creates a code with this number and a name of at most 16 bytes.
    pub fn new(number: u8, name: &'static str) -> FaultCode
        requires { length name.now ≤ 16 }
        ensures { result ≡ fault_code number name.now }
    {
        FaultCode { number, name }
    }

    /// Returns the number of the fault.
    pub fn number(&self) -> u8
        ensures { result ≡ self.now.number }
    {
        self.number
    }

    /// Returns the name of the fault, at most 16 bytes.
    pub fn name(&self) -> &'static str
        ensures value { result.now ≡ self.now.name }
        ensures len { length result.now ≤ 16 }
    {
        self.name
    }
}
