//! The rules that are checked at the end of a frame.
ghost use Rattle.std.specs.Prelude.{◌≡◌};

use sub_io::FaultCode;

/// A rule that is checked at the end of each frame. It may stay broken for several frames.
#[derive(Clone, Copy, Debug, PartialEq, Eq)]
pub enum EndRule {
    /// If the expected page is known, each cell has the expected code, and each row with expected
    /// text was sent since the last header of the page, while the page was open. If `within` is not
    /// 0, it is enough until the page is overdue that each cell has a space or a code that was
    /// expected at this frame or, from the first frame on, at one of the `within` frames before, or
    /// that the expected page was unknown at one of these frames.
    Content,
    /// The page has had a header within the repeat bound, or the transmission is still shorter.
    Gap,
    /// If complete pages are required, the page is not open. If `within` is not 0, it may be open
    /// until it is overdue.
    Incomplete,
    /// The expected page is known, and so are, from the first frame on, those of the `within`
    /// frames before: no unreliable subtitle may be expected.
    Undecided,
    /// A PES packet has come within the pace, if a pace is required.
    Silent,
}

impl EndRule {
    ghost use Rattle.sub_rules.specs.Fault.{code_of_end_rule};

    /// Returns the number and name of the fault for a broken rule (not defined by a standard).
    pub fn code(self) -> FaultCode
        ensures { result ≡ code_of_end_rule self }
    {
        match self {
            EndRule::Content => FaultCode::new(72, "Content"),
            EndRule::Gap => FaultCode::new(73, "Gap"),
            EndRule::Incomplete => FaultCode::new(77, "Incomplete"),
            EndRule::Undecided => FaultCode::new(78, "Undecided"),
            EndRule::Silent => FaultCode::new(79, "Silent"),
        }
    }
}
