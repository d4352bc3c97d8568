//! The faults that are active at the end of a frame.
ghost use Rattle.std.specs.Prelude.{◌≡◌, ◌↔◌, IsTrue};
ghost use Rattle.sub_rules.specs.Events.{place_of_broken_rule, no_active_faults};
ghost use Rattle.sub_rules.specs.Events.{entire_frame_place};
ghost use Rattle.sub_rules.specs.Trusted.{has_no_active_faults};

use crate::end_rule::EndRule;

/// The active faults: the rules that are broken at the end of a frame.
#[derive(Drop)]
pub struct ActiveFaults {
    /// The row, 1 to 24, and the column, 0 to 39, of the first cell with a fault, if there is one.
    /// If `within` is not 0, a cell has a fault only if the page is overdue and the cell is wrong,
    /// or if the page is not overdue and the cell has a code, other than a space, that was expected
    /// neither at this frame nor, from the first frame on, at one of the `within` frames before.
    pub content: Option<(u8, u8)>,
    /// Whether the repeat bound is exceeded: so many frames had no header of the page.
    pub gap: bool,
    /// Whether complete pages are required, and the page is open and, if `within` is not 0,
    /// overdue.
    pub incomplete: bool,
    /// Whether the expected page is unknown or, from the first frame on, was unknown at one of the
    /// `within` frames before, because a subtitle is unreliable: rejected, faulty or out of order.
    pub undecided: bool,
    /// Whether the pace is exceeded: so many frames had no PES packet.
    pub silent: bool,
}

impl ActiveFaults {
    /// Creates the state in which no fault is active.
    pub fn none() -> Self
        ensures { result ≡ no_active_faults }
    {
        ActiveFaults {
            content: None,
            gap: false,
            incomplete: false,
            undecided: false,
            silent: false,
        }
    }

    /// Returns whether no fault is active.
    #[inline(always)]
    #[tactic(auto, unfolding(crate::specs::Events::end_rules))]
    pub fn has_none(&self) -> bool
        ensures is_none { IsTrue result ↔ (self.now ≡ no_active_faults) }
        ensures none { result ≡ has_no_active_faults self.now }
    {
        // One test without branches, because `has_none` runs at the end of each frame.
        self.content.is_none() & !self.gap & !self.incomplete & !self.undecided & !self.silent
    }

    /// Returns the place at which a rule is broken: the first cell with a fault, or row 0 and
    /// column 0 for a rule about the entire frame. Returns `None` if the rule is not broken.
    pub fn at(&self, rule: EndRule) -> Option<(u8, u8)>
        ensures { result ≡ place_of_broken_rule rule self.now }
    {
        match rule {
            EndRule::Content => self.content,
            EndRule::Gap => entire_frame_place(self.gap),
            EndRule::Incomplete => entire_frame_place(self.incomplete),
            EndRule::Undecided => entire_frame_place(self.undecided),
            EndRule::Silent => entire_frame_place(self.silent),
        }
    }
}

// Returns row 0 and column 0 if a rule about the entire frame is broken; otherwise `None`.
fn entire_frame_place(is_broken: bool) -> Option<(u8, u8)>
    ensures { result ≡ entire_frame_place is_broken }
{
    if is_broken { Some((0, 0)) } else { None }
}
