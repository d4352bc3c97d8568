//! The set of rules that a packet breaks.
ghost use Rattle.std.specs.Prelude.{◌≡◌, ◌+◌, ◌*◌, ◌==◌, ◌<◌, ◌≤◌, Bool, map};
ghost use Rattle.std.specs.Prelude.{if◌then◌else◌};
ghost use Rattle.std.specs.List.{filter};
ghost use Rattle.sub_io.specs.Reporting.{Reports};
ghost use Rattle.sub_rules.specs.Events.{packet_fault};
ghost use Rattle.sub_packets.specs.Listener.{rule_set};
ghost use Rattle.sub_rules.specs.PacketTests.{packet_rules};

use crate::taker::{Taker, report_if};
use sub_rules::{CheckFault, Event, PacketRule};

// The rules for packets, in the order of their reports.
const RULES: [PacketRule; 7] = [
    PacketRule::Address,
    PacketRule::HeaderCode,
    PacketRule::Mode,
    PacketRule::Control,
    PacketRule::Parity,
    PacketRule::RowChanged,
    PacketRule::Enhancement,
];

/// The rules that a packet breaks, as a set: one bit per rule, the first rule in the lowest bit.
/// While the set is built, from the last rule to the first, the lowest bit is that of the first
/// rule so far.
#[derive(Clone, Copy)]
pub(crate) struct RuleSet(u8);

impl RuleSet {
    /// Returns the empty set of rules.
    pub fn none() -> RuleSet
        ensures { result.0 ≡ 0 }
    {
        RuleSet(0)
    }

    /// Adds the rule that comes before all others of the set in report order, if `is_broken`, and
    /// returns the set.
    #[inline(always)]
    pub fn with_earlier_rule(self, is_broken: bool) -> RuleSet
        requires room { self.0 < 0x80 }
        ensures set { result.0 ≡ (if is_broken then 1 else 0) + 2 * self.0 }
        ensures small { result.0 ≤ 2 * self.0 + 1 }
    {
        RuleSet(is_broken as u8 + 2 * self.0)
    }

    /// Returns which of the rules from `Control` on a row breaks.
    #[inline(always)]
    pub fn of_row(has_even_byte: bool, has_changed: bool) -> RuleSet
        ensures { result.0
            ≡ 2 * (if has_even_byte then 1 else 0) + 4 * (if has_changed then 1 else 0) }
    {
        RuleSet(2 * (has_even_byte as u8) + 4 * (has_changed as u8))
    }

    /// Returns the set of the rules from `Control` on with only `Enhancement`, if `is_broken`,
    /// otherwise the empty set.
    #[inline(always)]
    pub fn of_enhancement(is_broken: bool) -> RuleSet
        ensures { result.0 ≡ 8 * (if is_broken then 1 else 0) }
    {
        RuleSet(8 * (is_broken as u8))
    }

    /// Returns whether the set of rules is empty.
    pub fn has_none(self) -> bool
        ensures { result ≡ (self.0 == 0) }
    {
        self.0 == 0
    }
}

/// Reports each rule that packet `packet` of frame `frame` breaks.
pub(crate) fn report_rules<A: Taker>(rules: RuleSet, frame: u32, packet: u32, taker: &mut A)
    ensures { (test : PacketRule → Bool) → rules.0 ≡ rule_set test packet_rules
        → Reports A.is_reported taker.old taker.new
        (map (λ r. Event.Reported (packet_fault r frame packet)) (filter test packet_rules)) }
{
    if rules.has_none() {
        return;
    }
    let mut left = rules.0;
    for rule in &RULES {
        let reported = Event::Reported(fault_of(*rule, frame, packet));
        report_if(left % 2 == 1, reported, taker);
        left /= 2;
    }
}

// Returns the fault for a packet that breaks `rule`.
fn fault_of(rule: PacketRule, frame: u32, packet: u32) -> CheckFault
    ensures { result ≡ packet_fault rule frame packet }
{
    match rule {
        PacketRule::Address => CheckFault::Address { frame, packet },
        PacketRule::HeaderCode => CheckFault::HeaderCode { frame, packet },
        PacketRule::Mode => CheckFault::Mode { frame, packet },
        PacketRule::Control => CheckFault::Control { frame, packet },
        PacketRule::Parity => CheckFault::Parity { frame, packet },
        PacketRule::RowChanged => CheckFault::RowChanged { frame, packet },
        PacketRule::Enhancement => CheckFault::Enhancement { frame, packet },
    }
}
