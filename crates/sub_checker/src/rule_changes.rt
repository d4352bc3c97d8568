//! Reports the changes of the active faults at the end of a frame.
ghost use Rattle.std.specs.Prelude.{◌≡◌, ◌==◌, ◌&&◌, ℕ};
ghost use Rattle.sub_io.specs.Reporting.{Reports};
ghost use Rattle.sub_rules.specs.Events.{place_of_broken_rule, end_events, end_rule_fault};
ghost use Rattle.sub_rules.specs.Events.{end_rules, rule_events};

use sub_packets::{Taker, report_if};
use sub_rules::{ActiveFaults, CheckFault, EndRule, Event};

// The rules that are checked at the end of a frame, in the order of their reports.
const RULES: [EndRule; 5] = [
    EndRule::Content,
    EndRule::Gap,
    EndRule::Incomplete,
    EndRule::Undecided,
    EndRule::Silent,
];

/// Reports the changes from `old`, the active faults at the end of frame `before`, to `new`, those
/// at the end of `frame`.
#[inline(never)]
pub(crate) fn report_change<A: Taker>(
    old: &ActiveFaults,
    before: u32,
    new: &ActiveFaults,
    frame: u32,
    taker: &mut A,
)
    ensures { Reports A.is_reported taker.old taker.new
        (end_events old.now before new.now frame) }
{
    for rule in &RULES {
        report_rule_change(*rule, old, before, new, frame, taker);
    }
}

// Reports that a fault of this rule ended, became active, or is now at another cell, if it did.
fn report_rule_change<A: Taker>(
    rule: EndRule,
    old: &ActiveFaults,
    before: u32,
    new: &ActiveFaults,
    frame: u32,
    taker: &mut A,
)
    ensures { Reports A.is_reported taker.old taker.new
        (rule_events rule (place_of_broken_rule rule old.now) before (place_of_broken_rule rule
        new.now) frame) }
{
    report_place_change(rule, old.at(rule), before, new.at(rule), frame, taker)
}

// Reports that a fault ended, became active, or is now at another cell, if it did.
#[tactic(auto, using(sub_io::proofs::ReportingLemmas::tellings))]
fn report_place_change<A: Taker>(
    rule: EndRule,
    old: Option<(u8, u8)>,
    before: u32,
    new: Option<(u8, u8)>,
    frame: u32,
    taker: &mut A,
)
    ensures { Reports A.is_reported taker.old taker.new
        (rule_events rule old before new frame) }
{
    let ended = Event::Ended {
        rule,
        frame: before,
    };
    let Some(cell) = new else {
        report_if(old.is_some(), ended, taker);
        return;
    };
    let reported = Event::Reported(fault_of(rule, frame, cell));
    let Some(old_cell) = old else {
        taker.report(reported);
        return;
    };
    if is_same_cell(old_cell, cell) {
        return;
    }
    taker.report(ended);
    taker.report(reported);
}

// Returns the fault for a broken rule. Only `Content` contains the cell.
fn fault_of(rule: EndRule, frame: u32, cell: (u8, u8)) -> CheckFault
    ensures { result ≡ end_rule_fault rule frame cell }
{
    let (row, column) = cell;
    match rule {
        EndRule::Content => CheckFault::Content { frame, row, column },
        EndRule::Gap => CheckFault::Gap { frame },
        EndRule::Incomplete => CheckFault::Incomplete { frame },
        EndRule::Undecided => CheckFault::Undecided { frame },
        EndRule::Silent => CheckFault::Silent { frame },
    }
}

fn is_same_cell(a: (u8, u8), b: (u8, u8)) -> bool
    ensures { result ≡ (a.0 == b.0 && a.1 == b.1) }
{
    a.0 == b.0 && a.1 == b.1
}
