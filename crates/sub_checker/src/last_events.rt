//! Reports the events after the end of the last frame.
ghost use Rattle.std.specs.Prelude.{◌≡◌, not};
ghost use Rattle.sub_io.specs.Reporting.{Reports};
ghost use Rattle.sub_rules.specs.Events.{ends_too_early};
ghost use Rattle.sub_rules.specs.Trusted.{reports_no_event};
ghost use Rattle.sub_checker.specs.Checker.{is_currently_pending};
ghost use Rattle.sub_checker.specs.LastEvents.{closing_events_of_checker, fault_events, last_fault};

use crate::checker::Checker;
use crate::rule_changes::report_change;
use sub_packets::Taker;
use sub_rules::{ActiveFaults, CheckFault, Event};

impl<'a> Checker<'a> {
    /// Reports the events after the end of the last frame and `pes` PES packets: the active faults
    /// end, and the last fault follows, if there is one. `fault` is the fault that ended reading.
    pub fn close<A: Taker>(&self, pes: u32, fault: Option<CheckFault>, taker: &mut A)
        ensures { Reports A.is_reported taker.old taker.new
            (closing_events_of_checker pes fault self.now) }
    {
        let none = ActiveFaults::none();
        report_change(&self.active_faults, self.last, &none, self.last, taker);
        report_fault(self.last_fault(pes, fault), taker);
    }

    /// Returns whether `close` reports anything.
    pub fn reports_closing_events(&self, pes: u32, fault: Option<CheckFault>) -> bool
        ensures { result ≡ not (reports_no_event (closing_events_of_checker pes fault self.now)) }
    {
        let is_reported = self.last_fault(pes, fault).is_some();
        is_reported || !self.active_faults.has_none()
    }

    // Returns the last fault to report after `pes` PES packets, if there is one.
    fn last_fault(&self, pes: u32, fault: Option<CheckFault>) -> Option<CheckFault>
        ensures { result ≡ last_fault pes fault self.now }
    {
        if fault.is_some() {
            return fault;
        }
        if self.counts.frames == 0 {
            if pes > 0 {
                return None;
            }
            return Some(CheckFault::Empty);
        }
        if ends_too_early(self.programme.last_tco(), self.last) || self.is_pending() {
            Some(CheckFault::Late { frame: self.last })
        } else {
            None
        }
    }

    // Returns whether the page is unfinished at the end of the last frame but not yet overdue: it
    // could have become finished in a later frame. Returns false if `within` is 0.
    fn is_pending(&self) -> bool
        ensures { result ≡ is_currently_pending self.now }
    {
        self.within > 0
            && self.first_unfinished.is_some()
            && !self.is_overdue(self.first_unfinished, self.last)
    }
}

#[tactic(auto, using(sub_io::proofs::ReportingLemmas::tellings))]
fn report_fault<A: Taker>(fault: Option<CheckFault>, taker: &mut A)
    ensures { Reports A.is_reported taker.old taker.new
        (fault_events fault) }
{
    if let Some(fault) = fault {
        taker.report(Event::Reported(fault));
    }
}

// Returns whether the last TCO is after `frame`, the frame that was ended last.
fn ends_too_early(last_tco: Option<u32>, frame: u32) -> bool
    ensures { result ≡ ends_too_early last_tco frame }
{
    match last_tco {
        Some(last) => frame < last,
        None => false,
    }
}
