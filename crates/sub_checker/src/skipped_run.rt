//! Runs of consecutive PES packets that are skipped because of the same fault.
ghost use Rattle.std.specs.Prelude.{◌≡◌};
ghost use Rattle.sub_io.specs.Reporting.{first_as_list};
ghost use Rattle.sub_rules.specs.PesPacketEvents.{run_ending_events, continues, continues_after};
ghost use Rattle.sub_rules.specs.PesPacketEvents.{is_after};
ghost use Rattle.sub_rules.specs.PesPacketEvents.{continues_skipped_run};
ghost use Rattle.sub_rules.specs.PesPacketEvents.{no_run, skipped_run_after};
ghost use Rattle.sub_checker.specs.StoredSkippedRun.{skipped_run_of, stored_run};

use sub_rules::{CheckFault, Event, FaultPlace};

/// The current run of consecutive PES packets that are skipped because of the same fault.
#[derive(Clone, Copy)]
pub(crate) struct StoredSkippedRun {
    /// The fault of the last packet of the run; `None` if there is no current run.
    pub last: Option<CheckFault>,
    /// Whether the run has more than one packet.
    pub many: bool,
}

impl StoredSkippedRun {
    /// Returns the state before the first PES packet, without a run.
    pub fn new() -> Self
        ensures { result ≡ stored_run no_run }
    {
        StoredSkippedRun {
            last: None,
            many: false,
        }
    }

    /// Returns whether the event continues the run of skipped PES packets.
    #[tactic(auto, unfolding(sub_rules::specs::PesPacketEvents::continues_skipped_run))]
    pub fn continues_skipped_run(&self, event: &Event) -> bool
        ensures { result ≡ continues_skipped_run (skipped_run_of self.now) event.now }
    {
        match event {
            Event::Reported(fault) => follows(&self.last, fault),
            _ => false,
        }
    }

    /// Returns the run of skipped PES packets after the event.
    #[tactic(auto, unfolding(sub_rules::specs::PesPacketEvents::skipped_run_after))]
    pub fn after(&self, event: &Event) -> StoredSkippedRun
        ensures { result ≡ stored_run (skipped_run_after (skipped_run_of self.now) event.now) }
    {
        match event {
            Event::Reported(fault) => StoredSkippedRun {
                last: if (*fault).row().is_skipped {
                    Some(*fault)
                } else {
                    None
                },
                many: follows(&self.last, fault),
            },
            _ => StoredSkippedRun::new(),
        }
    }

    /// Returns the event that reports the last packet of the run; `None` if the run has only one
    /// packet or there is no run.
    pub fn ended(&self) -> Option<Event>
        ensures { first_as_list result ≡ run_ending_events (skipped_run_of self.now) }
    {
        match self.last {
            Some(fault) if self.many => Some(Event::SkippedUntil(fault)),
            _ => None,
        }
    }
}

// Returns whether `fault` is the fault of a skipped PES packet right after the packet of `last` and
// has the same number; `false` if `last` is `None`.
fn follows(last: &Option<CheckFault>, fault: &CheckFault) -> bool
    ensures { result ≡ continues_after last.now fault.now }
{
    match last {
        Some(last) => continues(last, fault),
        None => false,
    }
}

// Returns whether `fault` continues the run of skipped PES packets whose last fault is `last`.
#[tactic(auto, unfolding(sub_rules::specs::PesPacketEvents::continues))]
fn continues(last: &CheckFault, fault: &CheckFault) -> bool
    ensures { result ≡ continues last.now fault.now }
{
    let (before, row) = ((*last).row(), (*fault).row());
    row.is_skipped && is_after(before.place, row.place) && row.code.number() == before.code.number()
}

// Returns whether `place` is the PES packet right after the packet at `last`.
fn is_after(last: FaultPlace, place: FaultPlace) -> bool
    ensures { result ≡ is_after last place }
{
    match (last, place) {
        (FaultPlace::Pes { pes: last }, FaultPlace::Pes { pes }) => {
            u64::from(pes) == u64::from(last) + 1
        }
        _ => false,
    }
}
