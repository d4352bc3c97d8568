//! The report sink of `check`, which stores the first fault.
ghost use Rattle.std.specs.Prelude.{◌≡◌, Option, None, Some, IfSome, is_some, false, not, true};
ghost use Rattle.std.proofs.Common.{refl, subst, sym};
ghost use Rattle.sub_check.specs.FirstReported.{IsPesFileFault, KeepsFirstFault};
ghost use Rattle.sub_check.specs.FirstReported.{is_pes_file_fault};
ghost use Rattle.sub_rules.specs.declared.fault.CheckFault.{CheckFault};

use std::marker::Model;
use sub_io::{Live, LiveReportSink, ReportSink, Stopped};
use sub_rules::{CheckFault, Event};
use ttx_pes::PesFault;

/// A report sink that stores the first fault in the PES file and stops the check there. It ignores
/// all other events.
///
/// Its model is the stored fault.
#[derive(Drop)]
pub struct FirstFault {
    fault: Option<CheckFault>,
}

impl Model for FirstFault {
    ghost Value = { Option CheckFault };

    ghost view = { λ f. f.fault };

    ghost invariant = { λ f. IfSome f.fault IsPesFileFault };
}

impl FirstFault {
    /// Creates a report sink that has received no event.
    pub fn new() -> Self
        ensures { result ≡ None }
    {
        FirstFault { fault: None }
    }

    /// Returns the stored fault, after the check was stopped.
    pub fn into_fault(self) -> CheckFault
        requires { is_some self ≡ true }
        ensures kept { self ≡ Some result }
        ensures own { IsPesFileFault result }
    {
        match self.fault {
            Some(fault) => fault,
            None => unreachable!(),
        }
    }
}

impl ReportSink<Event> for FirstFault {
    ghost is_reported = { KeepsFirstFault };

    ghost has_stopped = { λ f. is_some f };

    // Stores the fault of the event and stops the check, if the fault is in the PES file.
    #[tactic(auto, using(sub_io::proofs::ReportingLemmas::tellings))]
    fn report(&mut self, item: Event) -> Result<(), Stopped> {
        match item {
            Event::Reported(fault) if is_pes_file_fault(&fault) => {
                self.fault = Some(fault);
                Err(Stopped)
            }
            _ => Ok(()),
        }
    }
}

impl Live for FirstFault {
    ghost has_pending_reports = { λ _. false };

    ghost buffered = { λ _. 0 };

    ghost is_flushed = { λ old ok new. (new ≡ old) × (is_some new ≡ not ok) };

    // Returns `false`, since the fault is stored in memory and no report is pending.
    fn has_pending(&self) -> bool {
        false
    }

    // Does nothing. Returns `Stopped` if a fault is stored.
    fn flush_pending(&mut self) -> Result<(), Stopped> {
        if self.fault.is_some() {
            return Err(Stopped);
        }
        Ok(())
    }
}

impl LiveReportSink<Event> for FirstFault {
    ghost flush_keeps_reports = { record {
      reported = λ before old new item ok reported has_pending on.
          subst (λ d. KeepsFirstFault before item d) (sym on.0) reported;
      stopped = λ old new ok on. on.1;
      has_pending = λ before new item reported still. refl;
    } };
}

// Returns whether a fault is in the PES file: it is neither a fault of the subtitle file nor a
// device failure.
fn is_pes_file_fault(fault: &CheckFault) -> bool
    ensures is { result ≡ is_pes_file_fault fault.now }
    ensures own { result ≡ true → IsPesFileFault fault.now }
{
    match fault {
        CheckFault::Subtitles(_)
        | CheckFault::Pes {
            fault: PesFault::Read | PesFault::Write,
            ..
        } => false,
        _ => true,
    }
}
