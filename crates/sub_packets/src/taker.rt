//! A receiver of events that cannot stop the checker.
ghost use Rattle.std.specs.Prelude.{◌≡◌, [], ◌∷◌, if◌then◌else◌};
ghost use Rattle.sub_io.specs.Reporting.{Reports};

use sub_rules::Event;

/// Receives events and cannot stop the checker, for example the wrapper that discards events after
/// a device has stopped.
pub trait Taker {
    ghost use Rattle.sub_rules.specs.declared.event.Event.{Event};

    // Relates the receiver's state before an event, the event, and the state after it.
    ghost is_reported: { Self → Event → Self → Type 0 };

    /// Receives one more event.
    fn report(&mut self, event: Event)
        ensures { Reports is_reported self.old self.new (event ∷ []) };
}

/// Reports `event` if `is_reported`.
#[tactic(auto, using(sub_io::proofs::ReportingLemmas::tellings))]
pub fn report_if<A: Taker>(is_reported: bool, event: Event, taker: &mut A)
    ensures { Reports A.is_reported taker.old taker.new (if is_reported then event ∷ [] else []) }
{
    if is_reported {
        taker.report(event);
    }
}
