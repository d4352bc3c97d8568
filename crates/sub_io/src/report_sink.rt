//! Consumers of reported items, which may stop the reporting.

ghost use Rattle.std.specs.Prelude.{◌≡◌, [], ◌∷◌, Bool, false, Option, None, Some, is_err, is_some};
ghost use Rattle.std.specs.Prelude.{IsErr, not};
ghost use Rattle.std.proofs.Common.{refl, subst, sym};
ghost use Rattle.sub_io.specs.Reporting.{KeepsFirst, Reports};

use crate::{Live, LiveReportSink};
use std::marker::Model;

/// The error of a report sink that wants no more items or has failed.
#[derive(Clone, Copy, Debug, PartialEq, Eq)]
pub struct Stopped;

/// A consumer of items that are reported one at a time, such as the faults of a file.
///
/// A report sink may keep, count or print the items. It returns `Stopped` if it wants no more items
/// or has failed; only the implementation knows which.
pub trait ReportSink<T> {
    // How reporting an item changes the report sink. Arguments: old state, item, new state.
    ghost is_reported: { Self → T → Self → Type 0 };

    // Whether the report sink has returned `Stopped`.
    ghost has_stopped: { Self → Bool };

    /// Reports one item. Must not be called again after it has returned `Stopped`.
    ///
    /// # Errors
    ///
    /// Returns `Stopped` if the report sink wants no further items or has failed. The item still
    /// counts as reported.
    fn report(&mut self, item: T) -> Result<(), Stopped>
        requires { has_stopped self.old ≡ false }
        ensures reported { Reports is_reported self.old self.new (item ∷ []) }
        ensures stopped { has_stopped self.new ≡ is_err result };
}

/// A report sink that keeps the first item and then stops.
///
/// Its model is the kept item.
#[derive(Drop)]
pub struct FirstReported<T> {
    first: Option<T>,
}

impl<T> Model for FirstReported<T> {
    ghost Value = { Option T };

    ghost view = { λ f. f.first };
}

impl<T: Drop> FirstReported<T> {
    /// Creates a report sink that has received no item.
    pub fn new() -> Self
        ensures { result ≡ None }
    {
        FirstReported { first: None }
    }

    /// Returns the first item, or `None` if nothing was reported.
    pub fn into_first(self) -> Option<T>
        ensures { result ≡ self }
    {
        let FirstReported { first } = self;
        first
    }
}

impl<T: Drop> ReportSink<T> for FirstReported<T> {
    ghost is_reported = { KeepsFirst };

    ghost has_stopped = { λ f. is_some f };

    /// Keeps the reported item.
    ///
    /// # Errors
    ///
    /// Always returns `Stopped`.
    #[tactic(auto, using(crate::proofs::ReportingLemmas::tellings))]
    fn report(&mut self, item: T) -> Result<(), Stopped>
        ensures first { self.new ≡ Some item }
        ensures stopped { IsErr result }
    {
        self.first = Some(item);
        Err(Stopped)
    }
}

impl<T> Live for FirstReported<T> {
    ghost has_pending_reports = { λ _. false };

    ghost buffered = { λ _. 0 };

    ghost is_flushed = { λ old ok new. (new ≡ old) × (is_some new ≡ not ok) };

    /// Returns `false`, since `FirstReported` buffers nothing.
    fn has_pending(&self) -> bool {
        false
    }

    /// Does nothing, since `FirstReported` buffers nothing.
    ///
    /// # Errors
    ///
    /// Returns `Stopped` if an item has been reported.
    fn flush_pending(&mut self) -> Result<(), Stopped> {
        if self.first.is_some() {
            return Err(Stopped);
        }
        Ok(())
    }
}

impl<T: Drop> LiveReportSink<T> for FirstReported<T> {
    ghost flush_keeps_reports = { record {
      reported = λ before old new item ok reported has_pending on.
          subst (λ d. KeepsFirst before item d) (sym on.0) reported;
      stopped = λ old new ok on. on.1;
      has_pending = λ before new item reported still. refl;
    } };
}
