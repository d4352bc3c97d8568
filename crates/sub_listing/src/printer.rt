//! A device that prints a line for each event.
ghost use Rattle.std.specs.Prelude.{◌≡◌, ◌||◌, OnErr, OnOk, false, is_err, is_ok, not, true};
ghost use Rattle.std.proofs.Common.{◌∙◌};
ghost use Rattle.std.specs.Io.KnownBytes.{Appends};
ghost use Rattle.sub_io.specs.Device.{AppendsPrefix, CanFail, CountsFailure};
ghost use Rattle.sub_listing.specs.EventLines.{fault_count_of_event, subtitle_event};
ghost use Rattle.sub_listing.specs.LastLine.{PutsLine};
ghost use Rattle.sub_listing.specs.StaysPrinted.{printed_line_remains};
ghost use Rattle.sub_listing.specs.Printer.{FlushesLines, PrintsEvent, can_fail, counted};
ghost use Rattle.sub_listing.specs.Printer.{printer_value};

use crate::lines::{Line, push_event};
use stl_rows::LoadFault;
use sub_io::{Flush, Live, LiveReportSink, ReportSink, Sink, Stopped, put_all};
use sub_rules::{CheckFault, Event};

/// A device that prints the line of each event at once, and counts the faults.
///
/// The printer stops when its sink fails; the sink then has received a prefix of the line.
#[derive(Drop)]
pub struct Printer<'a, K> {
    /// The sink to which the printer writes its lines.
    pub out: &'a mut K,
    /// The number of faults whose lines were written, at most 2^64 - 1.
    pub fault_count: u64,
    /// Whether the sink failed while the printer printed or flushed.
    pub failed: bool,
    /// Whether the sink's buffer may contain lines of the printer.
    pub pending: bool,
    /// The number from which the lines count PES packets, such as the number, in its file, of the
    /// first PES packet to read.
    pub first: u64,
}

impl<'a, K: Flush> Printer<'a, K> {
    /// Flushes the sink of the printer.
    ///
    /// # Errors
    ///
    /// Returns `Stopped` if the sink fails, if it failed in an earlier call of the printer, or if
    /// it has failed 2^64 - 1 times.
    fn flush(&mut self) -> Result<(), Stopped>
        ensures same { self.new.out.ghost_name ≡ self.old.out.ghost_name }
        ensures lines { FlushesLines
            (printer_value (K.contents self.old.out.now) (K.failure_count self.old.out.now)
            self.old.fault_count self.old.failed self.old.first) (is_ok result)
            (printer_value (K.contents self.new.out.now) (K.failure_count self.new.out.now)
            self.new.fault_count self.new.failed self.new.first) }
        ensures still { OnOk result (self.new.pending ≡ false) }
        ensures buffered { OnOk result (K.buffered self.new.out.now ≡ 0) }
        ensures keeps_pending { OnErr result (self.new.pending ≡ self.old.pending) }
    {
        if self.failed || self.out.failures() == u64::MAX {
            return Err(Stopped);
        }
        if self.out.flush().is_err() {
            self.failed = true;
            return Err(Stopped);
        }
        self.pending = false;
        Ok(())
    }
}

impl<'a, K: Sink> Printer<'a, K> {
    /// Writes lines to the sink.
    ///
    /// # Errors
    ///
    /// Returns `Stopped` if the sink failed; it received a prefix of the lines.
    pub fn put(&mut self, lines: &[u8]) -> Result<(), Stopped>
        requires { CanFail (K.failure_count self.old.out.now) }
        ensures same { self.new.out.ghost_name ≡ self.old.out.ghost_name }
        ensures fault_count { self.new.fault_count ≡ self.old.fault_count }
        ensures first { self.new.first ≡ self.old.first }
        ensures ok { OnOk result (Appends
            (K.contents self.old.out.now) (K.contents self.new.out.now) lines.now) }
        ensures err { OnErr result (AppendsPrefix
            (K.contents self.old.out.now) (K.contents self.new.out.now) lines.now) }
        ensures count { CountsFailure
            (K.failure_count self.old.out.now) result (K.failure_count self.new.out.now) }
        ensures failed { OnOk result (self.new.failed ≡ self.old.failed) }
        ensures stopped { OnErr result (self.new.failed ≡ true) }
        ensures line { PutsLine K.contents K.is_push self.old.out.now lines.now self.new.out.now }
        // The lines count as pending, so a live listing flushes them before a read that may block.
        ensures has_pending { self.new.pending ≡ true }
    {
        self.pending = true;
        match put_all(self.out, lines) {
            Ok(()) => Ok(()),
            Err(_) => {
                self.failed = true;
                Err(Stopped)
            }
        }
    }

    // Writes the line of an event, and then counts the event if it is a fault. If the sink fails,
    // the event is not counted.
    fn print(&mut self, event: Event) -> Result<(), Stopped>
        requires continues { self.old.failed ≡ false }
        requires count { CanFail (K.failure_count self.old.out.now) }
        ensures same { self.new.out.ghost_name ≡ self.old.out.ghost_name }
        ensures prints { PrintsEvent
            (printer_value (K.contents self.old.out.now) (K.failure_count self.old.out.now)
            self.old.fault_count self.old.failed self.old.first) event
            (printer_value (K.contents self.new.out.now) (K.failure_count self.new.out.now)
            self.new.fault_count self.new.failed self.new.first) }
        ensures stopped { self.new.failed ≡ is_err result }
        ensures has_pending { self.new.pending ≡ true }
    {
        let mut line = Line::new();
        push_event(&mut line, event, self.first);
        self.put(line.as_slice())?;
        self.count(event);
        Ok(())
    }

    // Counts an event if it is a fault.
    #[tactic(auto, unfolding(crate::specs::Printer::counted))]
    fn count(&mut self, event: Event)
        ensures { self.new ≡ record self.old {
          fault_count = counted self.old.fault_count (fault_count_of_event event);
        } }
    {
        self.fault_count = self.fault_count.saturating_add(fault_count_of_event(event));
    }
}

// Returns the number of faults that an event reports: 1 or 0.
fn fault_count_of_event(event: Event) -> u64
    ensures { result ≡ fault_count_of_event event }
{
    match event {
        Event::Reported(_) => 1,
        Event::Ended { .. } | Event::SkippedUntil(_) | Event::Trusted { .. } => 0,
    }
}

impl<K: Flush> ReportSink<Event> for Printer<'_, K> {
    ghost is_reported = { λ s event t. (t.out.ghost_name ≡ s.out.ghost_name)
        × PrintsEvent
        (printer_value (K.contents s.out.now) (K.failure_count s.out.now) s.fault_count s.failed
        s.first) event
        (printer_value (K.contents t.out.now) (K.failure_count t.out.now) t.fault_count t.failed
        t.first)
        × (t.pending ≡ false → K.buffered t.out.now ≡ 0) };

    ghost has_stopped = { λ p. p.failed || not (can_fail (K.failure_count p.out.now)) };

    /// Prints the line of an event.
    ///
    /// # Errors
    ///
    /// Returns `Stopped` if the sink failed; it received a prefix of the line.
    fn report(&mut self, item: Event) -> Result<(), Stopped> {
        self.print(item)
    }
}

impl<K: Flush> ReportSink<LoadFault> for Printer<'_, K> {
    ghost is_reported = { λ s fault t. (t.out.ghost_name ≡ s.out.ghost_name)
        × PrintsEvent
        (printer_value (K.contents s.out.now) (K.failure_count s.out.now) s.fault_count s.failed
        s.first)
        (subtitle_event fault)
        (printer_value (K.contents t.out.now) (K.failure_count t.out.now) t.fault_count t.failed
        t.first)
        × (t.pending ≡ false → K.buffered t.out.now ≡ 0) };

    ghost has_stopped = { λ p. p.failed || not (can_fail (K.failure_count p.out.now)) };

    /// Prints the line of a fault of the subtitle file.
    ///
    /// # Errors
    ///
    /// Returns `Stopped` if the sink failed; it received a prefix of the line.
    fn report(&mut self, item: LoadFault) -> Result<(), Stopped> {
        self.print(Event::Reported(CheckFault::Subtitles(item)))
    }
}

impl<K: Flush> Live for Printer<'_, K> {
    ghost has_pending_reports = { λ p. p.pending };

    ghost buffered = { λ p. K.buffered p.out.now };

    ghost is_flushed = { λ s ok t. (t.out.ghost_name ≡ s.out.ghost_name)
        × FlushesLines
        (printer_value (K.contents s.out.now) (K.failure_count s.out.now) s.fault_count s.failed
        s.first) ok
        (printer_value (K.contents t.out.now) (K.failure_count t.out.now) t.fault_count t.failed
        t.first)
        × (s.pending ≡ true → t.pending ≡ false → K.buffered t.out.now ≡ 0) };

    /// Returns whether the sink's buffer may contain lines of the printer.
    fn has_pending(&self) -> bool {
        self.pending
    }

    /// Flushes the sink of the printer.
    ///
    /// # Errors
    ///
    /// Returns `Stopped` if the sink fails, if it failed in an earlier call of the printer, or if
    /// it has failed 2^64 - 1 times.
    fn flush_pending(&mut self) -> Result<(), Stopped> {
        self.flush()
    }
}

impl<K: Flush> LiveReportSink<Event> for Printer<'_, K> {
    ghost flush_keeps_reports = { record {
      reported = λ before old new item ok is has_pending on.
          (on.0 ∙ is.0, printed_line_remains _ _ _ item is.1 on.1.stays, on.2 has_pending);
      stopped = λ old new ok on. on.1.stopped;
      has_pending = λ before new item is. is.2;
    } };
}

impl<K: Flush> LiveReportSink<LoadFault> for Printer<'_, K> {
    ghost flush_keeps_reports = { record {
      reported = λ before old new item ok is has_pending on. (
        on.0 ∙ is.0,
        printed_line_remains _ _ _ (subtitle_event item) is.1 on.1.stays,
        on.2
            has_pending,
      );
      stopped = λ old new ok on. on.1.stopped;
      has_pending = λ before new item is. is.2;
    } };
}
