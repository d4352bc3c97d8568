//! Lists a file: reads its PES packets or subtitles one after another, and prints the lines of
//! each.
ghost use Rattle.std.specs.Prelude.{◌≡◌, ℕ, ◌+◌, ◌<◌, ◌≤◌, ◌++◌, [], None, Some, decimal, length};
ghost use Rattle.std.specs.Prelude.{Bool, List, Option, false, true};
ghost use Rattle.std.specs.Borrow.{GName};
ghost use Rattle.sub_io.specs.Device.{CountsFailureIf};
ghost use Rattle.sub_listing.specs.DeviceCall.{CanFail, CountsFault, read_call, sink_call};
ghost use Rattle.sub_listing.specs.LastLine.{BuffersLastLineOnly, IsOnlyFaultLine};
ghost use Rattle.sub_listing.specs.Listing.{ListsNext, IsEndless, ListingRelation};
ghost use Rattle.sub_listing.specs.Listing.{PrintsListing};
ghost use Rattle.sub_listing.specs.Listing.{has_failed};
ghost use Rattle.sub_listing.specs.Printer.{StaysPrinted, printer_value};
ghost use Rattle.sub_listing.specs.FaultLine.{text_of_fault_line, status_of};
ghost use Rattle.sub_listing.specs.declared.status.Status.TheVariants.{Done};

use crate::fault_line::FaultLine;
use crate::lines::{push_decimal, push_fault_line, push_text};
use crate::printer::Printer;
use crate::status::Status;
use arrayvec::ArrayVec;
use sub_io::Flush;

/// The room in bytes for the lines of one PES packet, or of one subtitle.
pub const LINES_CAPACITY: usize = 7168;

/// The lines of one PES packet or subtitle.
pub type Text = ArrayVec<u8, LINES_CAPACITY>;

/// Makes the lines of an input, one PES packet or subtitle after another.
pub trait Lister<I> {
    /// The lister has reported neither the end of the input nor a fault.
    ghost ready: { Self → Type 0 };

    /// An upper bound of the number of PES packets or subtitles that the lister can still list.
    ghost items_left: { Self → ℕ };

    /// The listings that are possible from the lister's current state.
    ghost lists: { Self → ListingRelation };

    /// Whether the output can be followed while the source is read: lines are flushed before a read
    /// that may block.
    ghost can_be_followed: { Bool };

    // The remaining bytes of the input, if they are known.
    ghost known: { I → Option (List ℕ) };

    // The remaining bytes of the input, if they are known, perhaps without those that were read
    // before a failure or `Rest`.
    ghost left: { I → Option (List ℕ) };

    // The number of failed calls of the input's device.
    ghost failure_count: { I → ℕ };

    // The chain of references from the input to its device, the outermost first.
    ghost device: { I → List GName };

    /// Makes the lines of the next PES packet or subtitle, no line for a GSI block, or the last
    /// line. Returns `None` if more may follow, otherwise the status with which the listing ends.
    ///
    /// The lister may first flush the printer, so that earlier lines are visible before a read
    /// blocks. If flushing fails, the sink has failed, and the new lines are not used.
    fn next<K: Flush>(
        &mut self,
        input: &mut I,
        printer: &mut Printer<'_, K>,
        text: &mut Text,
    ) -> Option<Status>
        requires ready { ready self.old }
        requires input { CanFail (failure_count input.old) }
        requires out { CanFail (K.failure_count printer.old.out.now) }
        requires continues { printer.old.failed ≡ false }
        requires empty { text.old.items ≡ [] }
        ensures same { printer.new.out.ghost_name ≡ printer.old.out.ghost_name }
        ensures stays { StaysPrinted
            (printer_value (K.contents printer.old.out.now) (K.failure_count printer.old.out.now)
            printer.old.fault_count printer.old.failed printer.old.first)
            (printer_value (K.contents printer.new.out.now) (K.failure_count printer.new.out.now)
            printer.new.fault_count printer.new.failed printer.new.first) }
        ensures gives { printer.new.failed ≡ false → ListsNext (lists self.old) (lists self.new)
            (known input.old) (left input.new) text.new.items result }
        ensures settled { printer.new.failed ≡ false → result ≡ None
            → left input.new ≡ known input.new }
        ensures ready { printer.new.failed ≡ false → result ≡ None → ready self.new }
        ensures items_decrease { printer.new.failed ≡ false → result ≡ None
            → items_left self.new < items_left self.old }
        ensures count { printer.new.failed ≡ false
            → CountsFailureIf failure_count input.old (has_failed result) input.new }
        ensures cut { printer.new.failed ≡ true
            → IsEndless (lists self.old) (known input.old) (left input.new) }
        ensures counts_failure { printer.new.failed ≡ true
            → failure_count input.new ≡ failure_count input.old }
        ensures device { device input.new ≡ device input.old }
        ensures followed { can_be_followed ≡ true
            → (printer.old.pending ≡ false → K.buffered printer.old.out.now ≡ 0)
            → has_failed result ≡ true → printer.new.failed ≡ false
            → IsOnlyFaultLine (K.buffered printer.new.out.now) text.new.items };
}

/// Lists a file, one PES packet or subtitle after another.
///
/// If the file is rejected, the lines printed before remain. The lines of each PES packet or
/// subtitle are written before the next one is read.
pub fn list<I, L: Lister<I>, K: Flush>(lister: &mut L, input: &mut I, out: &mut K) -> Status
    requires ready { L.ready lister.old }
    requires input { CanFail (L.failure_count input.old) }
    requires out { CanFail (K.failure_count out.old) }
    ensures listing { PrintsListing (L.lists lister.old)
        (read_call L.known L.left L.failure_count input.old input.new)
        (sink_call K.contents K.failure_count out.old out.new) result }
    ensures input_count { CountsFault L.failure_count input.old result input.new }
    ensures device { L.device input.new ≡ L.device input.old }
    ensures out_count { CountsFault K.failure_count out.old result out.new }
    ensures fault { result ≡ Status.Fault
        → L.failure_count input.old + K.failure_count out.old
        < L.failure_count input.new + K.failure_count out.new }
    ensures followed { L.can_be_followed ≡ true
        → K.buffered out.old ≡ 0
        → L.failure_count input.old < L.failure_count input.new
        → BuffersLastLineOnly K.contents K.buffered K.is_push out.new }
{
    let mut printer = Printer {
        out,
        fault_count: 0,
        failed: false,
        pending: false,
        first: 0,
    };
    list_to(lister, input, &mut printer)
}

// Prints the lines of a lister through a printer.
fn list_to<I, L: Lister<I>, K: Flush>(
    lister: &mut L,
    input: &mut I,
    printer: &mut Printer<'_, K>,
) -> Status
    requires ready { L.ready lister.old }
    requires input { CanFail (L.failure_count input.old) }
    requires out { CanFail (K.failure_count printer.old.out.now) }
    requires continues { printer.old.failed ≡ false }
    ensures same { printer.new.out.ghost_name ≡ printer.old.out.ghost_name }
    ensures listing { PrintsListing (L.lists lister.old)
        (read_call L.known L.left L.failure_count input.old input.new)
        (sink_call K.contents K.failure_count printer.old.out.now printer.new.out.now) result }
    ensures input_count { CountsFault L.failure_count input.old result input.new }
    ensures device { L.device input.new ≡ L.device input.old }
    ensures out_count { CountsFault K.failure_count printer.old.out.now result
        printer.new.out.now }
    ensures fault { result ≡ Status.Fault
        → L.failure_count input.old + K.failure_count printer.old.out.now
        < L.failure_count input.new + K.failure_count printer.new.out.now }
    ensures followed { L.can_be_followed ≡ true
        → (printer.old.pending ≡ false → K.buffered printer.old.out.now ≡ 0)
        → L.failure_count input.old < L.failure_count input.new
        → BuffersLastLineOnly K.contents K.buffered K.is_push printer.new.out.now }
{
    let mut text = Text::new();
    'items: loop {
        text.clear();
        let end = lister.next(input, printer, &mut text);
        if printer.failed {
            return Status::Fault;
        }
        match printer.put(text.as_slice()) {
            Ok(()) => (),
            Err(_) => return Status::Fault,
        }
        if let Some(status) = end {
            return status;
        }
    }
}

/// Ends a listing with the line of a fault.
pub fn end_with_fault_line(text: &mut Text, reported: &FaultLine) -> Option<Status>
    requires { text.old.items ≡ [] }
    ensures line { text.new.items ≡ text_of_fault_line reported.now }
    ensures end { result ≡ Some (status_of reported.now.kind) }
{
    push_fault_line(text, reported);
    Some(reported.status())
}

/// Ends a listing with the number of listed items.
pub fn end_with_count(text: &mut Text, count: u32, item_name: &[u8]) -> Option<Status>
    requires empty { text.old.items ≡ [] }
    requires few { length item_name.now ≤ 32 }
    ensures line { text.new.items ≡ decimal count ++ item_name.now }
    ensures end { result ≡ Some Done }
{
    push_decimal(text, u64::from(count));
    push_text(text, item_name);
    Some(Status::Done)
}
