//! Prints the last text of a command, and returns the exit status.
ghost use Rattle.std.specs.Prelude.{◌≡◌, ◌≢◌, ◌+◌, List, ℕ};
ghost use Rattle.sub_listing.specs.DeviceCall.{CanFail, CountsFault, sink_call};
ghost use Rattle.sub_listing.specs.LastLine.{PutsLine};
ghost use Rattle.sub_listing.specs.Listing.{PrintsOrFails, done, fault_listing};
ghost use Rattle.sub_listing.specs.FaultLine.{text_of_fault_line, status_of};

use crate::fault_line::FaultLine;
use crate::lines::{Line, push_fault_line};
use crate::status::Status;
use sub_io::{Sink, put_all};

/// Prints the output of a successful command, or the rest of it, and returns `Done`.
///
/// Returns `Fault` if the sink fails; it then received a prefix of the text.
#[tactic(auto, unfolding(crate::specs::Listing::PrintsOrFails))]
pub fn print_done<K: Sink>(text: &[u8], out: &mut K) -> Status
    requires { CanFail (K.failure_count out.old) }
    ensures printed { (whole : List ℕ) → whole ≡ text.now → PrintsOrFails
        (sink_call K.contents K.failure_count out.old out.new) (done whole) result }
    ensures count { CountsFault K.failure_count out.old result out.new }
    ensures failed { result ≡ Status.Fault
        → K.failure_count out.new ≡ K.failure_count out.old + 1 }
{
    match put_all(out, text) {
        Ok(()) => Status::Done,
        Err(_) => Status::Fault,
    }
}

/// Prints the line of a fault, and returns the exit status that belongs to the line.
///
/// Returns `Fault` if the sink fails; it then received a prefix of the line.
#[tactic(auto, unfolding(crate::specs::Listing::PrintsOrFails))]
pub fn print_fault_line<K: Sink>(reported: &FaultLine, out: &mut K) -> Status
    requires { CanFail (K.failure_count out.old) }
    ensures printed { PrintsOrFails (sink_call K.contents K.failure_count out.old out.new)
        (fault_listing reported.now) result }
    ensures count { CountsFault K.failure_count out.old result out.new }
    ensures fault { status_of reported.now.kind ≡ Status.Fault → result ≡ Status.Fault }
    ensures is_not_done { result ≢ Status.Done }
    ensures line { PutsLine K.contents K.is_push out.old (text_of_fault_line reported.now) out.new }
    ensures failed { result ≡ Status.Fault → status_of reported.now.kind ≢ Status.Fault
        → K.failure_count out.new ≡ K.failure_count out.old + 1 }
{
    let mut line = Line::new();
    push_fault_line(&mut line, reported);
    match put_all(out, line.as_slice()) {
        Ok(()) => reported.status(),
        Err(_) => Status::Fault,
    }
}
