//! `listen PES`: runs one receiver over the PES packets of a file.
ghost use Rattle.std.specs.Prelude.{◌≡◌, ℕ, ◌+◌, ◌<◌, slice_index};
ghost use Rattle.ttx_page.specs.Page.{AreCodes};
ghost use Rattle.sub_answer.specs.Answering.{AnswersListen, PrintsReceived};
ghost use Rattle.sub_listing.specs.FirstPacket.{first_number};
ghost use Rattle.sub_listing.specs.DeviceCall.{CanFail, CountsFault, read_call, sink_call};
ghost use Rattle.sub_answer.specs.ListenListing.{IsOldPage, listen_line};
ghost use Rattle.sub_listen.specs.Reception.{code_left_by_receiver};

use sub_io::Sink;
use sub_listen::{ListenFault, listen_pes_packets};
use sub_listing::{
    FaultLine, Kind, Status, fault_line_of_check, fault_line_of_failed_read, print_fault_line,
    print_state,
};
use sub_request::{Listening, ReceiverKind};
use sub_rules::FaultPlace;
use ttx_page::{Blank, Keep, Page, Receiver};
use ttx_pes::{NumberedPesPackets, PesPackets};

/// Runs the requested receiver over the PES packets of a file up to TIME, and prints its state, or
/// the line of a fault.
///
/// The receiver is tuned to the page while it has an old page with 3F in every cell. Nothing is
/// printed before reception has ended. If complete pages are required, the printed page is that of
/// the receiver's screen, which shows a page after a header of another page has ended it. Otherwise
/// the screen is not used.
pub fn print_listening<P: NumberedPesPackets, K: Sink>(
    pes: &mut P,
    listening: &Listening,
    out: &mut K,
) -> Status
    requires first { CanFail (P.failure_count pes.old) }
    requires out { CanFail (K.failure_count out.old) }
    // If the bytes of the source are known and it does not fail, the output is the state of a
    // receiver of the frames in these bytes, or the fault. If the source fails, the fault names the
    // PES packet at which it failed, after the packets that were received.
    ensures exact { AnswersListen (code_left_by_receiver listening.now.receiver) listening.now
        (read_call P.remaining P.left P.failure_count pes.old pes.new)
        (first_number P.first P.skipped pes.old pes.new)
        (sink_call K.contents K.failure_count out.old out.new) result }
    ensures device { P.device pes.new ≡ P.device pes.old }
    ensures first_count { CountsFault P.failure_count pes.old result pes.new }
    ensures out_count { CountsFault K.failure_count out.old result out.new }
    ensures fault { result ≡ Status.Fault
        → P.failure_count pes.old + K.failure_count out.old
        < P.failure_count pes.new + K.failure_count out.new }
{
    match listening.receiver {
        // A receiver that drops rows with a byte of even parity never stores such a byte, so its
        // code for these bytes does not matter.
        ReceiverKind::Keep | ReceiverKind::DropRow => {
            print_state_of::<Keep, P, K>(pes, listening, out)
        }
        // For `BlankEachHeader`, `listen_pes_packets` restarts the receiver at headers of its page.
        ReceiverKind::Blank | ReceiverKind::BlankEachHeader => {
            print_state_of::<Blank, P, K>(pes, listening, out)
        }
    }
}

// Runs a receiver of type `R`, and prints its state, or the line of a fault.
fn print_state_of<R: Receiver + Drop, P: NumberedPesPackets, K: Sink>(
    pes: &mut P,
    listening: &Listening,
    out: &mut K,
) -> Status
    requires first { CanFail (P.failure_count pes.old) }
    requires out { CanFail (K.failure_count out.old) }
    ensures exact { AnswersListen R.leaves listening.now
        (read_call P.remaining P.left P.failure_count pes.old pes.new)
        (first_number P.first P.skipped pes.old pes.new)
        (sink_call K.contents K.failure_count out.old out.new) result }
    ensures device { P.device pes.new ≡ P.device pes.old }
    ensures first_count { CountsFault P.failure_count pes.old result pes.new }
    ensures out_count { CountsFault K.failure_count out.old result out.new }
    ensures fault { result ≡ Status.Fault
        → P.failure_count pes.old + K.failure_count out.old
        < P.failure_count pes.new + K.failure_count out.new }
{
    match pes.find_first() {
        Ok(first) => print_received::<R, P, K>(pes, first, listening, out),
        Err(at) => print_fault_line(&fault_line_of_failed_read(at), out),
    }
}

// Runs a receiver over the PES packets, which are counted from the number `first`, and prints the
// receiver's state, or the line of a fault.
fn print_received<R: Receiver + Drop, P: PesPackets, K: Sink>(
    pes: &mut P,
    first: u64,
    listening: &Listening,
    out: &mut K,
) -> Status
    requires first { CanFail (P.failure_count pes.old) }
    requires out { CanFail (K.failure_count out.old) }
    ensures exact { PrintsReceived R.leaves listening.now first
        (read_call P.remaining P.left P.failure_count pes.old pes.new)
        (sink_call K.contents K.failure_count out.old out.new) result }
    ensures device { P.device pes.new ≡ P.device pes.old }
    ensures first_count { CountsFault P.failure_count pes.old result pes.new }
    ensures out_count { CountsFault K.failure_count out.old result out.new }
    ensures fault { result ≡ Status.Fault
        → P.failure_count pes.old + K.failure_count out.old
        < P.failure_count pes.new + K.failure_count out.new }
{
    let mut receiver = R::tune(listening.options.page(), old_page());
    let mut screen = None;
    match listen_pes_packets(&mut receiver, &mut screen, pes, listening) {
        Ok(()) => print_state(&receiver, &screen, listening.options.asks_complete(), out),
        Err(fault) => print_fault_line(&fault_line_of_listen(fault).counted_from(first), out),
    }
}

// Returns a page with 3F in every cell.
fn old_page() -> Page
    ensures { IsOldPage result }
{
    let codes = old_row();
    let mut page = Page::blank();
    for row in 1..25u8 {
        page.set_row(row, &codes);
    }
    page
}

// Returns a row with 3F in every cell.
fn old_row() -> [u8; 40]
    ensures codes { AreCodes result }
    ensures value { (column : ℕ) → column < 40 → slice_index result column ≡ 0x3F }
{
    [0x3F; 40]
}

// Returns the line for a fault of `listen`.
fn fault_line_of_listen(fault: ListenFault) -> FaultLine
    ensures { result ≡ listen_line fault }
{
    match fault {
        ListenFault::File(fault) => fault_line_of_check(fault),
        ListenFault::LostHeader { frame, packet } => {
            FaultLine {
                kind: Kind::Refused,
                code: fault.code(),
                place: FaultPlace::Packet { frame, packet },
                first: 0,
            }
        }
    }
}
