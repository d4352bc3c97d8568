//! `packets PES`: lists PES packets and their Teletext units.
ghost use Rattle.std.specs.Prelude.{◌≡◌, ℕ, ◌+◌, ◌-◌, ◌<◌, ◌≤◌, ◌++◌, [], None};
ghost use Rattle.std.specs.Prelude.{OnOk, false, is_err, true};
ghost use Rattle.arrayvec.specs.ArrayVec.{array_vec_len};
ghost use Rattle.sub_io.specs.Device.{CanFail};
ghost use Rattle.ttx_pes.specs.BorrowedPacket.{NothingIsPendingUnlessReady};
ghost use Rattle.ttx_pes.specs.Outcome.{ReadsPackets, outcome_after};
ghost use Rattle.ttx_pes.specs.Reading.{max_pes_packets};
ghost use Rattle.ttx_pes.specs.declared.progress.Progress.TheVariants.{Reading};
ghost use Rattle.sub_listing.specs.FirstPacket.{PrintsCountedFrom, first_number};
ghost use Rattle.sub_listing.specs.Lines.{number_in_file, unit_line};
ghost use Rattle.sub_listing.specs.DeviceCall.{CountsFault, read_call, sink_call};
ghost use Rattle.sub_listing.specs.LastLine.{BuffersLastLineOnly};
ghost use Rattle.sub_listing.specs.Listing.{Lists};
ghost use Rattle.sub_listing.specs.PacketsListing.{ListsPackets, pes_packet_lines, pes_listing};
ghost use Rattle.sub_listing.specs.Printer.{StaysPrinted, printer_value};

use crate::faults::{fault_line_of_check, fault_line_of_failed_read};
use crate::lines::{number_in_file, push_lower_hex, push_number, push_text};
use crate::listing::{LINES_CAPACITY, Lister, Text, end_with_count, end_with_fault_line, list};
use crate::printer::Printer;
use crate::printing::print_fault_line;
use crate::status::Status;
use sub_io::{Flush, Stopped};
use sub_rules::CheckFault;
use ttx_pes::{
    Compared, ComparingReader, MAX_UNITS, NumberedPesPackets, PesPackets, Unit, flush_first,
};

/// Lists the PES packets of a source (EN 300 472), each with its number in its file, and then the
/// number of listed packets, or the line of the fault that ends the listing.
///
/// If the source is rejected, the lines printed before remain. Returns `Fault` if a device failed.
pub fn list_packets<P: NumberedPesPackets, K: Flush>(pes_packets: &mut P, out: &mut K) -> Status
    requires pes_packets { CanFail (P.failure_count pes_packets.old) }
    requires out { CanFail (K.failure_count out.old) }
    ensures listing { PrintsCountedFrom ListsPackets
        (first_number P.first P.skipped pes_packets.old pes_packets.new)
        (read_call P.remaining P.left P.failure_count pes_packets.old pes_packets.new)
        (sink_call K.contents K.failure_count out.old out.new) result }
    ensures device { P.device pes_packets.new ≡ P.device pes_packets.old }
    ensures source_failures_are_counted { CountsFault P.failure_count pes_packets.old result
        pes_packets.new }
    ensures out_count { CountsFault K.failure_count out.old result out.new }
    ensures fault { result ≡ Status.Fault
        → P.failure_count pes_packets.old + K.failure_count out.old
        < P.failure_count pes_packets.new + K.failure_count out.new }
    // All lines are flushed before each read from a device, which may fail. So if nothing was
    // buffered at the start and a read fails, at most the line about the failure is still in the
    // buffer.
    ensures followed { K.buffered out.old ≡ 0
        → P.failure_count pes_packets.old < P.failure_count pes_packets.new
        → BuffersLastLineOnly K.contents K.buffered K.is_push out.new }
{
    match pes_packets.find_first() {
        Ok(first) => list(&mut PacketLister::new(first), pes_packets, out),
        Err(at) => print_fault_line(&fault_line_of_failed_read(at), out),
    }
}

/// Lists PES packets and their Teletext units.
#[derive(Drop)]
pub struct PacketLister {
    reader: ComparingReader,
    index: u32,
    first: u64,
}

impl PacketLister {
    /// Creates a lister for PES packets, the first of which has the number `first` in its file.
    pub fn new(first: u64) -> PacketLister
        ensures start { result.index ≡ 0 }
        ensures first { result.first ≡ first }
        ensures ready { result.reader.progress ≡ Reading 0 }
    {
        PacketLister {
            reader: ComparingReader::new(),
            index: 0,
            first,
        }
    }

    // Makes the lines of the PES packet that was read last, and counts it.
    fn list_read_packet(&mut self, text: &mut Text) -> Option<Status>
        requires few { self.old.index < max_pes_packets }
        requires empty { text.old.items ≡ [] }
        ensures lines { text.new.items
            ≡ pes_packet_lines (number_in_file self.old.first self.old.index)
            self.old.reader.frame }
        ensures index { self.new.index ≡ self.old.index + 1 }
        ensures first { self.new.first ≡ self.old.first }
        ensures reader { self.new.reader ≡ self.old.reader }
        ensures more { result ≡ None }
    {
        push_pes_packet(text, number_in_file(self.first, self.index), &self.reader);
        self.index += 1;
        None
    }
}

impl<P: PesPackets> Lister<P> for PacketLister {
    ghost ready = { λ l. (l.reader.progress ≡ Reading l.index) × (l.index ≤ max_pes_packets) };

    ghost items_left = { λ l. max_pes_packets - l.index };

    ghost lists = { λ l. Lists (pes_listing l.first l.index) (outcome_after l.index) ReadsPackets };

    ghost can_be_followed = { true };

    ghost known = { λ p. P.remaining p };

    ghost left = { λ p. P.left p };

    ghost failure_count = { λ p. P.failure_count p };

    ghost device = { λ p. P.device p };

    fn next<K: Flush>(
        &mut self,
        input: &mut P,
        printer: &mut Printer<'_, K>,
        text: &mut Text,
    ) -> Option<Status> {
        if flush_lines(input, printer).is_err() {
            return Some(Status::Fault);
        }
        match self.reader.next(input) {
            Ok(Compared::End) => end_with_count(text, self.index, b" pes\n"),
            Ok(Compared::Same) => self.list_read_packet(text),
            Ok(Compared::Other) => self.list_read_packet(text),
            Err(fault) => {
                let pes = self.index;
                let reported = fault_line_of_check(CheckFault::Pes { fault, pes });
                end_with_fault_line(text, &reported.counted_from(self.first))
            }
        }
    }
}

// Flushes earlier lines if the next PES packet may need a read from a device.
fn flush_lines<P: PesPackets, K: Flush>(
    pes_packets: &P,
    printer: &mut Printer<'_, K>,
) -> Result<(), Stopped>
    requires out { CanFail (K.failure_count printer.old.out.now) }
    requires continues { printer.old.failed ≡ false }
    ensures same { printer.new.out.ghost_name ≡ printer.old.out.ghost_name }
    ensures stays { StaysPrinted
        (printer_value (K.contents printer.old.out.now) (K.failure_count printer.old.out.now)
        printer.old.fault_count printer.old.failed printer.old.first)
        (printer_value (K.contents printer.new.out.now) (K.failure_count printer.new.out.now)
        printer.new.fault_count printer.new.failed printer.new.first) }
    ensures failed { printer.new.failed ≡ is_err result }
    ensures settled { OnOk result (NothingIsPendingUnlessReady printer.new.pending
        (P.ready pes_packets.now)) }
    ensures holds { (printer.old.pending ≡ false → K.buffered printer.old.out.now ≡ 0)
        → OnOk result (printer.new.pending ≡ false → K.buffered printer.new.out.now ≡ 0) }
{
    flush_first(pes_packets, printer)
}

// The room in bytes for the line of a PES packet.
const PES_LINE_CAPACITY: usize = 64;

// The room in bytes for the line of a Teletext unit.
const UNIT_LINE_CAPACITY: usize = 192;

// The lines of a PES packet and of all its Teletext units fit in `LINES_CAPACITY` bytes.
const _: () = prove!(PES_LINE_CAPACITY + MAX_UNITS * UNIT_LINE_CAPACITY <= LINES_CAPACITY);

// Appends the lines of a PES packet, with its number in its file, and of its Teletext units.
fn push_pes_packet(text: &mut Text, number: u64, reader: &ComparingReader)
    requires { text.old.items ≡ [] }
    ensures { text.new.items ≡ pes_packet_lines number reader.now.frame }
{
    push_number(text, b"pes ", number);
    push_number(text, b" pts ", reader.pts());
    push_text(text, b"\n");
    let units = reader.units();
    for number in 0..units.len() {
        push_unit(text, number, &units.unit(number));
    }
}

// Appends the line of a Teletext unit: its fields, and its packet in the bit order of Teletext.
fn push_unit(text: &mut Text, number: usize, unit: &Unit)
    requires { array_vec_len text.old + UNIT_LINE_CAPACITY ≤ LINES_CAPACITY }
    ensures items { text.new.items ≡ text.old.items ++ unit_line number unit.now }
    ensures len { array_vec_len text.new ≤ array_vec_len text.old + UNIT_LINE_CAPACITY }
{
    push_number(text, b"unit ", number as u64);
    push_number(text, b" id 0", u64::from(unit.id()));
    push_number(text, b" field ", u64::from(unit.field()));
    push_number(text, b" line ", u64::from(unit.line()));
    push_text(text, b" ");
    push_lower_hex(text, unit.packet().bytes());
    push_text(text, b"\n");
}
