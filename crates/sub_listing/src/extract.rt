//! `extract TS PES`: writes the PES packets that a recording carries in the transport packets of
//! one PID.
ghost use Rattle.std.specs.Prelude.{◌≡◌, ◌+◌, ◌<◌, IfErr, OnOk, false, true, if◌then◌else◌};
ghost use Rattle.sub_io.specs.Device.{CountsFailureIf, failed};
ghost use Rattle.sub_listing.specs.DeviceCall.{CanFail, CountsFault, read_call, sink_call};
ghost use Rattle.sub_listing.specs.Extracting.{EndsExtract, Extracts, extract_line};
ghost use Rattle.sub_listing.specs.Extracting.{is_extract_source_failure, is_extract_file_failure};
ghost use Rattle.sub_listing.specs.Extracting.{reports_failure_as_rejection};
ghost use Rattle.sub_listing.specs.Faults.{check_line};
ghost use Rattle.sub_listing.specs.FaultLine.{counted_from};
ghost use Rattle.sub_rules.specs.declared.fault.CheckFault.TheVariants.{Pes};

use crate::copying::{CopyFault, LastPesPacket, copy_next, copy_rest};
use crate::fault_line::FaultLine;
use crate::faults::{fault_line_of_check, fault_line_of_failed_write};
use crate::lines::{Line, push_number, push_text};
use crate::printing::{print_done, print_fault_line};
use crate::status::Status;
use sub_io::{Close, Flush, Sink};
use sub_rules::CheckFault;
use ttx_pes::{PesFault, PesPackets, Received};

/// The counts of a successful `extract`.
#[derive(Clone, Copy)]
pub struct Extracted {
    /// The number of PES packets written, gap markers included.
    pub pes: u64,
    /// The number of gap markers written.
    pub gaps: u64,
}

/// The reason why `extract` did not store a complete file of PES packets.
#[derive(Clone, Copy)]
pub enum ExtractFault {
    /// The source of the PES packets failed.
    Read {
        /// The number of PES packets written before the failure, gap markers included.
        pes: u64,
    },
    /// The output file failed.
    Write,
    /// The source of the PES packets has no bytes.
    Empty,
    /// The bytes after the last PES packet are not a PES packet, or there are too many PES packets.
    Refused {
        /// The reason why these bytes are not a PES packet, or `TooMany`.
        fault: PesFault,
        /// The number of PES packets written before these bytes, gap markers included.
        pes: u64,
    },
}

/// Writes the PES packets of a source to a file, one after another. PES packets of a recording
/// (ISO/IEC 13818-1) may come with gap markers. Prints the number of PES packets and of gap
/// markers, or the reason why no complete file of PES packets was stored.
///
/// Each PES packet is flushed as soon as it has arrived, and the line with the numbers is printed
/// after the system has stored the file. Bytes after the last PES packet are also written. Returns
/// `Fault` if a device failed.
pub fn extract_packets<P: PesPackets, F: Close, K: Sink>(
    pes_packets: &mut P,
    file: &mut F,
    out: &mut K,
) -> Status
    requires pes_packets { CanFail (P.failure_count pes_packets.old) }
    requires file { CanFail (F.failure_count file.old) }
    requires out { CanFail (K.failure_count out.old) }
    ensures extract { EndsExtract
        (read_call P.remaining P.left P.failure_count pes_packets.old pes_packets.new)
        (sink_call F.contents F.failure_count file.old file.new)
        (sink_call K.contents K.failure_count out.old out.new) result }
    ensures device { P.device pes_packets.new ≡ P.device pes_packets.old }
    ensures source_failures_are_counted { CountsFault P.failure_count pes_packets.old result
        pes_packets.new }
    ensures file_count { CountsFault F.failure_count file.old result file.new }
    ensures out_count { CountsFault K.failure_count out.old result out.new }
    ensures fault { result ≡ Status.Fault
        → P.failure_count pes_packets.old + F.failure_count file.old + K.failure_count out.old
        < P.failure_count pes_packets.new + F.failure_count file.new + K.failure_count out.new }
    ensures buffered { result ≡ Status.Done → F.buffered file.new ≡ 0 }
    ensures stored { result ≡ Status.Done → F.is_stored file.new ≡ true }
    // The file is flushed after each PES packet. So if nothing was buffered at the start and a read
    // from a device fails, all PES packets before it have reached the file.
    ensures followed { F.buffered file.old ≡ 0
        → P.failure_count pes_packets.old < P.failure_count pes_packets.new
        → F.buffered file.new ≡ 0 }
{
    match write_pes_packets(pes_packets, file) {
        Ok(extracted) => {
            let mut line = Line::new();
            push_number(&mut line, b"written ", extracted.pes);
            push_number(&mut line, b" pes ", extracted.gaps);
            push_text(&mut line, b" gaps\n");
            print_done(line.as_slice(), out)
        }
        Err(fault) => print_fault_line(&fault_line_of_extract(fault), out),
    }
}

// Copies PES packets to the output file as `copy_pes_packets` does, and then stores the file if
// there is no fault.
fn write_pes_packets<P: PesPackets, F: Close>(
    pes_packets: &mut P,
    file: &mut F,
) -> Result<Extracted, ExtractFault>
    requires pes_packets { CanFail (P.failure_count pes_packets.old) }
    requires file { CanFail (F.failure_count file.old) }
    ensures extracts { Extracts (P.remaining pes_packets.old) (F.contents file.old)
        (F.contents file.new) result }
    ensures device { P.device pes_packets.new ≡ P.device pes_packets.old }
    ensures source_failures_are_counted { CountsFailureIf P.failure_count pes_packets.old
        (failed is_extract_source_failure result)
        pes_packets.new }
    ensures file_count { CountsFailureIf F.failure_count file.old (failed is_extract_file_failure
        result)
        file.new }
    ensures buffered { F.buffered file.old ≡ 0 → failed is_extract_file_failure result ≡ false
        → F.buffered file.new ≡ 0 }
    ensures never_reports_failed_read { IfErr result (λ f. reports_failure_as_rejection f ≡ false) }
    ensures done { OnOk result (F.buffered file.new ≡ 0) }
    ensures stored { OnOk result (F.is_stored file.new ≡ true) }
{
    match copy_pes_packets(pes_packets, file) {
        Ok(extracted) => match file.store() {
            Ok(()) => Ok(extracted),
            Err(_) => Err(ExtractFault::Write),
        },
        Err(fault) => Err(fault),
    }
}

// Copies all PES packets, and then any bytes after them. Stops if a device fails, or after 2^64 - 1
// PES packets.
fn copy_pes_packets<P: PesPackets, F: Flush>(
    pes_packets: &mut P,
    file: &mut F,
) -> Result<Extracted, ExtractFault>
    requires pes_packets { CanFail (P.failure_count pes_packets.old) }
    requires file { CanFail (F.failure_count file.old) }
    ensures extracts { Extracts (P.remaining pes_packets.old) (F.contents file.old)
        (F.contents file.new) result }
    ensures device { P.device pes_packets.new ≡ P.device pes_packets.old }
    ensures source_failures_are_counted { CountsFailureIf P.failure_count pes_packets.old
        (failed is_extract_source_failure result)
        pes_packets.new }
    ensures file_count { CountsFailureIf F.failure_count file.old (failed is_extract_file_failure
        result)
        file.new }
    ensures buffered { F.buffered file.old ≡ 0 → failed is_extract_file_failure result ≡ false
        → F.buffered file.new ≡ 0 }
    ensures never_reports_failed_read { IfErr result (λ f. reports_failure_as_rejection f ≡ false) }
    ensures done { OnOk result (F.buffered file.new ≡ 0) }
{
    let mut pes_packet = LastPesPacket::new();
    let mut gaps = 0;
    'pes_packets: for pes in 0..u64::MAX {
        match copy_next(pes_packets, file, &mut pes_packet) {
            Ok(Received::End) => {
                if pes == 0 {
                    return Err(ExtractFault::Empty);
                }
                return Ok(Extracted { pes, gaps });
            }
            Ok(Received::PesPacket(is_gap_marker)) => gaps = counted(gaps, is_gap_marker),
            Ok(Received::Rest(fault)) => match copy_rest(pes_packets, file) {
                Ok(()) => return Err(ExtractFault::Refused { fault, pes }),
                Err(CopyFault::Read) => return Err(ExtractFault::Read { pes }),
                Err(CopyFault::Write) => return Err(ExtractFault::Write),
            },
            Err(CopyFault::Read) => return Err(ExtractFault::Read { pes }),
            Err(CopyFault::Write) => return Err(ExtractFault::Write),
        }
    }
    Err(ExtractFault::Refused {
        fault: PesFault::TooMany,
        pes: u64::MAX,
    })
}

// Returns the number of gap markers after the next PES packet was counted.
fn counted(gaps: u64, is_gap_marker: bool) -> u64
    requires { gaps < u64.MAX }
    ensures { result ≡ gaps + (if is_gap_marker then 1 else 0) }
{
    if is_gap_marker { gaps + 1 } else { gaps }
}

// Returns the line of a fault of `extract`.
fn fault_line_of_extract(fault: ExtractFault) -> FaultLine
    ensures { result ≡ extract_line fault }
{
    match fault {
        ExtractFault::Read { pes } => fault_line_at_pes(PesFault::Read, pes),
        ExtractFault::Write => fault_line_of_failed_write(),
        ExtractFault::Empty => fault_line_of_check(CheckFault::Empty),
        ExtractFault::Refused { fault, pes } => fault_line_at_pes(fault, pes),
    }
}

// Returns the line of a fault at the PES packet with this number.
fn fault_line_at_pes(fault: PesFault, pes: u64) -> FaultLine
    ensures { result ≡ counted_from pes (check_line (Pes 0 fault)) }
{
    fault_line_of_check(CheckFault::Pes { fault, pes: 0 }).counted_from(pes)
}
