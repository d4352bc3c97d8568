//! Copies PES packets to a file, each as soon as it has arrived, and then any bytes after the last
//! PES packet.
ghost use Rattle.std.specs.Prelude.{◌≡◌, Err, IfOk, OnErr, OnOk, false, length, true};
ghost use Rattle.std.specs.Io.KnownBytes.{Appends};
ghost use Rattle.sub_io.specs.Device.{AppendsPrefix, CanFail, CountsFailureIf, failed};
ghost use Rattle.sub_io.specs.Reading.{IfKnown};
ghost use Rattle.ttx_pes.specs.Advancing.{faulty_rest_is_answer};
ghost use Rattle.ttx_pes.specs.Reading.{is_gap_marker};
ghost use Rattle.sub_listing.specs.Copying.{CopiesNext, CopiesRest, is_copy_source_failure};
ghost use Rattle.sub_listing.specs.Copying.{is_copy_file_failure, is_pes_packet};
ghost use Rattle.sub_listing.specs.Copying.{reports_failure_as_rest};

use std::marker::Model;
use sub_io::{Flush, put_all};
use ttx_pes::{PesPackets, REST_BUFFER_SIZE, Received, TakePesPacket, is_gap_marker};

// The size in bytes of the longest PES packet.
const PES_PACKET_CAPACITY: usize = 1656;

/// The device that failed while PES packets were copied.
#[derive(Clone, Copy)]
pub enum CopyFault {
    /// The source of the PES packets failed.
    Read,
    /// The output file failed.
    Write,
}

/// The bytes of the PES packet that was read last, none at first. The model is the list of the
/// bytes.
#[derive(Drop)]
pub struct LastPesPacket {
    room: [u8; PES_PACKET_CAPACITY],
    len: usize,
}

impl Model for LastPesPacket {
    ghost use Rattle.std.specs.Prelude.{ℕ, ◌≤◌, List, take};

    ghost Value = { List ℕ };

    ghost view = { λ p. take p.len p.room };

    ghost invariant = { λ p. p.len ≤ 1656 };
}

impl LastPesPacket {
    /// Creates an empty buffer for a PES packet.
    pub fn new() -> Self {
        LastPesPacket {
            room: [0; PES_PACKET_CAPACITY],
            len: 0,
        }
    }

    // Returns the bytes of the PES packet.
    fn bytes(&self) -> &[u8]
        ensures { result.now ≡ self.now }
    {
        let (bytes, _) = self.room.split_at(self.len);
        bytes
    }
}

impl TakePesPacket for LastPesPacket {
    // The answer is `true` if the PES packet is a gap marker.
    type Answer = bool;

    ghost is_take = { λ old pes_packet answer new. (new ≡ pes_packet) ×
        (answer ≡ is_gap_marker pes_packet) };

    #[tactic(auto, using(crate::proofs::CopyingLemmas::pes_packet_size_is_bounded))]
    fn take(&mut self, pes_packet: &[u8]) -> bool {
        let (prefix, _) = self.room.split_at_mut(pes_packet.len());
        prefix.copy_from_slice(pes_packet);
        self.len = pes_packet.len();
        is_gap_marker(pes_packet)
    }
}

// Writes bytes to a file and flushes the file.
fn write_and_flush<F: Flush>(file: &mut F, bytes: &[u8]) -> Result<(), CopyFault>
    requires { CanFail (F.failure_count file.old) }
    ensures ok { OnOk result (Appends (F.contents file.old) (F.contents file.new) bytes.now) }
    ensures err { OnErr result
        (AppendsPrefix (F.contents file.old) (F.contents file.new) bytes.now) }
    ensures buffered { OnOk result (F.buffered file.new ≡ 0) }
    ensures write { OnErr result (result ≡ Err CopyFault.Write) }
    ensures count { CountsFailureIf F.failure_count file.old (failed is_copy_file_failure result)
        file.new }
{
    if put_all(file, bytes).is_err() {
        return Err(CopyFault::Write);
    }
    match file.flush() {
        Ok(()) => Ok(()),
        Err(_) => Err(CopyFault::Write),
    }
}

/// If there is a next PES packet, copies it through the buffer `pes_packet` and flushes the file.
///
/// # Errors
///
/// Returns `Read` if the source of the PES packets failed; nothing was copied. Returns `Write` if
/// the file failed; it received a prefix of the PES packet.
pub fn copy_next<P: PesPackets, F: Flush>(
    pes_packets: &mut P,
    file: &mut F,
    pes_packet: &mut LastPesPacket,
) -> Result<Received<bool>, CopyFault>
    requires pes_packets { CanFail (P.failure_count pes_packets.old) }
    requires file { CanFail (F.failure_count file.old) }
    ensures reported { IfKnown (P.remaining pes_packets.old) (λ bytes.
        CopiesNext bytes (P.remaining pes_packets.new) (F.contents file.old) (F.contents file.new)
        result) }
    ensures rest { faulty_rest_is_answer result ≡ true → P.may_read_rest pes_packets.new ≡ true }
    ensures buffered { F.buffered file.old ≡ 0 → failed is_copy_file_failure result ≡ false
        → F.buffered file.new ≡ 0 }
    ensures never_reports_failed_read { IfOk result
        (λ received. reports_failure_as_rest received ≡ false) }
    ensures flushed { IfOk result (λ received. is_pes_packet received ≡ true → F.buffered file.new ≡
        0) }
    ensures device { P.device pes_packets.new ≡ P.device pes_packets.old }
    ensures source_failures_are_counted { CountsFailureIf P.failure_count pes_packets.old
        (failed is_copy_source_failure result)
        pes_packets.new }
    ensures file_count { CountsFailureIf F.failure_count file.old (failed is_copy_file_failure
        result) file.new }
{
    let Ok(received) = pes_packets.next(pes_packet) else {
        return Err(CopyFault::Read);
    };
    match received {
        Received::PesPacket(is_gap_marker) => {
            if write_and_flush(file, pes_packet.bytes()).is_err() {
                return Err(CopyFault::Write);
            }
            Ok(Received::PesPacket(is_gap_marker))
        }
        Received::Rest(fault) => Ok(Received::Rest(fault)),
        Received::End => Ok(Received::End),
    }
}

/// Copies the remaining bytes, such as those after `Rest`, and flushes the file after each read
/// that returns bytes. Reads at most 2^64 - 1 times.
///
/// # Errors
///
/// Returns `Read` if the source of the PES packets failed, and `Write` if the file failed. A prefix
/// of the bytes was copied.
pub fn copy_rest<P: PesPackets, F: Flush>(
    pes_packets: &mut P,
    file: &mut F,
) -> Result<(), CopyFault>
    requires rest { P.may_read_rest pes_packets.old ≡ true }
    requires pes_packets { CanFail (P.failure_count pes_packets.old) }
    requires file { CanFail (F.failure_count file.old) }
    ensures reported { IfKnown (P.remaining pes_packets.old) (λ bytes.
        CopiesRest bytes (F.contents file.old) (F.contents file.new) result) }
    ensures buffered { F.buffered file.old ≡ 0 → failed is_copy_file_failure result ≡ false
        → F.buffered file.new ≡ 0 }
    ensures device { P.device pes_packets.new ≡ P.device pes_packets.old }
    ensures source_failures_are_counted { CountsFailureIf P.failure_count pes_packets.old
        (failed is_copy_source_failure result)
        pes_packets.new }
    ensures file_count { CountsFailureIf F.failure_count file.old (failed is_copy_file_failure
        result) file.new }
{
    let mut room = [0; REST_BUFFER_SIZE];
    'reads: for turn in 0..u64::MAX {
        let Ok(n) = pes_packets.read_rest(&mut room) else {
            return Err(CopyFault::Read);
        };
        if n == 0 {
            return Ok(());
        }
        let (part, _) = room.split_at(n);
        if write_and_flush(file, part).is_err() {
            return Err(CopyFault::Write);
        }
    }
    Ok(())
}
