//! Reads the contents of PES packets, one after another.
ghost use Rattle.std.specs.Prelude.{◌≡◌, ℕ, ◌+◌, ◌%◌, ◌≤◌, ◌≢◌, true, length, Ok, Err, OnOk, IfErr};
ghost use Rattle.sub_io.specs.Device.{CanFail, CountsFailureIf, failed};
ghost use Rattle.ttx_pes.specs.Fault.{is_read_fault};
ghost use Rattle.ttx_pes.specs.declared.progress.Progress.TheVariants.{Reading, AtEnd, Broken};
ghost use Rattle.ttx_pes.specs.PesGrammar.{empty_value, max_pes_packet_size, payload_size};
ghost use Rattle.ttx_pes.specs.Reading.{value_at, is_format_fault, max_pes_packets};
ghost use Rattle.ttx_pes.specs.Reader.{ReportsPacket, frame_answer, progress_after};
ghost use Rattle.ttx_pes.specs.Accepting.{ReadsValue};

use crate::data_unit::{DATA_UNIT, append_units_from_blocks};
use crate::fault::PesFault;
use crate::file_pes_packets::FilePesPackets;
use crate::frame_buffer::pes_packet_body;
use crate::passing::{MAX_PES_PACKETS, read_end};
use crate::pes_frame::PesFrame;
use crate::pes_header::pts_of;
use crate::pes_packets::{PesPackets, Received, TakePesPacket};
use crate::progress::Progress;
use std::marker::Model;
use sub_io::Source;

/// A reader of PES packets with Teletext units. Its model is its progress.
#[derive(Drop)]
pub struct PesReader {
    progress: Progress,
}

impl Model for PesReader {
    ghost use Rattle.ttx_pes.specs.declared.progress.Progress.{Progress};
    ghost use Rattle.ttx_pes.specs.Reader.{HasReadAtMost};
    ghost use Rattle.ttx_pes.specs.Reading.{max_pes_packets};

    ghost Value = { Progress };

    ghost view = { λ r. r.progress };

    ghost invariant = { λ r. HasReadAtMost max_pes_packets r.progress };
}

// Parses a PES packet, from byte 6 on, into `frame`.
#[tactic(auto, unfolding(crate::specs::Reading::value_at))]
fn read_value(body: &[u8], frame: &mut PesFrame) -> Result<(), PesFault>
    requires short { length body.now + 6 ≤ max_pes_packet_size }
    requires whole { (length body.now + 6) % payload_size ≡ 0 }
    ensures ok { OnOk result (value_at body.now ≡ Ok frame.new) }
    ensures err { IfErr result (λ fault. value_at body.now ≡ Err fault) }
    ensures kind { IfErr result (λ fault. is_format_fault fault ≡ true) }
{
    let pts = pts_of(body)?;
    frame.restart(pts);
    let (_, blocks) = body.split_at(40);
    append_units_from_blocks(frame, blocks.len() / DATA_UNIT, blocks)
}

impl TakePesPacket for PesFrame {
    // `Ok` if the PES packet is valid, otherwise its fault.
    type Answer = Result<(), PesFault>;

    ghost is_take = { ReadsValue };

    // Parses a PES packet into a `PesFrame`.
    fn take(&mut self, pes_packet: &[u8]) -> Result<(), PesFault> {
        read_value(pes_packet_body(pes_packet), self)
    }
}

// Parses the next PES packet into `frame`. Returns `false` at the end of the reader.
fn read_packet<P: PesPackets>(
    given: u32,
    pes_packets: &mut P,
    frame: &mut PesFrame,
) -> Result<bool, PesFault>
    requires { CanFail (P.failure_count pes_packets.old) }
    ensures reports { ReportsPacket (Reading given) (P.remaining pes_packets.old)
        (P.left pes_packets.new)
        (frame_answer result frame.new) }
    ensures below { result ≡ Ok true → given ≢ max_pes_packets }
    ensures device { P.device pes_packets.new ≡ P.device pes_packets.old }
    ensures count { CountsFailureIf P.failure_count pes_packets.old (failed is_read_fault result)
        pes_packets.new }
{
    if given == MAX_PES_PACKETS {
        read_end(given, pes_packets)?;
        return Ok(false);
    }
    match pes_packets.next(frame)? {
        Received::End => Ok(false),
        Received::PesPacket(Ok(())) => Ok(true),
        Received::PesPacket(Err(fault)) => Err(fault),
        Received::Rest(fault) => Err(fault),
    }
}

// Parses the next PES packet into `frame`. Returns `false` at the end of the source.
fn read_next<S: Source>(given: u32, source: &mut S, frame: &mut PesFrame) -> Result<bool, PesFault>
    requires { CanFail (S.failure_count source.old) }
    ensures reports { ReportsPacket (Reading given) (S.remaining source.old)
        (S.remaining source.new)
        (frame_answer result frame.new) }
    ensures below { result ≡ Ok true → given ≢ max_pes_packets }
    ensures count { CountsFailureIf S.failure_count source.old (failed is_read_fault result)
        source.new }
{
    let mut pes_packets = FilePesPackets::new(source);
    read_packet(given, &mut pes_packets, frame)
}

impl PesReader {
    /// Creates a reader at the start of a file.
    pub fn new() -> Self
        ensures { result ≡ Reading 0 }
    {
        PesReader {
            progress: Progress::Reading(0),
        }
    }

    /// Reads the next PES packet, and returns its PTS and its Teletext units (EN 300 472).
    ///
    /// Consumes exactly the packet's bytes, 184 to 1656. Returns `None` at the end of the source
    /// and at each later call.
    ///
    /// # Errors
    ///
    /// Checks in this order: `TooMany` if bytes follow 2,160,000 packets, one for each frame of a
    /// day; `Truncated` if fewer than six bytes remain; `Start`; `Length`; `Truncated` if the bytes
    /// end within the packet; `Lost` if all bytes from byte 6 on are FF; `Flags` to `DataId`; for
    /// each data unit `UnitLength`, `Framing`, `LineOrder`. Returns `Read` if the source fails
    /// before it has returned the packet, or six bytes with a wrong start code or length. After any
    /// error each call returns `Ended` and consumes nothing.
    pub fn next<S: Source>(&mut self, source: &mut S) -> Result<Option<PesFrame>, PesFault>
        requires { CanFail (S.failure_count source.old) }
        ensures reports { ReportsPacket self.old (S.remaining source.old) (S.remaining source.new)
            result }
        ensures progress { self.new ≡ progress_after self.old result }
        // After the end of the source or a fault, the reader consumes no bytes.
        ensures consumes_nothing_at_end { self.old ≡ AtEnd → source.new ≡ source.old }
        ensures broken { self.old ≡ Broken → source.new ≡ source.old }
        ensures count { CountsFailureIf S.failure_count source.old (failed is_read_fault result)
            source.new }
    {
        let mut frame = PesFrame::new(0);
        match self.next_into(source, &mut frame) {
            Ok(true) => Ok(Some(frame)),
            Ok(false) => Ok(None),
            Err(fault) => Err(fault),
        }
    }

    /// Reads the next PES packet into `frame`, like `next`. Returns `false` at the end of the
    /// source.
    ///
    /// The previous contents of `frame` are lost. At the end or after a fault, `frame` gets PTS 0
    /// and no units.
    ///
    /// # Errors
    ///
    /// Returns the same errors as `next`.
    pub fn next_into<S: Source>(
        &mut self,
        source: &mut S,
        frame: &mut PesFrame,
    ) -> Result<bool, PesFault>
        requires { CanFail (S.failure_count source.old) }
        ensures reports { ReportsPacket self.old (S.remaining source.old) (S.remaining source.new)
            (frame_answer result frame.new) }
        ensures empty { result ≢ Ok true → frame.new ≡ empty_value }
        ensures progress { self.new ≡ progress_after self.old (frame_answer result frame.new) }
        ensures few { (given : ℕ) → self.new ≡ Reading given → given ≤ max_pes_packets }
        // After the end of the source or a fault, the reader consumes no bytes.
        ensures consumes_nothing_at_end { self.old ≡ AtEnd → source.new ≡ source.old }
        ensures broken { self.old ≡ Broken → source.new ≡ source.old }
        ensures count { CountsFailureIf S.failure_count source.old (failed is_read_fault result)
            source.new }
    {
        let given = match self.progress {
            Progress::Reading(given) => given,
            Progress::AtEnd => {
                frame.restart(0);
                return Ok(false);
            }
            Progress::Broken => {
                frame.restart(0);
                return Err(PesFault::Ended);
            }
        };
        match read_next(given, source, frame) {
            Ok(true) => {
                self.progress = Progress::Reading(given + 1);
                Ok(true)
            }
            Ok(false) => {
                self.progress = Progress::AtEnd;
                frame.restart(0);
                Ok(false)
            }
            Err(fault) => {
                self.progress = Progress::Broken;
                frame.restart(0);
                Err(fault)
            }
        }
    }
}
