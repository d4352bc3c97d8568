//! Reads PES packets, most of which repeat the packet before them.
//!
//! `check`, `listen` and `packets` each have their own loop over this reader. A common loop would
//! need more lemmas than it saves.
ghost use Rattle.std.specs.Prelude.{◌≡◌, ℕ, ◌+◌, ◌≤◌, ◌≢◌, true, false, [], None, Ok, IfErr};
ghost use Rattle.sub_io.specs.Device.{CanFail, CountsFailureIf, failed};
ghost use Rattle.ttx_pes.specs.Comparing.{comparison_as_flag, count_through_fault_after};
ghost use Rattle.ttx_pes.specs.Comparing.{with_packet_skipped};
ghost use Rattle.ttx_pes.specs.Comparing.{TakesDataField};
ghost use Rattle.ttx_pes.specs.Fault.{is_packet_content_fault, is_read_fault};
ghost use Rattle.ttx_pes.specs.PesPackets.{TakesRefusedPesPacket};
ghost use Rattle.ttx_pes.specs.declared.comparing_reader.Compared.TheVariants.{Same, Other};
ghost use Rattle.ttx_pes.specs.declared.progress.Progress.TheVariants.{Reading, AtEnd, Broken};
ghost use Rattle.ttx_pes.specs.PesGrammar.{IsPesValue, empty_value};
ghost use Rattle.ttx_pes.specs.Reading.{max_pes_packets};
ghost use Rattle.ttx_pes.specs.Reader.{ReportsPacket, frame_answer, progress_after};

use crate::fault::PesFault;
use crate::frame_buffer::FrameBuffer;
use crate::passing::{MAX_PES_PACKETS, read_end};
use crate::pes_packets::{PesPackets, Received};
use crate::progress::Progress;
use crate::sent_units::SentUnits;
use std::marker::Model;

/// The result of reading with a `ComparingReader`.
#[derive(Clone, Copy, Debug, PartialEq, Eq)]
pub enum Compared {
    /// The file or recording, or the range of PES packets to read, has ended.
    End,
    /// A valid PES packet with the same data field (bytes 45 to the end) as the packet before. It
    /// has the same units; its PTS may differ.
    Same,
    /// A valid PES packet whose data field differs from that of the packet before, or which follows
    /// no valid packet: the first packet that is read, or the packet after a fault.
    Other,
}

/// A reader of PES packets like `PesReader` that also compares the data field of each packet with
/// that of the packet before. It stores its progress, and of the last packet the PTS, the data
/// field and the offsets of the Teletext units. The units are borrowed in DVB bit order, without
/// reversing bits.
///
/// A subtitle transmission repeats each page many times. If the data field is unchanged, only the
/// header of the PES packet is parsed.
#[derive(Drop)]
pub struct ComparingReader {
    progress: Progress,
    // The number of packets consumed, including the last one, if the last result was the fault of a
    // complete packet; after such a fault `continue_after_fault` allows reading to continue, and
    // resets this to `None`.
    count_through_fault: Option<u32>,
    kept: FrameBuffer,
}

impl Model for ComparingReader {
    ghost use Rattle.std.specs.Prelude.{◌≤◌, IfSome};
    ghost use Rattle.ttx_pes.specs.Comparing.{ComparingValue};
    ghost use Rattle.ttx_pes.specs.Reader.{HasReadAtMost};
    ghost use Rattle.ttx_pes.specs.Reading.{max_pes_packets};

    ghost Value = { ComparingValue };

    ghost view = { λ r. record {
      progress = r.progress;
      frame = r.kept.frame;
      data_field = r.kept.data_field;
      count_through_fault = r.count_through_fault;
    } };

    ghost invariant = { λ r. HasReadAtMost max_pes_packets r.progress
        × IfSome r.count_through_fault (λ given. given ≤ max_pes_packets) };
}

// Reads the next PES packet, and compares it with the stored packet.
#[inline(always)]
fn read_compared<P: PesPackets>(
    given: u32,
    pes_packets: &mut P,
    kept: &mut FrameBuffer,
) -> Result<Compared, PesFault>
    requires count { CanFail (P.failure_count pes_packets.old) }
    ensures reports { ReportsPacket (Reading given) (P.remaining pes_packets.old)
        (P.left pes_packets.new)
        (frame_answer (comparison_as_flag result) kept.new.frame) }
    ensures taken { comparison_as_flag result ≡ Ok true → TakesDataField
        (P.remaining pes_packets.old)
        (P.left pes_packets.new) kept.new.frame kept.new.data_field }
    ensures same { result ≡ Ok Same → kept.new.data_field ≡ kept.old.data_field }
    ensures units { result ≡ Ok Same → kept.new.frame.units ≡ kept.old.frame.units }
    ensures other { result ≡ Ok Other → kept.new.data_field ≢ kept.old.data_field }
    ensures below { comparison_as_flag result ≡ Ok true → given ≢ max_pes_packets }
    ensures pes_packet { IfErr result (λ fault. is_packet_content_fault fault ≡ true
        → TakesRefusedPesPacket (P.remaining pes_packets.old) (P.left pes_packets.new) fault) }
    ensures limit_is_not_reached { IfErr result (λ fault. is_packet_content_fault fault ≡ true
        → given ≢ max_pes_packets) }
    ensures settled { comparison_as_flag result ≡ Ok true → P.left pes_packets.new ≡ P.remaining
        pes_packets.new }
    ensures pes_packet_settled { IfErr result (λ fault. is_packet_content_fault fault ≡ true
        → P.left pes_packets.new ≡ P.remaining pes_packets.new) }
    ensures ready { P.ready pes_packets.old ≡ true → failed is_read_fault result ≡ false }
    ensures device { P.device pes_packets.new ≡ P.device pes_packets.old }
    ensures count { CountsFailureIf P.failure_count pes_packets.old (failed is_read_fault result)
        pes_packets.new }
{
    if given == MAX_PES_PACKETS {
        read_end(given, pes_packets)?;
        return Ok(Compared::End);
    }
    match pes_packets.next(kept)? {
        Received::End => Ok(Compared::End),
        Received::PesPacket(Ok(true)) => Ok(Compared::Same),
        Received::PesPacket(Ok(false)) => Ok(Compared::Other),
        Received::PesPacket(Err(fault)) => Err(fault),
        Received::Rest(fault) => Err(fault),
    }
}

impl ComparingReader {
    /// Creates a reader at the start of a file, with PTS 0 and no units.
    pub fn new() -> Self
        ensures { result
            ≡ record {
              progress = Reading 0;
              frame = empty_value;
              data_field = [];
              count_through_fault = None;
            } }
    {
        ComparingReader {
            progress: Progress::Reading(0),
            count_through_fault: None,
            kept: FrameBuffer::new(),
        }
    }

    /// Returns the PTS of the last PES packet in ticks of 90 kHz. The PTS is 0 before the first
    /// packet, at the end and after a fault.
    pub fn pts(&self) -> u64
        ensures { result ≡ self.now.frame.pts }
    {
        self.kept.pts()
    }

    /// Returns the Teletext units of the last PES packet, borrowed from its bytes. The list is
    /// empty before the first packet, at the end and after a fault.
    pub fn units(&self) -> SentUnits<'_>
        ensures value { result ≡ self.now.frame.units }
        // The contents of every valid PES packet fit in a `PesFrame`.
        ensures frame { IsPesValue self.now.frame }
    {
        self.kept.units()
    }

    /// Reads the next PES packet, and returns whether it has the same data field as the packet
    /// before (EN 300 472, PES data field). Afterwards `pts` and `units` return the contents of the
    /// packet.
    ///
    /// `Same` and `Other` consume exactly the packet's bytes, 184 to 1656. Returns `End` at the end
    /// of `pes_packets` and at each later call.
    ///
    /// # Errors
    ///
    /// Returns the same errors as `PesReader::next`. After the faults `Flags` to `LineOrder` and
    /// `Lost`, exactly the packet's bytes were consumed, and `continue_after_fault` allows reading
    /// to continue.
    #[inline(always)]
    pub fn next<P: PesPackets>(&mut self, pes_packets: &mut P) -> Result<Compared, PesFault>
        requires { CanFail (P.failure_count pes_packets.old) }
        ensures reports { ReportsPacket self.old.progress (P.remaining pes_packets.old)
            (P.left pes_packets.new) (frame_answer (comparison_as_flag result) self.new.frame) }
        ensures taken { comparison_as_flag result ≡ Ok true → TakesDataField
            (P.remaining pes_packets.old)
            (P.left pes_packets.new) self.new.frame self.new.data_field }
        ensures empty { comparison_as_flag result ≢ Ok true → self.new.frame ≡ empty_value }
        // `Same` means that the data field is unchanged, and `Other` that it has changed.
        ensures same { result ≡ Ok Same → self.new.data_field ≡ self.old.data_field }
        ensures units { result ≡ Ok Same → self.new.frame.units ≡ self.old.frame.units }
        ensures other { result ≡ Ok Other → self.new.data_field ≢ self.old.data_field }

        // If the fault is in the contents of a complete packet, the bytes of that packet were
        // consumed.
        ensures pes_packet { IfErr result (λ fault. is_packet_content_fault fault ≡ true
            → TakesRefusedPesPacket (P.remaining pes_packets.old) (P.left pes_packets.new) fault) }
        ensures count_through_fault { self.new.count_through_fault
            ≡ count_through_fault_after self.old.progress result }
        ensures progress { self.new.progress
            ≡ progress_after self.old.progress (frame_answer (comparison_as_flag result)
            self.new.frame) }
        ensures few { (given : ℕ) → self.new.progress ≡ Reading given → given ≤ max_pes_packets }
        // After the end of the source or a fault, the reader consumes no bytes.
        ensures consumes_nothing_at_end { self.old.progress ≡ AtEnd → pes_packets.new ≡
            pes_packets.old }
        ensures broken { self.old.progress ≡ Broken → pes_packets.new ≡ pes_packets.old }
        // After a valid packet, or the fault of a complete packet, `left` has all remaining bytes.
        ensures settled { comparison_as_flag result ≡ Ok true → P.left pes_packets.new ≡ P.remaining
            pes_packets.new }
        ensures pes_packet_settled { IfErr result (λ fault. is_packet_content_fault fault ≡ true
            → P.left pes_packets.new ≡ P.remaining pes_packets.new) }
        // Reading cannot fail if the next call uses no device.
        ensures ready { P.ready pes_packets.old ≡ true → failed is_read_fault result ≡ false }
        ensures device { P.device pes_packets.new ≡ P.device pes_packets.old }
        ensures count { CountsFailureIf P.failure_count pes_packets.old
            (failed is_read_fault result)
            pes_packets.new }
    {
        self.count_through_fault = None;
        let given = match self.progress {
            Progress::Reading(given) => given,
            Progress::AtEnd => return self.return_without_frame(Ok(Compared::End)),
            Progress::Broken => return self.return_without_frame(Err(PesFault::Ended)),
        };
        match read_compared(given, pes_packets, &mut self.kept) {
            Ok(Compared::End) => {
                self.progress = Progress::AtEnd;
                self.return_without_frame(Ok(Compared::End))
            }
            Ok(Compared::Same) => {
                self.progress = Progress::Reading(given + 1);
                Ok(Compared::Same)
            }
            Ok(Compared::Other) => {
                self.progress = Progress::Reading(given + 1);
                Ok(Compared::Other)
            }
            Err(fault) => {
                self.progress = Progress::Broken;
                if fault.is_packet_content_fault() {
                    self.count_through_fault = Some(given + 1);
                }
                self.return_without_frame(Err(fault))
            }
        }
    }

    // Removes the stored PES packet, and returns `answer`.
    #[inline(always)]
    fn return_without_frame(
        &mut self,
        answer: Result<Compared, PesFault>,
    ) -> Result<Compared, PesFault>
        ensures answer { result ≡ answer }
        ensures none { self.new ≡ record self.old { frame = empty_value; data_field = [] } }
    {
        self.kept.clear();
        answer
    }

    /// Allows reading to continue after the fault of a complete packet, whose length field shows
    /// where it ends. Does nothing after any other result.
    pub fn continue_after_fault(&mut self)
        ensures over { self.new ≡ with_packet_skipped self.old }
        ensures few { (given : ℕ) → self.new.progress ≡ Reading given → given ≤ max_pes_packets }
    {
        if let Some(given) = self.count_through_fault {
            self.progress = Progress::Reading(given);
            self.count_through_fault = None;
        }
    }
}
