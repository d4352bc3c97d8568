//! Reads a PES file, one PES packet at a time.
ghost use Rattle.std.specs.Prelude.{◌≡◌, ◌≢◌, ℕ, ◌+◌, ◌<◌, ◌≤◌, List, IfErr, IfOk, IsSome, Option};
ghost use Rattle.std.specs.Prelude.{Ok, Some, false, true};
ghost use Rattle.sub_io.specs.Device.{CanFail, CountsFailureIf, failed};
ghost use Rattle.sub_io.specs.Reading.{IfKnown};
ghost use Rattle.ttx_pes.specs.PesGrammar.{PesValue};
ghost use Rattle.ttx_pes.specs.PesPackets.{rest_after_pes_packet};
ghost use Rattle.ttx_pes.specs.Reader.{FailsWithinPacket, TakesValidPesPacket};
ghost use Rattle.ttx_pes.specs.Reading.{answer_at, max_pes_packets};
ghost use Rattle.ttx_pes.specs.declared.progress.Progress.TheVariants.{Reading};
ghost use Rattle.stl_file.specs.TimeCode.{day};
ghost use Rattle.sub_plan.specs.FrameTime.{clock_of};
ghost use Rattle.sub_rules.specs.Fault.{is_pes_read_failure, is_subtitle_fault};
ghost use Rattle.sub_rules.specs.FrameRules.{UnreadReason};
ghost use Rattle.sub_rules.specs.PesPackets.{IfSent, OnPesPacket, PesPacket, ReadsPesPackets};
ghost use Rattle.sub_rules.specs.PesPackets.{TakesOnePesPacket};
ghost use Rattle.sub_rules.specs.PesPackets.{ReportsPesPacket};

use crate::fault::CheckFault;
use crate::valid_pes_packet::ValidPesPacket;
use sub_plan::Options;
use ttx_pes::{Compared, ComparingReader, PesFault, PesPackets};

/// The next PES packet of a file.
#[derive(Clone, Copy, Debug, PartialEq, Eq)]
pub enum NextPesPacket {
    /// The PES packet is valid, and its PTS belongs to a frame of the day.
    Sent(ValidPesPacket),
    /// The PES packet is skipped: it is invalid (`Pes`), or its PTS belongs to no frame
    /// (`OffFrame`).
    Skipped(CheckFault),
}

/// Reads PES packet number `pes`, counted from 0. Returns `None` at the end of the file.
///
/// The contents of a valid packet stay in `reader`. Ignore `again` after a skipped packet, because
/// it may compare with that packet.
///
/// # Errors
///
/// Returns `Pes` with `Truncated`, `Start` or `Length` if the next bytes are no PES packet, with
/// `TooMany` if bytes follow after as many PES packets as a day has frames, and with `Read` if the
/// source fails.
#[inline(always)]
pub fn next_pes_packet<P: PesPackets>(
    reader: &mut ComparingReader,
    source: &mut P,
    options: &Options,
    pes: u32,
) -> Result<Option<NextPesPacket>, CheckFault>
    requires failures { CanFail (P.failure_count source.old) }
    requires reading { reader.old.progress ≡ Reading pes }
    requires few { pes ≤ max_pes_packets }
    ensures exact { (pes_packets : List PesPacket) (unread : Option UnreadReason)
        → IfKnown (P.remaining source.old) (λ bytes. failed is_pes_read_failure result ≡ false
        → ReadsPesPackets (clock_of options.now) pes bytes pes_packets unread
        → ReportsPesPacket (clock_of options.now) pes bytes pes_packets unread reader.new.frame
        result) }
    // The call consumes exactly the bytes of the PES packet.
    ensures taken { OnPesPacket result (TakesOnePesPacket (P.remaining source.old)
        (P.remaining source.new)) }
    // The bytes of a valid PES packet match the grammar.
    ensures sent { IfSent result (λ _. TakesValidPesPacket (P.remaining source.old)
        (P.remaining source.new) reader.new.frame) }
    ensures left { IfKnown (P.remaining source.old) (λ bytes.
        OnPesPacket result (P.remaining source.new ≡ Some (rest_after_pes_packet bytes))) }
    ensures progress { OnPesPacket result (reader.new.progress ≡ Reading (pes + 1)) }
    // A file with more PES packets than a day has frames is rejected.
    ensures below { OnPesPacket result (pes < max_pes_packets) }
    // If `again` is set, the data units equal those of the previous PES packet.
    ensures again { IfSent result (λ sending. sending.again ≡ true
        → reader.new.frame.units ≡ reader.old.frame.units) }
    // If `again` is clear, the data field differs from that of the previous PES packet, if that was
    // valid.
    ensures other { IfSent result (λ sending. sending.again ≡ false
        → reader.new.data_field ≢ reader.old.data_field) }
    ensures day { IfSent result (λ sending. sending.frame < day) }
    ensures own { failed is_subtitle_fault result ≡ false }
    // A failure of the source never counts as an invalid PES packet.
    ensures skipped { (fault : CheckFault) → result ≡ Ok (Some (NextPesPacket.Skipped fault))
        → (is_pes_read_failure fault ≡ false) × (is_subtitle_fault fault ≡ false) }
    // A failure of the source is reported for the PES packet in which it happened.
    ensures place { IfErr result (λ f. is_pes_read_failure f ≡ true
        → f ≡ CheckFault.Pes pes PesFault.Read) }
    ensures within { IfErr result (λ f. is_pes_read_failure f ≡ true
        → FailsWithinPacket (P.remaining source.old) (P.left source.new)) }
    // The call reads nothing beyond the PES packet.
    ensures settled { OnPesPacket result (P.left source.new ≡ P.remaining source.new) }
    // Reading cannot fail if the source already has the bytes of the PES packet.
    ensures ready { P.ready source.old ≡ true → failed is_pes_read_failure result ≡ false }
    ensures device { P.device source.new ≡ P.device source.old }
    ensures count { CountsFailureIf P.failure_count source.old (failed is_pes_read_failure result)
        source.new }
{
    match reader.next(source) {
        Err(fault) => {
            if !fault.is_packet_content_fault() {
                return Err(CheckFault::Pes { pes, fault });
            }
            reader.continue_after_fault();
            Ok(Some(NextPesPacket::Skipped(CheckFault::Pes { pes, fault })))
        }
        Ok(Compared::End) => Ok(None),
        Ok(Compared::Same) => Ok(Some(pes_packet_of(reader.pts(), options, pes, true))),
        Ok(Compared::Other) => Ok(Some(pes_packet_of(reader.pts(), options, pes, false))),
    }
}

// Converts a PTS to a frame of the day. The PES packet is skipped if the PTS belongs to no frame.
fn pes_packet_of(pts: u64, options: &Options, pes: u32, again: bool) -> NextPesPacket
    ensures exact { (v : PesValue) (bytes : List ℕ) (pes_packets : List PesPacket)
        (unread : Option UnreadReason)
        → v.pts ≡ pts → pes ≤ max_pes_packets → answer_at pes bytes ≡ Ok (Some v)
        → ReadsPesPackets (clock_of options.now) pes bytes pes_packets unread
        → ReportsPesPacket (clock_of options.now) pes bytes pes_packets unread v
        (Ok (Some result)) }
    ensures again { (sending : ValidPesPacket) → result ≡ NextPesPacket.Sent sending
        → sending.again ≡ again }
    ensures day { (sending : ValidPesPacket) → result ≡ NextPesPacket.Sent sending
        → sending.frame < day }
    ensures skipped { (fault : CheckFault) → result ≡ NextPesPacket.Skipped fault
        → (is_pes_read_failure fault ≡ false) × (is_subtitle_fault fault ≡ false) }
{
    match options.frame_of(pts) {
        Some(frame) => NextPesPacket::Sent(ValidPesPacket { frame, again }),
        None => NextPesPacket::Skipped(CheckFault::OffFrame { pes }),
    }
}
