//! Checks a PES file, and reads on after skipped PES packets.
ghost use Rattle.std.specs.Prelude.{◌≡◌, ℕ, ◌+◌, ◌<◌, ◌≤◌, [], ◌∷◌, Err, IfErr, IfOk, List};
ghost use Rattle.std.specs.Prelude.{false, is_none, true};
ghost use Rattle.sub_io.specs.Device.{CanFail, CountsFailureIf, failed};
ghost use Rattle.sub_io.specs.Reading.{IfKnown};
ghost use Rattle.sub_io.specs.Reporting.{ReportsSome};
ghost use Rattle.stl_file.specs.TimeCode.{day};
ghost use Rattle.ttx_pes.specs.PesGrammar.{IsPesValue};
ghost use Rattle.ttx_pes.specs.Reading.{max_pes_packets};
ghost use Rattle.stl_rows.specs.Programme.{IsProgramme};
ghost use Rattle.sub_plan.specs.FrameTime.{clock_of};
ghost use Rattle.sub_plan.specs.Options.{IsOptions};
ghost use Rattle.sub_rules.specs.Fault.{is_pes_read_failure};
ghost use Rattle.sub_rules.specs.FrameRules.{Criteria, criteria_of_judged};
ghost use Rattle.sub_rules.specs.PacketRules.{packets_of_units};
ghost use Rattle.sub_rules.specs.Transmission.{Transmission};
ghost use Rattle.sub_rules.specs.Trusted.CheckStep.{AtPes, Emits};
ghost use Rattle.sub_checker.specs.Checker.{AreCountsBounded};
ghost use Rattle.sub_checker.specs.CheckedFrames.{BetweenPesPackets};
ghost use Rattle.sub_checker.specs.NextPesPackets.{RepeatsLastPacket, is_skipped};
ghost use Rattle.sub_checker.specs.NextPesPackets.{last_packets_after_read};
ghost use Rattle.sub_checker.specs.NextPesPackets.{frames_after_read};
ghost use Rattle.sub_checker.specs.NextPesPackets.{steps_of_read_packet};
ghost use Rattle.sub_checker.specs.Relay.{ReporterRelays};
ghost use Rattle.sub_checker.specs.PesFileEvents.{FailsWhileReadingOn, ReportsFile};

use crate::accepted::{Accepted, is_source_failure};
use crate::checker::Checker;
use crate::file_end::finish;
use crate::flush_before_read::flush_reports;
use crate::fused::FusedAudience;
use crate::reporter::{Relay, Reporter};
use stl_rows::Judging;
use sub_io::{LiveReportSink, ReportSink};
use sub_plan::Options;
use sub_rules::{CheckFault, Event, NextPesPacket, ValidPesPacket, next_pes_packet, units_of};
use ttx_pes::{ComparingReader, PesFault, PesPackets};

/// Checks a PES file, one PES packet at a time, reports its events to `report_sink`, and returns
/// the counts. Returns `None` if `report_sink` stops the check.
///
/// Reading continues after a skipped packet. If subtitles are unreliable, the transmission is
/// checked against the other subtitles.
///
/// `check_all` of `sub_check` calls this function through `check_all_pes_packets`, and documents
/// its events and counts.
///
/// # Errors
///
/// Returns `Pes` with `Read` if the source fails. The events of all packets before the failure were
/// reported.
pub fn report_pes_packets<P: PesPackets, A: LiveReportSink<Event>>(
    judging: &Judging<'_>,
    source: &mut P,
    options: &Options,
    report_sink: &mut A,
) -> Result<Option<Accepted>, CheckFault>
    requires failures { CanFail (P.failure_count source.old) }
    requires continues { A.has_stopped report_sink.old ≡ false }
    requires still { A.has_pending_reports report_sink.old ≡ false }
    ensures exact { IfKnown (P.remaining source.old) (λ bytes.
        ReportsFile (criteria_of_judged judging.now options.now) (clock_of options.now) bytes
        A.is_reported report_sink.old report_sink.new result) }
    ensures stopped { IfOk result (λ counts. A.has_stopped report_sink.new ≡ is_none counts) }
    ensures some { ReportsSome A.is_reported report_sink.old report_sink.new }
    ensures continues { IfErr result (λ _. A.has_stopped report_sink.new ≡ false) }
    ensures read { (pes : ℕ) → result ≡ Err (CheckFault.Pes pes PesFault.Read)
        → FailsWhileReadingOn (clock_of options.now) pes (P.remaining source.old)
        (P.left source.new) }
    ensures only { IfErr result (λ f. is_pes_read_failure f ≡ true) }
    ensures options { IsOptions options.now }
    ensures programme { IsProgramme judging.now.programme.drawing judging.now.programme.records }
    // If nothing was buffered at the call and the source fails, all reports have been flushed.
    ensures flushed_at_failure { A.buffered report_sink.old ≡ 0 → IfErr result
        (λ _. A.buffered report_sink.new ≡
        0) }
    ensures device { P.device source.new ≡ P.device source.old }
    ensures count { CountsFailureIf P.failure_count source.old (failed is_pes_read_failure result)
        source.new }
{
    let mut reader = ComparingReader::new();
    let mut checker = Checker::new(judging, options);
    let mut reporter = Reporter {
        fused: FusedAudience {
            device: report_sink,
            stopped: false,
        },
        relay: Relay::new(),
    };
    let mut skipped = false;
    let mut pes = 0;
    'pes_packets: loop {
        if flush_reports(source, &mut reporter.fused).is_err() {
            return Ok(None);
        }
        let next = match next_pes_packet(&mut reader, source, options, pes) {
            Err(fault) => {
                if is_source_failure(&fault) {
                    return Err(fault);
                }
                return Ok(finish(&mut checker, pes, Some(fault), &mut reporter));
            }
            Ok(next) => next,
        };
        let Some(pes_packet) = next else {
            return Ok(finish(&mut checker, pes, None, &mut reporter));
        };
        skipped = report_pes_packet(
            pes_packet,
            pes,
            skipped,
            &reader,
            &mut checker,
            &mut reporter,
        );
        if reporter.fused.stopped {
            return Ok(None);
        }
        pes += 1;
    }
}

// Checks one PES packet, and returns whether it is skipped. `skipped` says whether the packet
// before was skipped.
fn report_pes_packet<A: ReportSink<Event>>(
    pes_packet: NextPesPacket,
    pes: u32,
    skipped: bool,
    reader: &ComparingReader,
    checker: &mut Checker<'_>,
    reporter: &mut Reporter<'_, A>,
) -> bool
    requires day { (sending : ValidPesPacket) → pes_packet ≡ NextPesPacket.Sent sending
        → sending.frame < day }
    requires below_limit { pes ≤ max_pes_packets }
    requires room { AreCountsBounded pes checker.old.counts }
    ensures skipped { result ≡ is_skipped pes_packet }
    ensures frame { (sending : ValidPesPacket) → pes_packet ≡ NextPesPacket.Sent sending
        → IsPesValue reader.now.frame }
    ensures room { AreCountsBounded (pes + 1) checker.new.counts }
    ensures reported { (g : Criteria) (sent : Transmission) (last : List (List ℕ))
        → BetweenPesPackets g sent last checker.old
        → (skipped ≡ false → RepeatsLastPacket pes_packet → last ≡ packets_of_units
        reader.now.frame.units)
        → ReporterRelays A.is_reported reporter.old
        (steps_of_read_packet g sent pes pes_packet (packets_of_units reader.now.frame.units))
        reporter.new
        × BetweenPesPackets g
        (frames_after_read g sent pes_packet (packets_of_units reader.now.frame.units))
        (last_packets_after_read last pes_packet (packets_of_units reader.now.frame.units))
        checker.new }
{
    match pes_packet {
        NextPesPacket::Skipped(fault) => {
            report_skipped(pes, fault, reporter);
            true
        }
        NextPesPacket::Sent(sending) => {
            let units = units_of(reader);
            checker.check_pes_packet(
                pes,
                sending_after_packet(skipped, sending),
                &units,
                reporter,
            );
            false
        }
    }
}

// Clears `again` after a skipped packet, because it may compare with the skipped packet.
fn sending_after_packet(skipped: bool, sending: ValidPesPacket) -> ValidPesPacket
    ensures frame { result.frame ≡ sending.frame }
    ensures again { result.again ≡ true → (sending.again ≡ true) × (skipped ≡ false) }
{
    ValidPesPacket {
        frame: sending.frame,
        again: sending.again && !skipped,
    }
}

// Reports the fault of a skipped PES packet.
fn report_skipped<A: ReportSink<Event>>(pes: u32, fault: CheckFault, reporter: &mut Reporter<'_, A>)
    ensures { ReporterRelays A.is_reported reporter.old (AtPes pes ∷ Emits (Event.Reported fault) ∷
        [])
        reporter.new }
{
    reporter.go_to(pes);
    reporter.relay(Event::Reported(fault));
}
