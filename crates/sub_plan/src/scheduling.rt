//! Writes the schedule of a programme, from cue to cue.
ghost use Rattle.std.specs.Prelude.{◌≡◌, ◌≢◌, ◌↔◌, ℕ, ◌+◌, ◌-◌, ◌<◌, ◌≤◌, List, [], Err, IfOk};
ghost use Rattle.std.specs.Prelude.{length};
ghost use Rattle.std.specs.List.{flat_map};
ghost use Rattle.sub_io.specs.Device.{CanFail, CountsFailure, CountsFailureIf, Writes, failed};
ghost use Rattle.ttx_pes.specs.LineOrder.{numbered_units};
ghost use Rattle.sub_plan.specs.Fault.{is_plan_write_failure};
ghost use Rattle.sub_plan.specs.declared.fault.PlanFault.TheVariants.{NoSubtitles};
ghost use Rattle.stl_file.specs.TimeCode.{day};
ghost use Rattle.sub_plan.specs.Schedule.{due_page_in, plan, plan_frames, sendings, sendings_at};
ghost use Rattle.sub_plan.specs.Steps.{pes_packet_bytes_at, steps};

use crate::fault::PlanFault;
use crate::options::Options;
use crate::sending::PageSending;
use stl_rows::{Programme, law_of_edges};
use sub_io::{Failed, Sink};
use ttx_packet::Packet;
use ttx_page::Page;
use ttx_pes::RepeatedPacket;

// Writes Teletext packets as the PES packet of a frame.
fn put_at<K: Sink>(
    sink: &mut K,
    options: &Options,
    frame: u32,
    packets: &[Packet],
) -> Result<(), Failed>
    requires day { frame < day }
    requires few { length packets.now ≤ 32 }
    requires count { CanFail (K.failure_count sink.old) }
    ensures bytes { Writes (K.contents sink.old) (K.contents sink.new)
        (pes_packet_bytes_at options.now.origin packets.now frame) result }
    ensures count { CountsFailure (K.failure_count sink.old) result (K.failure_count sink.new) }
{
    let mut repeated_sending = RepeatedPacket::from_packets(packets);
    put_packet_at(sink, options, frame, &mut repeated_sending)
}

// Writes a page transmission as a PES packet with the PTS of a frame.
fn put_packet_at<K: Sink>(
    sink: &mut K,
    options: &Options,
    frame: u32,
    packet: &mut RepeatedPacket,
) -> Result<(), Failed>
    requires day { frame < day }
    requires count { CanFail (K.failure_count sink.old) }
    ensures bytes { (packets : List (List ℕ)) → packet.old.units ≡ numbered_units 0 packets
        → Writes (K.contents sink.old) (K.contents sink.new)
        (pes_packet_bytes_at options.now.origin packets frame) result }
    ensures units { packet.new.units ≡ packet.old.units }
    ensures count { CountsFailure (K.failure_count sink.old) result (K.failure_count sink.new) }
{
    packet.set_pts(options.pts_of(frame));
    packet.put(sink)
}

// Returns the repeat bound in frames, as a `u32` to be added to a frame.
fn repeat_interval(options: &Options) -> u32
    ensures value { result ≡ options.now.every }
    ensures least { 1 ≤ result }
    ensures most { result ≤ day }
{
    options.every() as u32
}

// Writes the same packets at each frame from `from` to before `end` whose distance from `from` is a
// multiple of the repeat bound, and returns the number of these frames.
fn send_steps<K: Sink>(
    sink: &mut K,
    options: &Options,
    from: u32,
    end: u32,
    packets: &[Packet],
) -> Result<u32, Failed>
    requires order { from ≤ end }
    requires day { end < day }
    requires packets { length packets.now ≤ 32 }
    requires failures { CanFail (K.failure_count sink.old) }
    ensures few { IfOk result (λ n. n ≤ end - from) }
    ensures number { IfOk result (λ n. n ≡ length (steps options.now.every from end)) }
    ensures bytes { Writes (K.contents sink.old) (K.contents sink.new) (flat_map
        (pes_packet_bytes_at options.now.origin packets.now)
        (steps options.now.every from end)) result }
    ensures count { CountsFailure (K.failure_count sink.old) result (K.failure_count sink.new) }
{
    let every = repeat_interval(options);
    let mut packet = RepeatedPacket::from_packets(packets);
    let mut frame = from;
    let mut count = 0;
    while frame < end {
        put_packet_at(sink, options, frame, &mut packet)?;
        count += 1;
        frame += every;
    }
    Ok(count)
}

// Returns the first frame after `frame` with a different expected page, or `last` if no page before
// `last` differs; and the expected page at the returned frame. Draws the page only at cues and at
// `last`.
fn next_change(programme: &Programme, frame: u32, page: &Page, last: u32) -> (u32, Page)
    requires within { frame < last }
    requires page { page.now ≡ due_page_in programme.now frame }
    ensures after { frame < result.0 }
    ensures within { result.0 ≤ last }
    ensures same { (f : ℕ)
        → frame ≤ f → f < result.0 → due_page_in programme.now f ≡ due_page_in programme.now frame }
    ensures change { result.0 < last → due_page_in programme.now result.0 ≢ due_page_in
        programme.now frame }
    ensures page { result.1 ≡ due_page_in programme.now result.0 }
{
    law_of_edges();
    let mut at = frame;
    while let Some(edge) = programme.next_edge(at) {
        if edge >= last {
            break;
        }
        let next = programme.due_page(edge);
        match page.first_difference(&next) {
            Some(_) => return (edge, next),
            None => at = edge,
        }
    }
    (last, programme.due_page(last))
}

// Writes the page transmissions from the first frame to the last, and returns the number of
// transmissions.
fn send_all<K: Sink>(
    programme: &Programme,
    options: &Options,
    serial: bool,
    first: u32,
    last: u32,
    sink: &mut K,
) -> Result<u32, Failed>
    requires order { first < last }
    requires day { last < day }
    requires failures { CanFail (K.failure_count sink.old) }
    ensures number { IfOk result
        (λ n. n ≡ length (sendings (due_page_in programme.now) options.now.every first last)) }
    ensures bytes { Writes (K.contents sink.old) (K.contents sink.new)
        (sendings_at (due_page_in programme.now) options.now programme.now.drawing.national serial
        (sendings (due_page_in programme.now) options.now.every first last))
        result }
    ensures count { CountsFailure (K.failure_count sink.old) result (K.failure_count sink.new) }
{
    let national = programme.national();
    let mut frame = first;
    let mut page = programme.due_page(first);
    let mut count = 0;
    while frame < last {
        let sending = PageSending::from_page(options.page(), national, serial, &page);
        let (end, next) = next_change(programme, frame, &page, last);
        count += send_steps(sink, options, frame, end, sending.packets())?;
        frame = end;
        page = next;
    }
    let sending = PageSending::from_page(options.page(), national, serial, &page);
    put_at(sink, options, last, sending.packets())?;
    Ok(count + 1)
}

/// Writes the schedule of a programme, from the first TCI to the last TCO, and returns the number
/// of page transmissions.
///
/// Each page transmission is one PES packet (EN 300 472): the header of the page, its rows that are
/// not blank and the closing header. The frames with a page transmission are the first frame, each
/// frame at which the expected page changes, every `every` frames between two of these frames, and
/// the last frame. `serial` sets C11, magazine serial, in all headers. The expected page is drawn
/// only at cues, and the schedule is not kept in memory.
///
/// # Errors
///
/// Returns `NoSubtitles` if the programme has no subtitle; nothing was written. Returns `Write` if
/// the sink fails; a prefix of the schedule was written, and nothing after the failure.
pub fn schedule<K: Sink>(
    programme: &Programme,
    options: &Options,
    serial: bool,
    sink: &mut K,
) -> Result<u32, PlanFault>
    requires { CanFail (K.failure_count sink.old) }
    ensures bytes { Writes (K.contents sink.old) (K.contents sink.new)
        (plan programme.now options.now serial) result }
    ensures number { IfOk result
        (λ n. n ≡ length (plan_frames programme.now options.now.every)) }
    ensures empty { (result ≡ Err NoSubtitles) ↔ (programme.now.records ≡ []) }
    ensures nothing { result ≡ Err NoSubtitles → sink.new ≡ sink.old }
    ensures count { CountsFailureIf K.failure_count sink.old (failed is_plan_write_failure result)
        sink.new }
{
    let Some(first) = programme.first_tci() else {
        return Err(PlanFault::NoSubtitles);
    };
    let Some(last) = programme.last_tco() else {
        return Err(PlanFault::NoSubtitles);
    };
    match send_all(programme, options, serial, first, last, sink) {
        Ok(count) => Ok(count),
        Err(_) => Err(PlanFault::Write),
    }
}
