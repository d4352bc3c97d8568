//! The functions for PES packets, with PES packets of a PES file and of a recording.
ghost use Rattle.sub_io.specs.Device.{CanFail};

use crate::asserting::assert_same;
use crate::recorded::{BEGINS_0, BEGINS_1};
use answer_fixtures::{ACCEPTED, CHECK};
use fixtures::{FIRST, SECOND, TEN, every, file_of_hi, put, schedule_of_hi};
use mpeg_ts::{PacketSize, Pid, RecordingPesPackets};
use std::alloc::Global;
use std::process::Abort;
use std::test::Fail;
use stl_file::Scope;
use stl_rows::{Judging, Layout, National, Programme, load};
use sub_answer::{Status, answer_from_inputs};
use sub_check::{Accepted, check_all_pes_packets, check_pes_packets};
use sub_io::{FirstReported, MemSink, MemSource};
use sub_listen::listen_pes_packets;
use sub_plan::Options;
use sub_request::{Listening, ReceiverKind, Request};
use sub_words::ParseArguments;
use ttx_page::{Keep, Page, Receiver};
use ttx_pes::{FilePesPackets, NumberedPesPackets, PesPackets};

// The numbers of frames and page transmissions in the schedule for `Hi`.
const COUNTS: Accepted = Accepted {
    frames: 51,
    headers: 2,
};

// Returns a recording with the schedule for `Hi` in PID 101 (hexadecimal).
fn recording_of_hi() -> [u8; 376] {
    let mut recording = [0; 376];
    put(&mut recording, 0, &BEGINS_0);
    put(&mut recording, 4, &FIRST);
    put(&mut recording, 188, &BEGINS_1);
    put(&mut recording, 192, &SECOND);
    recording
}

// Returns the PES packets of a PID in a recording.
fn carried(recording: &[u8], pid: Pid) -> RecordingPesPackets<MemSource<'_>> {
    RecordingPesPackets::new(MemSource::new(recording), pid, PacketSize::Plain)
}

// Returns the options of a check and a PID. The test is proved faster if these are created before
// memory is allocated.
fn given() -> Result<(Options, Pid), Fail> {
    Ok((every(250)?, Pid::new(0x101).ok_or("a PID")?))
}

// Returns the programme with the subtitle `Hi`.
fn programme_of_hi(alloc: Global) -> Result<Programme, Fail> {
    let bytes = file_of_hi();
    let mut stl = MemSource::new(&bytes);
    let (layout, scope) = (Layout::default(), Scope::whole());
    Ok(load(alloc, &mut stl, National::English, layout, scope)?)
}

// Asserts that PES packets are accepted.
fn assert_accepts<P: PesPackets>(
    rt: &impl Abort,
    programme: &Programme,
    options: &Options,
    pes_packets: &mut P,
)
    requires { CanFail (P.failure_count pes_packets.old) }
{
    assert_same(
        rt,
        &check_pes_packets(programme, pes_packets, options),
        &Ok(COUNTS),
    );
}

#[test]
fn checks_pes_packets(rt: HostRuntime) -> Result<(), Fail> {
    let (options, pid) = given()?;
    let (pes, recording) = (schedule_of_hi(), recording_of_hi());
    let mut source = MemSource::new(&pes);
    let programme = programme_of_hi(rt.alloc())?;
    assert_accepts(
        &rt,
        &programme,
        &options,
        &mut FilePesPackets::new(&mut source),
    );
    assert_accepts(&rt, &programme, &options, &mut carried(&recording, pid));
    Ok(())
}

// Asserts that PES packets cause no events.
fn assert_reports_nothing<P: PesPackets>(
    rt: &impl Abort,
    programme: &Programme,
    options: &Options,
    pes_packets: &mut P,
)
    requires { CanFail (P.failure_count pes_packets.old) }
{
    let mut reported = FirstReported::new();
    let result = check_all_pes_packets(
        &Judging::known(programme),
        pes_packets,
        options,
        &mut reported,
    );
    assert_same(rt, &result, &Ok(Some(COUNTS)));
    assert_same(rt, &reported.into_first(), &None);
}

#[test]
fn reports_nothing_of_pes_packets_that_are_accepted(rt: HostRuntime) -> Result<(), Fail> {
    let (options, pid) = given()?;
    let (pes, recording) = (schedule_of_hi(), recording_of_hi());
    let mut source = MemSource::new(&pes);
    let programme = programme_of_hi(rt.alloc())?;
    assert_reports_nothing(
        &rt,
        &programme,
        &options,
        &mut FilePesPackets::new(&mut source),
    );
    assert_reports_nothing(&rt, &programme, &options, &mut carried(&recording, pid));
    Ok(())
}

// Asserts that a receiver shows `Hi` in the middle of row 22 after these PES packets.
fn assert_hears<P: PesPackets>(rt: &impl Abort, listening: &Listening, pes_packets: &mut P)
    requires { CanFail (P.failure_count pes_packets.old) }
{
    let mut receiver = Keep::tune(listening.options.page(), Page::blank());
    let result = listen_pes_packets(&mut receiver, &mut None, pes_packets, listening);
    assert_same(rt, &result, &Ok(()));
    let page = receiver.page();
    assert_same(rt, &[page.cell(22, 19), page.cell(22, 20)], b"Hi");
}

#[test]
fn hears_pes_packets(rt: HostRuntime) -> Result<(), Fail> {
    let (options, pid) = given()?;
    let (pes, recording) = (schedule_of_hi(), recording_of_hi());
    let mut source = MemSource::new(&pes);
    let listening = Listening {
        options,
        at: TEN,
        skip: 0,
        flips: Vec::new(rt.alloc()),
        lost: Vec::new(rt.alloc()),
        receiver: ReceiverKind::Keep,
    };
    assert_hears(&rt, &listening, &mut FilePesPackets::new(&mut source));
    assert_hears(&rt, &listening, &mut carried(&recording, pid));
    Ok(())
}

// Asserts the answer to a check of PES packets.
fn assert_answers_with<P: NumberedPesPackets>(
    rt: &(impl Abort + Alloc<A = Global>),
    pes_packets: &mut P,
) -> Result<(), Fail>
    requires { CanFail (P.failure_count pes_packets.old) }
{
    let request = Request::parse(rt.alloc(), &CHECK).ok().ok_or("a request")?;
    let bytes = file_of_hi();
    let mut stl = MemSource::new(&bytes);
    let mut buffer = [0; 64];
    let mut out = MemSink::new(&mut buffer);
    let mut file = MemSink::new(&mut []);
    let status = answer_from_inputs(
        rt.alloc(),
        &request,
        &mut stl,
        pes_packets,
        &mut file,
        &mut out,
    );
    assert_same(rt, &status, &Status::Done);
    assert_same(rt, &out.written(), &ACCEPTED.as_bytes());
    Ok(())
}

#[test]
fn answers_over_pes_packets(rt: HostRuntime) -> Result<(), Fail> {
    let (_, pid) = given()?;
    let (pes, recording) = (schedule_of_hi(), recording_of_hi());
    let mut source = MemSource::new(&pes);
    assert_answers_with(&rt, &mut FilePesPackets::new(&mut source))?;
    assert_answers_with(&rt, &mut carried(&recording, pid))
}
