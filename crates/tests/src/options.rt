//! Options of a transmission.
use crate::asserting::{assert_same, assert_same_for_case};
use fixtures::options;
use std::process::Abort;
use sub_plan::{OptionFault, Options};
use ttx_packet::PageId;

#[test]
fn refuses_a_bound_before_an_origin(rt: HostRuntime) {
    let page = PageId::parse("888").expect(&rt, "page 888");
    let both = Options::new(page, 2_160_001, 0x2_0000_0000).err();
    assert_same(&rt, &both, &Some(OptionFault::Every));
    let origin = Options::new(page, 2_160_000, 0x2_0000_0000).err();
    assert_same(&rt, &origin, &Some(OptionFault::Origin));
}

// Returns options with page 888, a repeat bound of 250 frames and this PTS of frame 0.
fn options_for_origin(rt: &impl Abort, origin: u64) -> Options {
    match options("888", 250, origin) {
        Ok(options) => options,
        Err(_) => panic!(rt; "no options of origin {origin}"),
    }
}

// Asserts the PTS of a frame, and the frame of this PTS, given the PTS of frame 0.
fn assert_times(rt: &impl Abort, origin: u64, frame: u32, pts: u64) {
    let options = options_for_origin(rt, origin);
    assert!(rt; frame < 2_160_000);
    assert_same(rt, &options.pts_of(frame), &pts);
    assert_same(rt, &options.frame_of(pts), &Some(frame));
}

#[test]
fn reports_frames_and_their_times(rt: HostRuntime) {
    assert_times(&rt, 0, 900_000, 3_240_000_000);
    assert_times(&rt, 8_589_930_992, 0, 8_589_930_992);
    assert_times(&rt, 8_589_930_992, 1, 0); // past 33 bits
    assert_times(&rt, 1, 2_159_999, 7_775_996_401);
    // The PTS of frame 2,160,000, which is beyond the end of the day; a PTS between two frames; and
    // a number with more bits than a PTS.
    let options = options_for_origin(&rt, 0);
    for pts in [7_776_000_000, 3601, 0x2_0000_0000] {
        assert_same(&rt, &options.frame_of(pts), &None);
    }
}

#[test]
fn requires_complete_pages_where_it_is_requested(rt: HostRuntime) {
    let plain = options_for_origin(&rt, 7);
    let asking = plain.asking_complete();
    assert!(rt; !plain.asks_complete() && asking.asks_complete() && asking.origin() == 7);
}

// Returns options with this PTS of frame 0 and this value of `within`.
fn allowing(rt: &impl Abort, origin: u64, frames: u64) -> Options {
    match options_for_origin(rt, origin).allowing(frames) {
        Ok(options) => options,
        Err(_) => panic!(rt; "{frames} frames are not allowed"),
    }
}

#[test]
fn allows_two_seconds_at_most(rt: HostRuntime) {
    assert_same(&rt, &options_for_origin(&rt, 7).within(), &0);
    for frames in [0, 1, 50] {
        let options = allowing(&rt, 7, frames);
        assert_same(&rt, &(options.within(), options.origin()), &(frames, 7));
    }
    for frames in [51, u64::MAX] {
        let fault = options_for_origin(&rt, 7).allowing(frames).err();
        assert_same(&rt, &fault, &Some(OptionFault::Within));
    }
    // The earlier options remain, and `within` 0 gives the default options.
    let asking = options_for_origin(&rt, 7).asking_complete().allowing(3);
    assert!(rt; asking.is_ok_and(|options| options.asks_complete() && options.within() == 3));
    let none = allowing(&rt, 7, 3).allowing(0);
    assert!(rt; none.is_ok_and(|options| options == options_for_origin(&rt, 7)));
}

#[test]
fn requires_a_pace_of_a_day_at_most(rt: HostRuntime) {
    let plain = options_for_origin(&rt, 7);
    assert_same(&rt, &plain.pace(), &None);
    for frames in [1, 2_160_000] {
        let paced = plain.pacing(frames).map(|options| options.pace());
        assert_same(&rt, &paced, &Ok(Some(frames)));
    }
    for frames in [0, 2_160_001, u64::MAX] {
        assert_same(&rt, &plain.pacing(frames).err(), &Some(OptionFault::Pace));
    }
    // The earlier options remain.
    let asking = allowing(&rt, 7, 3).asking_complete().pacing(5);
    assert!(rt; asking.is_ok_and(|options| options.asks_complete() && options.within() == 3));
}

#[test]
fn keeps_whether_repeats_may_keep(rt: HostRuntime) {
    let plain = options_for_origin(&rt, 7);
    assert!(rt; !plain.may_keep() && plain.keeping().may_keep());
    let asking = plain.keeping().asking_complete();
    assert!(rt; !plain.asking_complete().may_keep() && asking.may_keep());
    let paced = plain.keeping().pacing(5);
    assert!(rt; paced.is_ok_and(|options| options.may_keep() && options.pace() == Some(5)));
    let allowing = plain.keeping().allowing(3);
    assert!(rt; allowing.is_ok_and(|options| options.may_keep() && options.within() == 3));
    let late = plain.allowing(3);
    assert!(rt; late.is_ok_and(|options| !options.may_keep() && options.keeping().within() == 3));
}

// Asserts the frame of a PTS, given the PTS of frame 0 and `within`.
fn assert_read_as(rt: &impl Abort, origin: u64, frames: u64, pts: u64, frame: Option<u32>) {
    let options = allowing(rt, origin, frames);
    assert_same_for_case(rt, &options.frame_of(pts), &frame, &(origin, frames, pts));
}

#[test]
fn reads_times_between_two_frames_where_frames_are_allowed(rt: HostRuntime) {
    for frames in [1, 50] {
        assert_read_as(&rt, 0, frames, 3600, Some(1));
        assert_read_as(&rt, 0, frames, 2700, Some(1)); // a quarter of a frame early
        assert_read_as(&rt, 0, frames, 2699, Some(0));
        assert_read_as(&rt, 0, frames, 5400, Some(1)); // the second field
        assert_read_as(&rt, 0, frames, 6299, Some(1));
        assert_read_as(&rt, 0, frames, 6300, Some(2));
        // A PTS just before that of frame 0, and a PTS that wraps around after 33 bits.
        assert_read_as(&rt, 0, frames, 0x1_FFFF_FC7C, Some(0));
        assert_read_as(&rt, 0, frames, 0x1_FFFF_FC7B, None);
        assert_read_as(&rt, 0x1_FFFF_FFFF, frames, 0, Some(0));
        assert_read_as(&rt, 900, frames, 0, Some(0));
        assert_read_as(&rt, 901, frames, 0, None);
        // The greatest PTS of the last frame of the day, and a PTS after it.
        assert_read_as(&rt, 0, frames, 7_775_999_099, Some(2_159_999));
        assert_read_as(&rt, 0, frames, 7_775_999_100, None);
        assert_read_as(&rt, 0, frames, 0x2_0000_0000, None); // one bit more than a PTS has
    }
    // If `within` is 0, a PTS between two frames belongs to no frame.
    assert_read_as(&rt, 0, 0, 3600, Some(1));
    assert_read_as(&rt, 0, 0, 2700, None);
    assert_read_as(&rt, 0, 0, 5400, None);
}
