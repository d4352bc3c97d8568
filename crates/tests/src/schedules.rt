//! The schedule of a small subtitle file, byte for byte. Other tests cover other schedules and
//! rejected files.
use crate::asserting::assert_same;
use fixtures::{every, file_of_hi, schedule_of_hi};
use std::alloc::Global;
use std::process::Abort;
use std::test::Fail;
use stl_file::Scope;
use stl_rows::{Layout, National, load};
use sub_io::{MemSink, MemSource};
use sub_plan::schedule;

// Asserts the schedule with a national option and a transmission mode. Only byte 9 of the page's
// header and of the header that ends the page differ from the schedule for `Hi`.
fn assert_writes(
    rt: &(impl Abort + Alloc<A = Global>),
    national: National,
    serial: bool,
    header: u8,
    closing: u8,
) -> Result<(), Fail> {
    let programme = load(
        rt.alloc(),
        &mut MemSource::new(&file_of_hi()),
        national,
        Layout::default(),
        Scope::whole(),
    )?;
    let mut buffer = [0; 368];
    let result = schedule(
        &programme,
        &every(250)?,
        serial,
        &mut MemSink::new(&mut buffer),
    );
    assert_same(rt, &result, &Ok(2));
    let mut want = schedule_of_hi();
    (want[59], want[151]) = (header, closing);
    (want[184 + 59], want[184 + 105]) = (header, closing);
    assert!(rt; buffer == want, "{national:?} {serial}");
    Ok(())
}

#[test]
fn writes_each_byte(rt: HostRuntime) -> Result<(), Fail> {
    assert_writes(&rt, National::English, false, 0xA8, 0xA8)?;
    assert_writes(&rt, National::English, true, 0x40, 0x40)?;
    assert_writes(&rt, National::German, false, 0x0B, 0xA8)?;
    assert_writes(&rt, National::German, true, 0xE3, 0x40)?;
    // In the bit order of EN 300 706, the values of byte 9 are 64, 73, A1, B6, 49, 5E, 8C, 9B, 38
    // and 2F; for Romanian, FD and EA.
    assert_writes(&rt, National::Swedish, false, 0x26, 0xA8)?;
    assert_writes(&rt, National::Swedish, true, 0xCE, 0x40)?;
    assert_writes(&rt, National::Italian, false, 0x85, 0xA8)?;
    assert_writes(&rt, National::Italian, true, 0x6D, 0x40)?;
    assert_writes(&rt, National::French, false, 0x92, 0xA8)?;
    assert_writes(&rt, National::French, true, 0x7A, 0x40)?;
    assert_writes(&rt, National::Spanish, false, 0x31, 0xA8)?;
    assert_writes(&rt, National::Spanish, true, 0xD9, 0x40)?;
    assert_writes(&rt, National::Czech, false, 0x1C, 0xA8)?;
    assert_writes(&rt, National::Czech, true, 0xF4, 0x40)?;
    assert_writes(&rt, National::Polish, false, 0xA8, 0xA8)?;
    assert_writes(&rt, National::Polish, true, 0x40, 0x40)?;
    assert_writes(&rt, National::Turkish, false, 0x1C, 0xA8)?;
    assert_writes(&rt, National::Turkish, true, 0xF4, 0x40)?;
    assert_writes(&rt, National::Croatian, false, 0x31, 0xA8)?;
    assert_writes(&rt, National::Croatian, true, 0xD9, 0x40)?;
    assert_writes(&rt, National::Romanian, false, 0xBF, 0xA8)?;
    assert_writes(&rt, National::Romanian, true, 0x57, 0x40)?;
    assert_writes(&rt, National::Estonian, false, 0x26, 0xA8)?;
    assert_writes(&rt, National::Estonian, true, 0xCE, 0x40)?;
    assert_writes(&rt, National::Lithuanian, false, 0x85, 0xA8)?;
    assert_writes(&rt, National::Lithuanian, true, 0x6D, 0x40)
}
