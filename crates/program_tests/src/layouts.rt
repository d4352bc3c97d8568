//! The rows that `schedule` sends for a text with a layout, and that `check` accepts; rejected
//! texts; and invalid layouts.
ghost use Rattle.sub_io.specs.Device.{CanFail};

use crate::answers::assert_reports;
use answer_fixtures::{ACCEPTED, answer_arguments};
use fixtures::{HEAD, block, file_of};
use std::alloc::Global;
use std::process::Abort;
use sub_answer::Status;
use sub_io::{MemSink, MemSource};
use ttx_packet::unham;

// Each case has a text, VP and JC, the layout (empty for the default), and the expected rows (row
// number, first column, cells) or the expected line.
#[rattlefmt::skip]
const CASES: [&[&[u8]]; 18] = [
    &[b"Hi", b"\x16\x02", b"", b"\x16\x11\x0B\x0BHi\x0A\x0A"],
    &[b"Hi", b"\x16\x02", b"before=0D0B0B", b"\x16\x10\x0D\x0B\x0BHi\x0A\x0A"],
    &[b"Hi", b"\x16\x02", b"white", b"\x16\x10\x0B\x0B\x07Hi\x0A\x0A"],
    &[b"Hi", b"\x16\x02", b"before=*0B0B,white", b"\x16\x10\x07\x0B\x0BHi\x0A\x0A"],
    &[b"Hi", b"\x16\x02", b"before=,after=", b"\x16\x13Hi"],
    &[b"Hi", b"\x16\x02", b"row=-2", b"\x14\x11\x0B\x0BHi\x0A\x0A"],
    &[b"Hi", b"\x16\x02", b"row=2", b"refused 53 PastBottom block 1 at 0\n"],
    &[b"Hi", b"\x16\x02", b"row=1,before=0D0B0B", b"refused 54 DoubleRow block 1 at 0\n"],
    &[b"\x0D\x0B\x0BHi\x0A\x0A", b"\x16\x02", b"", b"\x16\x10\x0D\x0B\x0BHi\x0A\x0A"],
    &[b"\x0D\x0B\x0BHi\x0A\x0A", b"\x16\x02", b"before=*07,after=,white,trim",
        b"\x16\x10\x0D\x0B\x0BHi\x0A\x0A"],
    &[b"\x0D\x0B\x0BHi\x0A\x0A", b"\x16\x02", b"text", b"\x16\x10\x0D\x0B\x0BHi\x0A\x0A"],
    &[b"\x0D\x0B\x0BHi\x0A\x0A", b"\x16\x02", b"strip=0A0b0d", b"\x16\x11\x0B\x0BHi\x0A\x0A"],
    &[b"\x0D\x0B\x0BHi\x0A\x0A", b"\x16\x02", b"strip=0A0B0D,before=0D070B0B,after=0A",
        b"\x16\x10\x0D\x07\x0B\x0BHi\x0A"],
    &[b"\x03Hi", b"\x16\x02", b"before=0D*", b"\x16\x11\x0D\x03Hi\x0A\x0A"],
    &[b"Hi", b"\x16\x01", b"left=39", b"\x16\x22\x0B\x0BHi\x0A\x0A"],
    &[b"Hi", b"\x16\x00", b"free=2", b"\x16\x11\x0B\x0BHi\x0A\x0A"],
    &[b"Hi\x8A\x8AHo\x8A", b"\x16\x02", b"last", b"\x14\x11\x0B\x0BHi\x0A\x0A",
        b"\x16\x11\x0B\x0BHo\x0A\x0A"],
    &[b"\x0A", b"\x16\x02", b"strip=0A"],
];

// Returns a subtitle file with one subtitle with this text, VP and JC.
fn file_with_text(rt: &impl Abort, text: &[u8], place: &[u8]) -> [u8; 1152] {
    assert!(rt; text.len() <= 112 && place.len() == 2);
    let mut head = HEAD;
    (head[13], head[14]) = (place[0], place[1]);
    file_of(&block(&head, text))
}

// Returns byte `place` of the Teletext packet in a data unit of the first PES packet. Bit 1 is the
// lowest bit.
fn byte_at(rt: &impl Abort, pes: &[u8], unit: usize, place: usize) -> u8 {
    assert!(rt; unit < 100 && place < 42);
    let at = 50 + 46 * unit + place;
    assert!(rt; at < pes.len());
    pes[at].reverse_bits()
}

// Returns the packet number in a data unit: the row, or 0 for a header.
fn row_of(rt: &impl Abort, pes: &[u8], unit: usize) -> u8 {
    let low = unham(byte_at(rt, pes, unit, 0)).expect(rt, "a magazine");
    let high = unham(byte_at(rt, pes, unit, 1)).expect(rt, "a row");
    assert!(rt; low < 16 && high < 16);
    low / 8 + 2 * high
}

// Asserts the row number, the first column and the cells of the row in a data unit.
fn assert_sends(rt: &impl Abort, case: usize, pes: &[u8], unit: usize, row: &[u8]) {
    assert!(rt; row.len() > 2);
    assert!(rt; row_of(rt, pes, unit) == row[0], "row of case {case}");
    let cells = &row[2..];
    for column in 0..40 {
        let cell = byte_at(rt, pes, unit, 2 + column) & 0x7F;
        let first = row[1] as usize;
        let want = if column >= first && column - first < cells.len() {
            cells[column - first]
        } else {
            0x20
        };
        assert!(rt; cell == want, "column {column} of case {case}");
    }
}

// Writes the schedule of a file, and asserts that the command succeeds.
fn assert_schedules<'a>(
    rt: &(impl Abort + Alloc<A = Global>),
    arguments: &'a [&'a str],
    stl: &[u8],
    file: &mut MemSink,
)
    requires { CanFail file.old.failure_count }
{
    let mut buffer = [0; 64];
    let mut out = MemSink::new(&mut buffer);
    let (mut stl, mut none) = (MemSource::new(stl), MemSource::new(&[]));
    let status = answer_arguments(rt.alloc(), arguments, &mut stl, &mut none, file, &mut out);
    assert!(rt; status == Status::Done, "{arguments:?}");
}

// Asserts the schedule of a file with these options, and the check of this schedule.
fn assert_answers<'a>(
    rt: &(impl Abort + Alloc<A = Global>),
    number: usize,
    stl: &[u8],
    schedule: &'a [&'a str],
    check: &'a [&'a str],
    rows: &[&[u8]],
) {
    if rows.len() == 1 && rows[0].len() > 1 && rows[0][0] > 24 {
        let want = std::str::from_utf8(rows[0]).expect(rt, "a line");
        assert_reports(rt, schedule, stl, &[], want);
        assert_reports(rt, check, stl, &[], want);
        return;
    }
    let mut buffer = [0; 2000];
    let mut file = MemSink::new(&mut buffer);
    assert_schedules(rt, schedule, stl, &mut file);
    assert_reports(rt, check, stl, file.written(), ACCEPTED);
    for (unit, row) in rows.iter().enumerate() {
        assert_sends(rt, number, file.written(), unit + 1, *row);
    }
    assert!(rt;
        row_of(rt, file.written(), rows.len() + 1) == 0,
        "end of case {number}"
    );
}

// Asserts the schedule and the check for a case of `CASES`.
fn assert_case(rt: &(impl Abort + Alloc<A = Global>), number: usize, case: &[&[u8]]) {
    assert!(rt; case.len() >= 3);
    let stl = file_with_text(rt, case[0], case[1]);
    let layout = std::str::from_utf8(case[2]).expect(rt, "a text");
    let schedule = ["subttx", "schedule", "a", "b", "--layout", layout];
    let check = ["subttx", "check", "a", "b", "--layout", layout];
    let len = if layout.is_empty() { 4 } else { 6 };
    assert_answers(
        rt,
        number,
        &stl,
        &schedule[..len],
        &check[..len],
        &case[3..],
    );
}

#[test]
fn draws_texts_by_layouts(rt: HostRuntime) {
    for (number, case) in CASES.iter().enumerate() {
        assert_case(&rt, number, *case);
    }
}

// Asserts the schedule and the check of a text in German, with a layout that removes the bytes 0A.
fn assert_german(rt: &(impl Abort + Alloc<A = Global>), text: &[u8], row: &[u8]) {
    let stl = file_with_text(rt, text, &[22, 2]);
    let schedule = [
        "subttx", "schedule", "a", "b", "--option", "german", "--layout", "strip=0A",
    ];
    let check = [
        "subttx", "check", "a", "b", "--option", "german", "--layout", "strip=0A",
    ];
    assert_answers(rt, 0, &stl, &schedule, &check, &[row]);
}

#[test]
fn a_stripped_byte_parts_a_pair(rt: HostRuntime) {
    let refused = b"refused 50 Character block 1 at 0\n";
    assert_german(&rt, &[0xC8, 0x0A, 0x61], refused);
    assert_german(&rt, b"a\x0A\xC8a", b"\x16\x11\x0B\x0Ba\x7B\x0A\x0A");
}

// The expected line, and the arguments of a check or a schedule: the layout is invalid, or an
// earlier fault is reported.
const REFUSED: [&[&str]; 5] = [
    &[
        "usage 89 Layout\n",
        "subttx",
        "schedule",
        "a",
        "b",
        "--layout",
        "",
    ],
    &[
        "usage 89 Layout\n",
        "subttx",
        "check",
        "a",
        "b",
        "--layout",
        "",
    ],
    &[
        "usage 88 Range\n",
        "subttx",
        "check",
        "a",
        "b",
        "--layout",
        "x",
        "--pes",
        "x",
    ],
    &[
        "usage 83 BadOption\n",
        "subttx",
        "schedule",
        "a",
        "b",
        "--layout",
        "x",
        "--option",
        "x",
    ],
    &[
        "usage 0 Words\n",
        "subttx",
        "check",
        "a",
        "b",
        "--layout",
        "fit",
        "--layout",
        "up",
    ],
];

#[test]
fn refuses_texts_that_are_no_layout(rt: HostRuntime) {
    for row in &REFUSED {
        assert!(rt; row.len() > 1);
        assert_reports(&rt, &row[1..], &[], &[], row[0]);
    }
}
