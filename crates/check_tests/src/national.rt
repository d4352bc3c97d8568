//! The national options of `check`. Each header of the page must have the bits C12 to C14 of the
//! option.
use crate::answers::assert_reports;
use answer_fixtures::ACCEPTED;
use fixtures::{file_of_hi, schedule_of_hi};
use std::alloc::Global;
use std::process::Abort;

// The names of the national options on the command line.
#[rattlefmt::skip]
const WORDS: [&str; 13] = [
    "english", "german", "swedish", "italian", "french", "spanish", "czech", "polish", "turkish",
    "croatian", "romanian", "estonian", "lithuanian",
];

// Byte 9 of a header of each national option, in the bit order of a PES packet. Sub-sets of
// different regions may have the same byte.
const LAST_BYTES: [u8; 13] = [
    0xA8, 0x0B, 0x26, 0x85, 0x92, 0x31, 0x1C, 0xA8, 0x1C, 0x31, 0xBF, 0x26, 0x85,
];

// The eight values of that byte. The last has C12, C13 and C14 set.
const ALL_LAST_BYTES: [u8; 8] = [0xA8, 0x0B, 0x26, 0x85, 0x92, 0x31, 0x1C, 0xBF];

const FIRST_REFUSED: &str = "refused 67 Control frame 10:00:00:00 packet 0\n";

const SECOND_REFUSED: &str = "refused 67 Control frame 10:00:02:00 packet 0\n";

// Returns the transmission for `Hi` with these values of byte 9 in its two headers of the page.
fn schedule_with_headers(first: u8, second: u8) -> [u8; 368] {
    let mut file = schedule_of_hi();
    (file[59], file[243]) = (first, second);
    file
}

// Asserts the line of a check of `Hi` with a national option.
fn assert_checks(rt: &(impl Abort + Alloc<A = Global>), word: &str, pes: &[u8], want: &str) {
    let arguments = ["subttx", "check", "a", "b", "--option", word];
    assert_reports(rt, &arguments, &file_of_hi(), pes, want);
}

// Asserts the lines of checks with the national option `word`, whose byte 9 is `own`, for the
// transmissions with all values of it.
fn assert_requires_option(rt: &(impl Abort + Alloc<A = Global>), word: &str, own: u8) {
    for byte in ALL_LAST_BYTES {
        let is_own = byte == own;
        let both = if is_own { ACCEPTED } else { FIRST_REFUSED };
        assert_checks(rt, word, &schedule_with_headers(byte, byte), both);
        let second = if is_own { ACCEPTED } else { SECOND_REFUSED };
        assert_checks(rt, word, &schedule_with_headers(own, byte), second);
    }
    let mut closing = schedule_with_headers(own, own);
    (closing[151], closing[289]) = (0xBF, 0xBF);
    assert_checks(rt, word, &closing, ACCEPTED);
}

#[test]
fn requires_the_bits_of_the_option_in_each_header_of_the_page(rt: HostRuntime) {
    for (word, own) in WORDS.iter().zip(LAST_BYTES.iter()) {
        assert_requires_option(&rt, *word, *own);
    }
}
