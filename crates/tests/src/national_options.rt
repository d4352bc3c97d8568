//! The cells for the characters of each national option, and the texts that the option rejects. The
//! characters of each sub-set were obtained from libzvbi.
use crate::asserting::{assert_same, assert_same_for_case};
use fixtures::{TEN, block, file_of_two, gsi, head, put};
use std::alloc::Global;
use std::process::Abort;
use std::test::Fail;
use stl_file::{Scope, Subtitle, TimeCode};
use stl_rows::{Layout, National, RowFault, RowFaultKind, draw, load};
use sub_io::MemSource;

// Returns a subtitle with this text from row `vp` on.
fn subtitle(rt: &impl Abort, vp: u8, jc: u8, text: &[u8]) -> Subtitle {
    let (tci, tco) = (TimeCode::of_frame(TEN), TimeCode::of_frame(TEN + 50));
    Subtitle::new(0, 1, tci, tco, vp, jc, text).expect(rt, "a subtitle")
}

// Returns a row with these cells in a box from this column on.
fn boxed(rt: &impl Abort, column: usize, cells: &[u8]) -> [u8; 40] {
    let mut row = [0x20; 40];
    assert!(rt; column <= 16 && cells.len() <= 20);
    let end = column + 2 + cells.len();
    row[column..column + 2].copy_from_slice(&[0x0B, 0x0B]);
    row[column + 2..end].copy_from_slice(cells);
    row[end..end + 2].copy_from_slice(&[0x0A, 0x0A]);
    row
}

// Asserts the cells of texts that start in row 5. Each text is followed by its cells.
fn assert_draws(rt: &impl Abort, national: National, texts: &[[&[u8]; 2]]) {
    for text in texts {
        match draw(&subtitle(rt, 5, 0, text[0]), national, Layout::default()) {
            Ok(page) => assert_same_for_case(rt, page.row(5), &boxed(rt, 0, text[1]), &text[0]),
            Err(_) => panic!(rt; "{national:?} refuses a text"),
        }
    }
}

// Asserts that a national option rejects these texts with the fault `Character` at byte `at`.
fn assert_refuses(rt: &impl Abort, national: National, at: u16, texts: &[&[u8]]) {
    let refused = Some(RowFault {
        kind: RowFaultKind::Character,
        at,
    });
    for text in texts {
        assert_same_for_case(
            rt,
            &draw(&subtitle(rt, 5, 0, *text), national, Layout::default()).err(),
            &refused,
            text,
        );
    }
}

// Texts for the Swedish option, each followed by its cells.
#[rattlefmt::skip]
const SWEDISH: [[&[u8]; 2]; 2] = [
    [
        &[0xCA, 0x41, 0xC8, 0x41, 0xC8, 0x4F, 0xCA, 0x61, 0xC8, 0x61, 0xC8, 0x6F],
        &[0x5D, 0x5B, 0x5C, 0x7D, 0x7B, 0x7C],
    ],
    [
        &[0x23, 0xA8, 0x5F, 0xC2, 0x45, 0xC2, 0x65, 0xC8, 0x55, 0xC8, 0x75],
        &[0x23, 0x24, 0x5F, 0x40, 0x60, 0x5E, 0x7E],
    ],
];

#[rattlefmt::skip]
const ITALIAN: [[&[u8]; 2]; 2] = [
    [&[0xC2, 0x65, 0xC1, 0x65, 0x23, 0xA3, 0x24, 0xA4], &[0x40, 0x7D, 0x5F, 0x23, 0x24, 0x24]],
    [
        &[0xB0, 0xAE, 0xAD, 0xCB, 0x63, 0xC1, 0x61, 0xC1, 0x69, 0xC1, 0x6F, 0xC1, 0x75],
        &[0x5B, 0x5D, 0x5E, 0x5C, 0x7B, 0x7E, 0x7C, 0x60],
    ],
];

#[rattlefmt::skip]
const FRENCH: [[&[u8]; 2]; 2] = [
    [&[0x23, 0x20, 0xC8, 0x65, 0xC8, 0x69], &[0x5F, 0x20, 0x5B, 0x24]],
    [
        &[
            0xCB, 0x63, 0xC1, 0x61, 0xC1, 0x65, 0xC1, 0x75, 0xC3, 0x61, 0xC3, 0x65, 0xC3, 0x69,
            0xC3, 0x6F, 0xC3, 0x75,
        ],
        &[0x7E, 0x40, 0x60, 0x5D, 0x7B, 0x5C, 0x5E, 0x7C, 0x7D],
    ],
];

#[rattlefmt::skip]
const SPANISH: [[&[u8]; 2]; 2] = [
    [
        &[0xBF, 0x51, 0x75, 0xC2, 0x65, 0x3F, 0xA1, 0x61, 0xC4, 0x6E, 0x6F, 0x21],
        &[0x60, 0x51, 0x75, 0x5C, 0x3F, 0x40, 0x61, 0x7C, 0x6F, 0x21],
    ],
    [
        &[
            0xCB, 0x63, 0xC8, 0x75, 0xC1, 0x65, 0xC1, 0x61, 0x24, 0xC2, 0x61, 0xC2, 0x69, 0xC2,
            0x6F, 0xC2, 0x75,
        ],
        &[0x23, 0x7B, 0x7D, 0x7E, 0x24, 0x5B, 0x5D, 0x5E, 0x5F],
    ],
];

#[rattlefmt::skip]
const CZECH: [[&[u8]; 2]; 1] = [
    [
        &[
            0xCF, 0x72, 0xCA, 0x75, 0xCF, 0x74, 0xC2, 0x79, 0xCF, 0x63, 0xCF, 0x7A, 0xC2, 0x69,
            0xC2, 0x61, 0xCF, 0x65, 0xC2, 0x75, 0xCF, 0x73, 0x23,
        ],
        &[0x5F, 0x24, 0x5B, 0x5D, 0x40, 0x5C, 0x5E, 0x7B, 0x7C, 0x7D, 0x7E, 0x23],
    ],
];

#[rattlefmt::skip]
const POLISH: [[&[u8]; 2]; 1] = [
    [
        &[
            0x23, 0xC2, 0x6E, 0xCE, 0x61, 0xC7, 0x5A, 0xC2, 0x53, 0xE8, 0xC2, 0x63, 0xC2, 0x6F,
            0xCE, 0x65, 0xC7, 0x7A, 0xC2, 0x73, 0xF8, 0xC2, 0x7A,
        ],
        &[0x23, 0x24, 0x40, 0x5B, 0x5C, 0x5D, 0x5E, 0x5F, 0x60, 0x7B, 0x7C, 0x7D, 0x7E],
    ],
];

#[rattlefmt::skip]
const TURKISH: [[&[u8]; 2]; 1] = [
    [
        &[
            0xC6, 0x67, 0xC7, 0x49, 0xCB, 0x53, 0xC8, 0x4F, 0xCB, 0x43, 0xC8, 0x55, 0xC6, 0x47,
            0xF5, 0xCB, 0x73, 0xC8, 0x6F, 0xCB, 0x63, 0xC8, 0x75,
        ],
        &[0x24, 0x40, 0x5B, 0x5C, 0x5D, 0x5E, 0x5F, 0x60, 0x7B, 0x7C, 0x7D, 0x7E],
    ],
];

#[rattlefmt::skip]
const CROATIAN: [[&[u8]; 2]; 1] = [
    [
        &[
            0x23, 0xC8, 0x45, 0xCF, 0x43, 0xC2, 0x43, 0xCF, 0x5A, 0xE2, 0xCF, 0x53, 0xC8, 0x65,
            0xCF, 0x63, 0xC2, 0x63, 0xCF, 0x7A, 0xF2, 0xCF, 0x73,
        ],
        &[0x23, 0x24, 0x40, 0x5B, 0x5C, 0x5D, 0x5E, 0x5F, 0x60, 0x7B, 0x7C, 0x7D, 0x7E],
    ],
];

#[rattlefmt::skip]
const ROMANIAN: [[&[u8]; 2]; 1] = [
    [
        &[
            0x23, 0xA8, 0xCB, 0x54, 0xC3, 0x41, 0xCB, 0x53, 0xC6, 0x41, 0xC3, 0x49, 0xF5, 0xCB,
            0x74, 0xC3, 0x61, 0xCB, 0x73, 0xC6, 0x61, 0xC3, 0x69,
        ],
        &[0x23, 0x24, 0x40, 0x5B, 0x5C, 0x5D, 0x5E, 0x5F, 0x60, 0x7B, 0x7C, 0x7D, 0x7E],
    ],
];

#[rattlefmt::skip]
const ESTONIAN: [[&[u8]; 2]; 1] = [
    [
        &[
            0x23, 0xC4, 0x6F, 0xCF, 0x53, 0xC8, 0x41, 0xC8, 0x4F, 0xCF, 0x5A, 0xC8, 0x55, 0xC4,
            0x4F, 0xCF, 0x73, 0xC8, 0x61, 0xC8, 0x6F, 0xCF, 0x7A, 0xC8, 0x75,
        ],
        &[0x23, 0x24, 0x40, 0x5B, 0x5C, 0x5D, 0x5E, 0x5F, 0x60, 0x7B, 0x7C, 0x7D, 0x7E],
    ],
];

#[rattlefmt::skip]
const LITHUANIAN: [[&[u8]; 2]; 1] = [
    [
        &[
            0x23, 0x24, 0xCF, 0x53, 0xC7, 0x65, 0xCE, 0x65, 0xCF, 0x5A, 0xCF, 0x63, 0xC5, 0x75,
            0xCF, 0x73, 0xCE, 0x61, 0xCE, 0x75, 0xCF, 0x7A, 0xCE, 0x69,
        ],
        &[0x23, 0x24, 0x40, 0x5B, 0x5C, 0x5D, 0x5E, 0x5F, 0x60, 0x7B, 0x7C, 0x7D, 0x7E],
    ],
];

#[test]
fn draws_the_characters_of_each_option(rt: HostRuntime) {
    assert_draws(&rt, National::Swedish, &SWEDISH);
    assert_draws(&rt, National::Italian, &ITALIAN);
    assert_draws(&rt, National::French, &FRENCH);
    assert_draws(&rt, National::Spanish, &SPANISH);
    assert_draws(&rt, National::Czech, &CZECH);
    assert_draws(&rt, National::Polish, &POLISH);
    assert_draws(&rt, National::Turkish, &TURKISH);
    assert_draws(&rt, National::Croatian, &CROATIAN);
    assert_draws(&rt, National::Romanian, &ROMANIAN);
    assert_draws(&rt, National::Estonian, &ESTONIAN);
    assert_draws(&rt, National::Lithuanian, &LITHUANIAN);
}

// The text `été`.
const ETE: [u8; 5] = [0xC2, 0x65, 0x74, 0xC2, 0x65];

// Asserts the cell of é in the text `ETE`, drawn in the middle of row 22.
fn assert_draws_ete(rt: &impl Abort, national: National, cell: u8) {
    match draw(&subtitle(rt, 22, 2, &ETE), national, Layout::default()) {
        Ok(page) => assert_same(rt, page.row(22), &boxed(rt, 16, &[cell, 0x74, cell])),
        Err(_) => panic!(rt; "{national:?} refuses it"),
    }
}

#[test]
fn draws_one_character_by_the_option(rt: HostRuntime) {
    assert_draws_ete(&rt, National::French, 0x23);
    assert_draws_ete(&rt, National::Italian, 0x40);
    assert_draws_ete(&rt, National::Spanish, 0x5C);
    assert_draws_ete(&rt, National::Swedish, 0x60);
    assert_draws_ete(&rt, National::Czech, 0x60);
    assert_refuses(&rt, National::English, 0, &[&ETE]);
    assert_refuses(&rt, National::German, 0, &[&ETE]);
}

// Texts that the Swedish, Italian and other options reject at their first byte.
#[rattlefmt::skip]
const NOT_SWEDISH: [&[u8]; 5] = [&[0x24], &[0xA4], &[0x40], &[0xCF, 0x73], &[0xF9]];

#[rattlefmt::skip]
const NOT_ITALIAN: [&[u8]; 6] = [
    &[0xC1, 0x45], &[0x40], &[0xAC], &[0xC2, 0x61], &[0xC8, 0x75], &[0xA8],
];

#[rattlefmt::skip]
const NOT_FRENCH: [&[u8]; 13] = [
    &[0x24], &[0xA4], &[0x40], &[0xA3], &[0x5F], &[0xFB], &[0xC2], &[0xC2, 0x45], &[0xC2, 0x20],
    &[0xC2, 0x80, 0x65], &[0xC2, 0xC2, 0x65], &[0xC2, 0x0E], &[0xA8],
];

#[rattlefmt::skip]
const NOT_SPANISH: [&[u8]; 6] = [
    &[0x23], &[0x40], &[0xC4, 0x4E], &[0xC4, 0x61], &[0xC2, 0x41], &[0xA8],
];

#[rattlefmt::skip]
const NOT_CZECH: [&[u8]; 5] = [&[0xCF, 0x6E], &[0x24], &[0xCF, 0x43], &[0xC2, 0x6F], &[0xA8]];

// Capital letters that Polish has and its sub-set lacks, byte 24, and letters with another accent.
// The texts for Lithuanian below are such letters too.
#[rattlefmt::skip]
const NOT_POLISH: [&[u8]; 9] = [
    &[0xCE, 0x41], &[0xC2, 0x43], &[0xCE, 0x45], &[0xC2, 0x4E], &[0xC2, 0x4F], &[0xC2, 0x5A],
    &[0x24], &[0xCF, 0x7A], &[0xC2, 0x65],
];

#[rattlefmt::skip]
const NOT_TURKISH: [&[u8]; 5] = [&[0x23], &[0xC3, 0x61], &[0xC2, 0x49], &[0xA3], &[0xF9]];

#[rattlefmt::skip]
const NOT_CROATIAN: [&[u8]; 4] = [&[0xF3], &[0xCF, 0x64], &[0xC2, 0x73], &[0x24]];

#[rattlefmt::skip]
const NOT_ROMANIAN: [&[u8]; 4] = [&[0xCF, 0x61], &[0xC2, 0x49], &[0x24], &[0xC2, 0x65]];

#[rattlefmt::skip]
const NOT_ESTONIAN: [&[u8]; 3] = [&[0xCA, 0x61], &[0xCD, 0x6F], &[0x24]];

#[rattlefmt::skip]
const NOT_LITHUANIAN: [&[u8]; 6] = [
    &[0xCE, 0x41], &[0xCF, 0x43], &[0xC7, 0x45], &[0xC5, 0x61], &[0xCB, 0x65], &[0xC2, 0x6C],
];

// Texts that the French option rejects at their second byte.
#[rattlefmt::skip]
const NOT_FRENCH_LATER: [&[u8]; 5] = [
    &[0x63, 0xFA, 0x75, 0x72], &[0x4D, 0xC8, 0x75], &[0x41, 0xC2, 0x8A, 0x65], &[0x65, 0xC2],
    &[0x41, 0xC3, 0x0E],
];

#[test]
fn refuses_characters_that_an_option_lacks(rt: HostRuntime) {
    assert_refuses(&rt, National::Swedish, 0, &NOT_SWEDISH);
    assert_refuses(&rt, National::Italian, 0, &NOT_ITALIAN);
    assert_refuses(&rt, National::French, 0, &NOT_FRENCH);
    assert_refuses(&rt, National::French, 1, &NOT_FRENCH_LATER);
    assert_refuses(&rt, National::Spanish, 0, &NOT_SPANISH);
    assert_refuses(&rt, National::Czech, 0, &NOT_CZECH);
    assert_refuses(&rt, National::Polish, 0, &NOT_POLISH);
    assert_refuses(&rt, National::Turkish, 0, &NOT_TURKISH);
    assert_refuses(&rt, National::Croatian, 0, &NOT_CROATIAN);
    assert_refuses(&rt, National::Romanian, 0, &NOT_ROMANIAN);
    assert_refuses(&rt, National::Estonian, 0, &NOT_ESTONIAN);
    assert_refuses(&rt, National::Lithuanian, 0, &NOT_LITHUANIAN);
    // A control code is followed by a diacritical mark without a letter.
    let control = draw(
        &subtitle(&rt, 5, 0, &[0x0E, 0xC2]),
        National::French,
        Layout::default(),
    )
    .err();
    assert_same(
        &rt,
        &control,
        &Some(RowFault {
            kind: RowFaultKind::Control,
            at: 0,
        }),
    );
}

// Returns a text field with three lines of 36 letters, and a diacritical mark as its last byte.
fn diacritic_at_end() -> [u8; 112] {
    let mut text = [0x41; 112];
    (text[36], text[73], text[110], text[111]) = (0x8A, 0x8A, 0x8A, 0xC2);
    text
}

// Returns the fields of a TTI block for row `vp`. EBN and CF make it a block of a subtitle or a
// comment.
fn fields(vp: u8, ebn: u8, cf: u8) -> [u8; 16] {
    let mut fields = head(TEN, TEN + 50, vp);
    (fields[3], fields[14], fields[15]) = (ebn, 0, cf);
    fields
}

// Asserts that the page for a file has é in this row, drawn with the French option.
fn assert_shows_e(rt: &(impl Abort + Alloc<A = Global>), file: &[u8], row: u8) -> Result<(), Fail> {
    assert!(rt; row >= 1 && row <= 24);
    let programme = load(
        rt.alloc(),
        &mut MemSource::new(file),
        National::French,
        Layout::default(),
        Scope::whole(),
    )?;
    assert_same(rt, programme.due_page(TEN).row(row), &boxed(rt, 0, &[0x23]));
    Ok(())
}

#[test]
fn reads_a_pair_over_two_blocks(rt: HostRuntime) -> Result<(), Fail> {
    let first = block(&fields(1, 0x00, 0), &diacritic_at_end());
    let file = file_of_two(&first, &block(&fields(1, 0xFF, 0), &[0x65]));
    assert_shows_e(&rt, &file, 4)
}

#[test]
fn reads_a_pair_over_padding_and_a_comment(rt: HostRuntime) -> Result<(), Fail> {
    let mut file = [0; 1408];
    put(&mut file, 0, &gsi());
    put(&mut file, 1024, &block(&fields(5, 0x00, 0), &[0xC2]));
    put(&mut file, 1152, &block(&fields(5, 0xFF, 1), &[0x41]));
    put(&mut file, 1280, &block(&fields(5, 0xFF, 0), &[0x65]));
    assert_shows_e(&rt, &file, 5)
}

#[test]
fn refuses_the_diacritic_of_such_a_pair(rt: HostRuntime) {
    let mut text = [0x65; 113];
    text[..112].copy_from_slice(&diacritic_at_end());
    let refused = Some(RowFault {
        kind: RowFaultKind::Character,
        at: 111,
    });
    for national in [National::English, National::German] {
        assert_same(
            &rt,
            &draw(&subtitle(&rt, 1, 0, &text), national, Layout::default()).err(),
            &refused,
        );
    }
}

// The names of the national options on the command line, and the options.
#[rattlefmt::skip]
const WORDS: [&str; 13] = [
    "english", "german", "swedish", "italian", "french", "spanish", "czech", "polish", "turkish",
    "croatian", "romanian", "estonian", "lithuanian",
];

#[rattlefmt::skip]
const OPTIONS: [National; 13] = [
    National::English, National::German, National::Swedish, National::Italian, National::French,
    National::Spanish, National::Czech, National::Polish, National::Turkish, National::Croatian,
    National::Romanian, National::Estonian, National::Lithuanian,
];

#[test]
fn reads_the_word_of_an_option(rt: HostRuntime) {
    for (word, national) in WORDS.iter().zip(OPTIONS.iter()) {
        assert_same_for_case(&rt, &National::parse(*word), &Some(*national), word);
    }
    for word in ["French", "fr", "portuguese", "danish", "", "french "] {
        assert_same_for_case(&rt, &National::parse(word), &None, &word);
    }
}
