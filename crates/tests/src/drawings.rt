//! Texts and the rows in which they are drawn, by national option. `dev/check-every-place` tests
//! more texts, including rejected texts, with the built program.
use crate::asserting::assert_same;
use std::process::Abort;
use stl_file::{Subtitle, TimeCode};
use stl_rows::{Layout, National, RowFault, RowFaultKind, draw};

// The text "Grüße", with a diaeresis on the u and a sharp s.
const GERMAN: [u8; 6] = [0x47, 0x72, 0xC8, 0x75, 0xFB, 0x65];

// Returns a subtitle with this text in the middle of row 22.
fn subtitle(rt: &impl Abort, text: &[u8]) -> Subtitle {
    let (tci, tco) = (TimeCode::of_frame(900_000), TimeCode::of_frame(900_050));
    Subtitle::new(0, 1, tci, tco, 22, 2, text).expect(rt, "a subtitle")
}

// Asserts that a text is drawn with exactly these cells in row 22, from this column on.
fn assert_draws(rt: &impl Abort, national: National, text: &[u8], column: usize, cells: &[u8]) {
    match draw(&subtitle(rt, text), national, Layout::default()) {
        Ok(page) => {
            assert_same(rt, &(page.count_nonblank_cells() as usize), &cells.len());
            assert!(rt; column <= 40);
            assert!(rt; page.row(22)[column..].starts_with(cells));
        }
        Err(_) => panic!(rt; "{text:?} is refused"),
    }
}

#[rattlefmt::skip]
#[test]
fn draws_texts_by_the_national_option(rt: HostRuntime) {
    let boxed = [0x0B, 0x0B, 0x0D, 0x48, 0x69, 0x0A, 0x0A];
    assert_draws(&rt, National::English, &[0x0D, 0x48, 0x69], 16, &boxed);
    assert_draws(&rt, National::German, &GERMAN, 15,
        &[0x0B, 0x0B, 0x47, 0x72, 0x7D, 0x7E, 0x65, 0x0A, 0x0A]);
    let refused = draw(&subtitle(&rt, &GERMAN), National::English, Layout::default()).err();
    assert_same(&rt, &refused, &Some(RowFault { kind: RowFaultKind::Character, at: 2 }));
}
