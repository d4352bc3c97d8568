//! Decodes the bytes of a subtitle's text with the character set of a national option.

ghost use Rattle.std.specs.Prelude.{◌≡◌, ◌+◌, ◌<◌, ◌≤◌, ◌∷◌, length, drop, slice_index};
ghost use Rattle.std.specs.Prelude.{IsSome};
ghost use Rattle.stl_rows.specs.TextCode.{cell_of, cell_of_pair, code_without_cell, first_of};
ghost use Rattle.stl_rows.specs.TextCode.{HasSevenBits, is_common, text_codes};

use crate::fault::RowFaultKind;
use crate::national::{National, cell_of_character};

/// The meaning of a byte of a subtitle's text, or of a pair of bytes.
#[derive(Clone, Copy, Debug, PartialEq, Eq)]
pub(crate) enum TextCode {
    /// A cell with this code on the page.
    Cell(u8),
    /// A byte that has no cell on the page, such as italics on.
    NoCell,
    /// The byte 8A, which ends a line.
    NewLine,
    /// A byte that a subtitle's text must not have, with the kind of fault.
    Refused(RowFaultKind),
}

// For each byte, 1 if its cell has the byte's own number in every national option. The prover
// computes the definition for all 256 bytes and compares the results with the table.
#[rattlefmt::skip]
const COMMON_BYTES: [u8; 256] = [
    0, 1, 1, 1, 1, 1, 1, 1, 1, 1, 1, 1, 1, 1, 0, 0,
    0, 0, 0, 0, 0, 0, 0, 0, 0, 0, 0, 0, 1, 1, 0, 0,
    1, 1, 1, 0, 0, 1, 1, 1, 1, 1, 1, 1, 1, 1, 1, 1,
    1, 1, 1, 1, 1, 1, 1, 1, 1, 1, 1, 1, 1, 1, 1, 1,
    0, 1, 1, 1, 1, 1, 1, 1, 1, 1, 1, 1, 1, 1, 1, 1,
    1, 1, 1, 1, 1, 1, 1, 1, 1, 1, 1, 0, 0, 0, 0, 0,
    0, 1, 1, 1, 1, 1, 1, 1, 1, 1, 1, 1, 1, 1, 1, 1,
    1, 1, 1, 1, 1, 1, 1, 1, 1, 1, 1, 0, 0, 0, 0, 0,
    0, 0, 0, 0, 0, 0, 0, 0, 0, 0, 0, 0, 0, 0, 0, 0,
    0, 0, 0, 0, 0, 0, 0, 0, 0, 0, 0, 0, 0, 0, 0, 0,
    0, 0, 0, 0, 0, 0, 0, 0, 0, 0, 0, 0, 0, 0, 0, 0,
    0, 0, 0, 0, 0, 0, 0, 0, 0, 0, 0, 0, 0, 0, 0, 0,
    0, 0, 0, 0, 0, 0, 0, 0, 0, 0, 0, 0, 0, 0, 0, 0,
    0, 0, 0, 0, 0, 0, 0, 0, 0, 0, 0, 0, 0, 0, 0, 0,
    0, 0, 0, 0, 0, 0, 0, 0, 0, 0, 0, 0, 0, 0, 0, 0,
    0, 0, 0, 0, 0, 0, 0, 0, 0, 0, 0, 0, 0, 0, 0, 0,
];

// Returns whether the cell of a byte has the byte's own number in every national option.
#[inline(always)]
#[tactic(auto, using(crate::proofs::TextCodeLemmas::common_table_matches_definition))]
fn is_common(byte: u8) -> bool
    ensures { result ≡ is_common byte }
{
    COMMON_BYTES[byte as usize] == 1
}

// Returns the cell of a single byte, or `None` if the byte has no cell.
#[inline(always)]
#[tactic(auto, unfolding(crate::specs::TextCode::cell_of))]
fn cell_of(national: National, byte: u8) -> Option<u8>
    ensures { result ≡ cell_of national byte }
{
    if is_common(byte) {
        return Some(byte);
    }
    cell_of_character(national.characters(), None, byte)
}

// Returns the text code of a byte without a cell: no cell, a new line, or a rejected byte.
#[tactic(auto, unfolding(crate::specs::TextCode::code_without_cell))]
fn code_without_cell(byte: u8) -> TextCode
    ensures { result ≡ code_without_cell byte }
{
    match byte {
        0x80..=0x85 => TextCode::NoCell,
        0x8A => TextCode::NewLine,
        0x00..=0x1F | 0x80..=0x9F => TextCode::Refused(RowFaultKind::Control),
        _ => TextCode::Refused(RowFaultKind::Character),
    }
}

// Returns the cell of the two bytes at `at`, a diacritical mark and its letter, if the national
// option has this character.
#[inline(always)]
#[tactic(auto, unfolding(crate::specs::TextCode::cell_of_pair))]
fn cell_of_pair_at(national: National, text: &[u8], at: usize) -> Option<u8>
    requires { at < length text.now }
    ensures value { result ≡ cell_of_pair national
        (slice_index text.now at) (first_of (drop (at + 1) text.now)) }
    ensures room { IsSome result → at + 1 < length text.now }
{
    let mark = text[at];
    if !matches!(mark, 0xC0..=0xCF) || at + 1 >= text.len() {
        return None;
    }
    cell_of_character(national.characters(), Some(mark), text[at + 1])
}

/// Returns the text code at position `at` of a text, and the position after it.
#[inline(always)]
#[tactic(auto, unfolding(crate::specs::TextCode::is_common))]
pub(crate) fn text_code_at(national: National, text: &[u8], at: usize) -> (TextCode, usize)
    requires { at < length text.now }
    ensures step { text_codes national at (drop at text.now)
        ≡ (at, result.0) ∷ text_codes national result.1 (drop result.1 text.now) }
    ensures rises { at < result.1 }
    ensures within { result.1 ≤ length text.now }
    ensures small { HasSevenBits result.0 }
{
    let byte = text[at];

    // Common bytes are tested first, since most bytes are common and no common byte is a
    // diacritical mark.
    if is_common(byte) {
        return (TextCode::Cell(byte), at + 1);
    }
    match cell_of_pair_at(national, text, at) {
        Some(code) => (TextCode::Cell(code), at + 2),
        None => match cell_of(national, byte) {
            Some(code) => (TextCode::Cell(code), at + 1),
            None => (code_without_cell(byte), at + 1),
        },
    }
}
