//! Compares the headers of the data units of two data fields. If they are equal, both data fields
//! have their Teletext units at the same offsets.
ghost use Rattle.std.specs.Prelude.{◌≡◌, ◌+◌, ◌%◌, ◌≤◌, length, true};
ghost use Rattle.ttx_pes.specs.PesGrammar.{payload_size};
ghost use Rattle.ttx_pes.specs.Accepting.{HaveSameUnitHeaders, HasSameUnitHeader};

use crate::data_unit::DATA_UNIT;
use crate::pes_header::PAYLOAD;
use byteorder::{ByteOrder, LittleEndian};

// The size in bytes of the data field in the first payload of a PES packet: data_identifier and
// three data units.
const FIRST: usize = 1 + 3 * DATA_UNIT;

// Returns whether the headers of the data units at the offset `place` of two data fields are equal.
// Compares the four bytes as one word.
#[inline(always)]
#[tactic(auto, using(crate::proofs::DataUnitHeaderLemmas::equal_words_have_equal_bytes))]
fn is_unit_header_equal(a: &[u8], b: &[u8], place: usize) -> bool
    requires a { place + 4 ≤ length a.now }
    requires b { place + 4 ≤ length b.now }
    ensures { result ≡ true → HasSameUnitHeader a.now b.now place }
{
    let (_, a_from) = a.split_at(place);
    let (_, b_from) = b.split_at(place);
    LittleEndian::read_u32(a_from) == LittleEndian::read_u32(b_from)
}

// Returns whether the headers of three data units of two data fields are equal, the first at the
// offset `place`.
#[inline(always)]
fn are_three_headers_equal(a: &[u8], b: &[u8], place: usize) -> bool
    requires a { place + 96 ≤ length a.now }
    requires b { place + 96 ≤ length b.now }
    ensures { result ≡ true → HasSameUnitHeader a.now b.now place
        × HasSameUnitHeader a.now b.now (place + 46)
        × HasSameUnitHeader a.now b.now (place + 92) }
{
    is_unit_header_equal(a, b, place)
        && is_unit_header_equal(a, b, place + DATA_UNIT)
        && is_unit_header_equal(a, b, place + 2 * DATA_UNIT)
}

// Returns whether the headers of all data units of two data fields of the same length are equal.
// Each iteration compares the four data units of a payload; the first payload has three.
#[tactic(auto, using(crate::proofs::DataUnitHeaderLemmas::equal_unit_headers))]
pub(crate) fn are_unit_headers_equal(a: &[u8], b: &[u8]) -> bool
    requires long { 139 ≤ length a.now }
    requires whole { (length a.now + 45) % payload_size ≡ 0 }
    requires length { length a.now ≡ length b.now }
    ensures { result ≡ true → HaveSameUnitHeaders a.now b.now }
{
    if !are_three_headers_equal(a, b, 1) {
        return false;
    }
    for i in 0..(a.len() - FIRST) / PAYLOAD {
        let place = FIRST + PAYLOAD * i;
        if !(are_three_headers_equal(a, b, place)
            && is_unit_header_equal(a, b, place + 3 * DATA_UNIT))
        {
            return false;
        }
    }
    true
}
