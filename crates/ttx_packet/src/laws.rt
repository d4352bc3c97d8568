//! Laws about Teletext packets: what one wrong bit in each byte changes, and what decoding a
//! created packet returns.
ghost use Rattle.ttx_packet.specs.Laws.{LawOfAddress, LawOfDecoding, LawOfHeader};
ghost use Rattle.ttx_packet.specs.Laws.{LawOfHeaderPacket, LawOfMirror, LawOfParity};
ghost use Rattle.ttx_packet.specs.Laws.{LawOfRowPacket};

/// A byte decodes to a number exactly if it differs in at most one bit from the code word of that
/// number.
pub fn law_of_decoding()
    ensures { LawOfDecoding }
{}

/// One wrong bit in each byte does not change the decoded address of a packet whose address bytes
/// were sent as code words.
#[tactic(auto, using(crate::proofs::NearPacketLemmas::near_laws))]
pub fn law_of_address()
    ensures { LawOfAddress }
{}

/// One wrong bit in each byte does not change the decoded page header of a packet whose coded bytes
/// were sent as code words.
#[tactic(auto, using(crate::proofs::NearPacketLemmas::near_laws))]
pub fn law_of_header()
    ensures { LawOfHeader }
{}

/// A byte of odd parity with one changed bit has even parity.
#[tactic(auto, using(crate::proofs::ParityLemmas::single_error_breaks_parity))]
pub fn law_of_parity()
    ensures { LawOfParity }
{}

/// Reversing the bits of a byte twice gives the same byte.
pub fn law_of_mirror()
    ensures { LawOfMirror }
{}

/// Decoding a packet that was created from a magazine, 0 to 7, and a header returns both, if a page
/// header can carry all bits of the header. The coded bytes are code words, and the text bytes have
/// odd parity.
pub fn law_of_header_packet()
    ensures { LawOfHeaderPacket }
{}

/// Decoding a packet that was created from a magazine, 0 to 7, a row number, 1 to 31, and 40
/// character codes below 128 returns all of them, and its text bytes have odd parity.
pub fn law_of_row_packet()
    ensures { LawOfRowPacket }
{}
