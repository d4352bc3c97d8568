//! Laws about the format of PES packets. Each contract states a law.
ghost use Rattle.ttx_pes.specs.Laws.{LawOfReaderAnswers, LawOfCanonicalPacket, LawOfGrammar};
ghost use Rattle.ttx_pes.specs.Laws.{LawOfNumberedFrame, LawOfPesPackets};
ghost use Rattle.ttx_pes.specs.Laws.{LawOfLineOrder, LawOfOneValue, LawOfPacketValue, LawOfReading};
ghost use Rattle.ttx_pes.specs.Laws.{LawOfRanges, LawOfReadingBack, LawOfRefusal};

/// A valid PES packet has only one value, and no valid packet is a proper prefix of another. So a
/// file splits into valid PES packets in at most one way.
pub fn law_of_one_value()
    ensures { LawOfOneValue }
{}

/// The value of a valid PES packet fits in a `PesFrame`.
pub fn law_of_packet_value()
    ensures { LawOfPacketValue }
{}

/// The canonical packet of each value that fits in a `PesFrame` is a valid PES packet with that
/// value.
#[tactic(auto, using(crate::proofs::PesGrammarLemmas::canonical_packet_is_valid))]
pub fn law_of_canonical_packet()
    ensures { LawOfCanonicalPacket }
{}

/// Reading a valid PES packet returns its value, whatever bytes follow. So parsing rejects nothing
/// that matches the grammar.
pub fn law_of_reading()
    ensures { LawOfReading }
{}

/// If reading returns a value, the bytes begin with a valid PES packet of that value. So a reader
/// accepts nothing that does not match the grammar.
#[tactic(auto, using(crate::proofs::ReadingLemmas::read_bytes_are_valid_packet))]
pub fn law_of_grammar()
    ensures { LawOfGrammar }
{}

/// If no PES packet can be read from the bytes, the fault is that of the first check that they
/// fail: a packet of the grammar agrees with them in all earlier checks, but none agrees in this
/// check too. If the bytes fail a check, no PES packet is read.
pub fn law_of_refusal()
    ensures { LawOfRefusal }
{}

/// The meaning of a reader's result for the remaining bytes. At the end, no bytes remain. After a
/// format fault, the remaining bytes do not begin with a valid PES packet. After `TooMany`, more
/// bytes remain.
pub fn law_of_reader_answers()
    ensures { LawOfReaderAnswers }
{}

/// Reading the bytes written for a frame returns that frame, and leaves the bytes that follow,
/// unless 2,160,000 packets were read before.
pub fn law_of_reading_back()
    ensures { LawOfReadingBack }
{}

/// Units are in line order exactly if, for any two units with a defined line, the later unit has
/// the later line.
pub fn law_of_line_order()
    ensures { LawOfLineOrder }
{}

/// Up to 32 Teletext packets of one video frame form, with a PTS below 2^33, a value that fits in a
/// `PesFrame`, and the units of that value carry these packets.
pub fn law_of_numbered_frame()
    ensures { LawOfNumberedFrame }
{}

/// The PES packets that are read from bytes, valid or skipped, are the longest list of at most
/// 2,160,000 packets with correct length fields at the front of the bytes.
pub fn law_of_pes_packets()
    ensures { LawOfPesPackets }
{}

/// A range of a file contains the PES packets with the indices in the range and, if it extends
/// beyond the last packet of the file, the bytes after that packet.
pub fn law_of_ranges()
    ensures { LawOfRanges }
{}
