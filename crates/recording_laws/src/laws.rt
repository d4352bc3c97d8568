//! Laws that relate the PES packets in a recording to the PES packets that a multiplexer sent.
//!
//! The functions do nothing: the contract of each function is a law about the definitions in
//! `specs/`.
ghost use Rattle.recording_laws.specs.Laws.{LawOfLosses, LawOfMultiplex, LawOfNeighbours};
ghost use Rattle.recording_laws.specs.Laws.{LawOfPace, LawOfCompleteFile};
ghost use Rattle.recording_laws.specs.PacedCheck.{LawOfPacedCheck};

/// The TS packets of a PID in a complete recording carry exactly the PES packets that a multiplexer
/// sent in them.
#[tactic(auto, using(crate::proofs::MultiplexLemmas::law_of_multiplex))]
pub fn law_of_multiplex()
    ensures { LawOfMultiplex }
{}

/// If at most 14 consecutive TS packets of the PID with payload are missing or damaged at a time,
/// and the multiplexer announces no jump of the PID's continuity counter, the recording carries,
/// apart from gap markers, exactly the PES packets that arrive, unchanged and in order. If a PES
/// packet is missing between two of them, there is a gap marker between these two.
#[tactic(auto, using(crate::proofs::ArrivingLaw::law_of_losses))]
pub fn law_of_losses()
    ensures { LawOfLosses }
{}

/// If at most 14 consecutive TS packets of the PID with payload are missing or damaged at a time,
/// and the multiplexer announces no jump of the PID's continuity counter, consecutive PES packets
/// in a recording with no gap marker between them were sent one after another: no PES packet
/// between the first and the last of them is missing.
pub fn law_of_neighbours()
    ensures { LawOfNeighbours }
{}

/// Assume that the multiplexer announces no jump of the PID's continuity counter, that the first TS
/// packet of each PES packet contains its PTS, and that of two PES packets with 16 or more TS
/// packets of the PID with payload, without their repeats, between their starts, the second is more
/// than `pace` frames later. Then consecutive PES packets of a recording that carries only complete
/// PES packets and gap markers, each at most `pace` frames later than the one before, with no gap
/// marker among them, were sent one after another, for any number of lost TS packets. The last is
/// known to have the sent bytes only up to its PTS.
pub fn law_of_pace()
    ensures { LawOfPace }
{}

/// If `check` accepts PES packets of a recording, there is no gap marker among them. If at most 14
/// consecutive TS packets of the PID with payload were missing or damaged at a time, and the
/// multiplexer announced no jump of the PID's continuity counter, all PES packets that were sent
/// between the first and the last of them are recorded.
pub fn law_of_complete_file()
    ensures { LawOfCompleteFile }
{}

/// Under the assumptions of `law_of_pace` about the multiplex, PES packets that `check --pace`
/// accepts, of a recording that carries only complete PES packets and gap markers, were sent one
/// after another: none between the first and the last of them is missing, for any number of lost TS
/// packets.
pub fn law_of_paced_check()
    ensures { LawOfPacedCheck }
{}
