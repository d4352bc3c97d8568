//! Laws of `survey`: the receiver of a PID gets exactly the data in the PID's packets, and the
//! packets and gaps that are processed do not depend on the parts in which a recording arrives. The
//! output does: a run of PES packets ends if no more data is available for now.
//!
//! The functions do nothing: the contract of each function is a law about the definitions in
//! `specs/`.
ghost use Rattle.ts_survey.specs.Following.{LawOfReceivedData};
ghost use Rattle.ts_survey.specs.InStep.{LawOfTwoCalls};

use crate::packets_in_step::TakesPackets;
use crate::pid_packets::TakesPesPackets;

/// The data received part by part from the packets of a PID is the data that they carry in the
/// recording: PES packets, gap markers for missing data, and at the end perhaps bytes that are
/// neither.
#[tactic(auto, using(crate::proofs::FollowingLemmas::law_of_received_data))]
pub fn law_of_received_data<T: TakesPesPackets>()
    ensures { LawOfReceivedData T.is_taken }
{}

/// The packets and gaps in bytes that arrive in two calls are processed like those in bytes that
/// arrive in one call: each once, in order.
pub fn law_of_two_calls<M: TakesPackets>()
    ensures { LawOfTwoCalls M.is_taken }
{}
