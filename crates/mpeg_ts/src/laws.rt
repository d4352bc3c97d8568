//! Laws about reading a recording. Each contract states a law.
ghost use Rattle.mpeg_ts.specs.ConsumedStreamBytes.{LawOfStreamCalls, LawOfFailedRead};

/// If `OutputsBetween` holds for each of two consecutive calls, it also holds for both together, as
/// for one call.
#[tactic(auto, using(crate::proofs::DeliveredBytesLemmas::outputs_compose))]
pub fn law_of_stream_calls()
    ensures { LawOfStreamCalls }
{}

/// If a recording was read from its start, and the consumed bytes give no more output, the output
/// for the recording is split at the byte where reading stopped. So if a read fails within an item
/// of the output, and all items before it are valid PES packets, the consumed bytes carry these
/// packets and no further complete one.
pub fn law_of_failed_read()
    ensures { LawOfFailedRead }
{}
