//! Connects `listen` with the laws about receivers.
//!
//! The function does nothing; its contract states a law about the definitions in `specs/`.
ghost use Rattle.sub_listen.specs.Reception.{LawOfListening};

/// `listen` simulates a receiver to which the law of repeats applies. The receiver follows the
/// model of `ttx_page` (`Hears`) unless it starts again at each header. Its screen changes only if
/// complete pages are required.
#[tactic(auto, using(crate::proofs::RunningLemmas::law_of_listening))]
pub fn law_of_listening()
    ensures { LawOfListening }
{}
