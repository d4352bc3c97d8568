//! Examples of recordings: one without losses and one with losses.
//!
//! The examples show that the assumptions of `law_of_multiplex` and `law_of_losses` can be
//! satisfied. The functions do nothing.
ghost use Rattle.recording_laws.specs.Examples.{ExampleOfLosses, ExampleOfMultiplex};

/// A recording of two PES packets satisfies the definition of a complete recording.
#[tactic(auto, using(crate::proofs::ExampleLemmas::example_of_multiplex))]
pub fn example_of_multiplex()
    ensures { ExampleOfMultiplex }
{}

/// A recording of four PES packets, of which two arrive, satisfies the definition of a recording
/// with losses.
#[tactic(auto, using(crate::proofs::ExampleLemmas::example_of_losses))]
pub fn example_of_losses()
    ensures { ExampleOfLosses }
{}
