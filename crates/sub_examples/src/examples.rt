//! Transmissions of page 888, byte by byte: a good one, and for each of eight rules that matter to
//! receivers a transmission that breaks only this one of them and fails at a receiver.
//!
//! The examples test the definitions of `sub_rules` and `sub_laws`. The functions do nothing.
ghost use Rattle.sub_examples.specs.Examples.{ExampleOfCleanFrames, ExampleOfGoodTransmission};
ghost use Rattle.sub_examples.specs.Examples.{ExamplesOfNeededRules};
ghost use Rattle.sub_examples.specs.TrustedExamples.{ExamplesOfTrustedFrames};

/// A good transmission: a subtitle in one frame, and a blank page in the next frame.
#[tactic(auto, using(crate::proofs::GoodExample::example_of_good_transmission))]
pub fn example_of_good_transmission()
    ensures { ExampleOfGoodTransmission }
{}

/// Each of the eight rules for clean frames is necessary: for each of them there is a transmission
/// that breaks only this one of them and fails at a receiver.
#[tactic(auto, using(crate::proofs::NotRobustExamples::examples_of_needed_rules))]
pub fn examples_of_needed_rules()
    ensures { ExamplesOfNeededRules }
{}

/// A rejected transmission with clean frames, and the codes that a receiver may have in one cell
/// after the first of these frames.
#[tactic(auto, using(crate::proofs::CleanFramesExample::example_of_clean_frames))]
pub fn example_of_clean_frames()
    ensures { ExampleOfCleanFrames }
{}

/// Examples of trusted frames: which frames are reported as `trusted`, and before which events.
#[tactic(auto, using(crate::proofs::TrustedFramesExample::examples_of_trusted_frames))]
pub fn examples_of_trusted_frames()
    ensures { ExamplesOfTrustedFrames }
{}
