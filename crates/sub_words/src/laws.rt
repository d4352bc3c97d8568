//! The effect of the option `--flip` of `listen` on Teletext packets.
//!
//! The function does nothing: its contract is a law about the definitions of `specs/`.
ghost use Rattle.sub_words.specs.Laws.{LawOfFlips};

/// The flips that a text of `--flip` describes leave at most one wrong bit in each byte of a
/// packet.
#[tactic(auto, using(crate::proofs::FlipLemmas::law_of_flips))]
pub fn law_of_flips()
    ensures { LawOfFlips }
{}
