//! A law about packets that are sent again.
//!
//! The body of the function is empty: its contract states the law.
ghost use Rattle.sub_packets.specs.RepeatedPackets.{LawOfRepeatedPackets};

/// If packets begin with a header that starts a new text, they break the same rules when they are
/// sent again at once, and have the same effect on later packets.
pub fn law_of_repeated_packets()
    ensures { LawOfRepeatedPackets }
{}
