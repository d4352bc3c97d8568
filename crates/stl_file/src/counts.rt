//! The counts in the normal form of a subtitle file.

/// The counts of blocks and subtitles in a GSI block.
#[derive(Clone, Copy)]
pub(crate) struct Counts {
    // The value of TNB, the number of TTI blocks.
    pub(crate) tnb: u32,
    // The value of TNS, the number of subtitles.
    pub(crate) tns: u32,
}
