//! The progress of a reader of PES packets.

/// The progress of a reader of PES packets, which is the model of a `PesReader`.
#[derive(Clone, Copy, Debug, PartialEq, Eq)]
pub enum Progress {
    /// The number of PES packets read so far, 0 to `MAX_PES_PACKETS`.
    Reading(u32),
    /// The reader has reached the end.
    AtEnd,
    /// The reader has reported a fault.
    Broken,
}
