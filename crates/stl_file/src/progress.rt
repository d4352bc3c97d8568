//! The progress of a reader of subtitle files.

/// The progress of a reader of subtitle files: whether it can continue.
#[derive(Clone, Copy, Debug, PartialEq, Eq)]
pub enum Progress {
    /// The reader can continue, and is not within a subtitle. Only a `ResumingReader` may be within
    /// one: a rejected subtitle, whose later blocks may follow.
    Reading,
    /// The file has ended: each later call of `StlReader::next` returns `None`.
    AtEnd,
    /// The reader has met a fault that ends reading: each later call of `StlReader::next` returns
    /// `Ended`.
    Broken,
}
