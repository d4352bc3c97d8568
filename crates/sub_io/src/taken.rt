//! The bytes that a writer reported as written, for contracts only.

ghost use Rattle.std.specs.Prelude.{◌≡◌, ℕ, List, [], ◌++◌};
ghost use Rattle.std.specs.Borrow.{ftrue};

use std::marker::Model;

/// The bytes that a writer has reported as written, for contracts only. The type has no size and
/// its functions do nothing, so the code must record each write itself.
#[derive(Drop)]
pub struct WrittenBytes {
    /// The bytes written so far, in order.
    pub ghost bytes: { List ℕ },
}

impl Model for WrittenBytes {
    ghost also_owns = { λ _. ftrue };
}

/// The bytes that a writer reported as written in one call.
#[derive(Clone, Copy)]
pub struct WrittenChunk<'a> {
    /// The written bytes, in order.
    pub bytes: &'a [u8],
}

impl WrittenBytes {
    /// Creates an empty record of written bytes.
    pub fn nothing() -> WrittenBytes
        ensures { result.bytes ≡ [] }
    {
        WrittenBytes {}
    }

    /// Returns this record with the bytes of one more call at its end.
    pub fn and(&self, more: &WrittenChunk<'_>) -> WrittenBytes
        ensures { result.bytes ≡ self.now.bytes ++ more.now.bytes.now }
    {
        WrittenBytes {}
    }
}
