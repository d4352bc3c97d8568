//! The buffer for the bytes of a recording that are to be examined.
ghost use Rattle.std.specs.Prelude.{◌≡◌, ◌≤◌, ◌<◌, ◌-◌, length, vec_len, take, drop, IfOk, IfSome};
ghost use Rattle.std.specs.Prelude.{true};
ghost use Rattle.std.specs.Io.KnownBytes.{IsAtEnd};
ghost use Rattle.sub_io.specs.Device.{CanFail, CountsFailure};
ghost use Rattle.ts_survey.specs.ReadBuffer.{BuffersMore, read_buffer_size};

use crate::text::Text;
use std::alloc::Global;
use sub_io::{Failed, Source};

/// The size of the buffer in bytes: room for the longest PES packet of a file, 65,541 bytes, and
/// for the bytes of one read.
const BUFFER_SIZE: usize = 135_168;

/// The number of bytes that are requested at once; a feed may return fewer. A buffered source reads
/// from its device directly into this buffer if its own buffer is empty and not larger than this.
const READ_SIZE: usize = 65_536;

/// The result of reading from the source.
#[derive(Clone, Copy)]
pub struct Received {
    /// Whether no byte was read: the recording is at its end, unless the buffer was full.
    pub is_end: bool,
    /// Whether fewer bytes than requested were read, which is taken to mean that no more data is
    /// available for now.
    pub has_no_more: bool,
}

/// The bytes that were read and are still to be examined.
#[derive(Drop)]
pub struct ReadBuffer {
    bytes: Vec<u8>,
    len: usize,

    ghost within: { len ≤ vec_len bytes },
}

impl ReadBuffer {
    /// Creates an empty buffer. Returns `None` if memory runs out.
    pub fn new(alloc: Global) -> Option<ReadBuffer>
        ensures { IfSome result
            (λ buffer. (buffer.len ≡ 0) × (vec_len buffer.bytes ≡ read_buffer_size)) }
    {
        match vec![in alloc; 0; BUFFER_SIZE] {
            Ok(bytes) => Some(ReadBuffer { bytes, len: 0 }),
            Err(_) => None,
        }
    }

    /// Reads once from the source. All lines have been flushed before.
    ///
    /// # Errors
    ///
    /// Returns `Failed` if the source fails.
    pub fn pull<S: Source>(
        &mut self,
        source: &mut S,
        _first: &Text,
        _text: &Text,
    ) -> Result<Received, Failed>
        requires count { CanFail (S.failure_count source.old) }
        requires first { length _first.now.bytes.items ≡ 0 }
        requires none { length _text.now.bytes.items ≡ 0 }
        ensures count { CountsFailure (S.failure_count source.old) result
            (S.failure_count source.new) }
        // New bytes are appended to the buffered bytes.
        ensures buffered { IfOk result (λ _. BuffersMore
            (take self.old.len self.old.bytes.items) (take self.new.len self.new.bytes.items)
            (S.remaining source.old) (S.remaining source.new)) }
        // If the buffer had room, the result is the end only if the source has no bytes left.
        ensures end { IfOk result (λ received. received.is_end ≡ true
            → self.old.len < vec_len self.old.bytes → IsAtEnd (S.remaining source.new)) }
        ensures size { vec_len self.new.bytes ≡ vec_len self.old.bytes }
    {
        let len = self.len;
        let bytes = self.bytes.as_mut_slice();
        let end = bytes.len().min(len.saturating_add(READ_SIZE));
        let count = source.pull(&mut bytes[len..end])?;
        self.len = len + count;
        Ok(Received {
            is_end: count == 0,
            has_no_more: count < end - len,
        })
    }

    /// Returns the buffered bytes.
    pub fn buffered(&self) -> &[u8]
        ensures bytes { result.now ≡ take self.now.len self.now.bytes.items }
        ensures len { length result.now ≡ self.now.len }
    {
        let (buffered, _) = self.bytes.as_slice().split_at(self.len);
        buffered
    }

    /// Drops the first `count` bytes, which are no longer needed.
    pub fn skip_bytes(&mut self, count: usize)
        requires { count ≤ self.old.len }
        ensures buffered { take self.new.len self.new.bytes.items
            ≡ drop count (take self.old.len self.old.bytes.items) }
        ensures len { self.new.len ≡ self.old.len - count }
        ensures size { vec_len self.new.bytes ≡ vec_len self.old.bytes }
    {
        let len = self.len;
        self.bytes.as_mut_slice().copy_within(count..len, 0);
        self.len = len - count;
    }
}
