//! The buffer for the next bytes of a recording.
ghost use Rattle.std.specs.Prelude.{◌≡◌, ◌+◌, ◌-◌, ◌<◌, ◌≤◌, [], drop, length, Ok, IfOk, IsErr};
ghost use Rattle.std.specs.Prelude.{false, is_ok, true};
ghost use Rattle.std.specs.Io.KnownBytes.{IsAtEnd};
ghost use Rattle.sub_io.specs.Device.{CanFail, CountsFailure};
ghost use Rattle.mpeg_ts.specs.ConsumedStreamBytes.{TakesPrefix};
ghost use Rattle.mpeg_ts.specs.Window.{RequestsUpTo, buffered_and_left, known_bytes_left};
ghost use Rattle.mpeg_ts.specs.Window.{window_size};

use arrayvec::ArrayVec;
use std::marker::Model;
use sub_io::{Failed, Source};

/// The size of the buffer in bytes: a transport packet fits in it with the bytes before it, or with
/// all bytes up to the first byte of the next transport packet, whatever the packet size.
pub(crate) const WINDOW: usize = 205;

/// The buffered bytes of a recording, and the number of bytes that may still be read.
#[derive(Drop)]
pub(crate) struct Window {
    bytes: ArrayVec<u8, WINDOW>,
    left: u64,
}

impl Model for Window {
    ghost use Rattle.mpeg_ts.specs.Window.{WindowValue};

    ghost Value = { WindowValue };

    ghost view = { λ w. record { buffered = w.bytes.items; left = w.left } };
}

impl Window {
    // Creates an empty buffer for a recording. At most `left` bytes are read.
    pub(crate) fn new(left: u64) -> Self
        ensures { result ≡ record { buffered = []; left = left } }
    {
        Window {
            bytes: ArrayVec::new(),
            left,
        }
    }

    // Returns the buffered bytes of the recording.
    #[inline(always)]
    pub(crate) fn buffered(&self) -> &[u8]
        ensures buffered { result.now ≡ self.now.buffered }
        ensures most { length result.now ≤ window_size }
    {
        self.bytes.as_slice()
    }

    // Returns the number of buffered bytes of the recording.
    #[inline(always)]
    pub(crate) fn len(&self) -> usize
        ensures { result ≡ length self.now.buffered }
    {
        self.bytes.len()
    }

    // Returns the number of bytes that may still be read from the recording.
    #[inline(always)]
    pub(crate) fn left(&self) -> u64
        ensures { result ≡ self.now.left }
    {
        self.left
    }

    // Subtracts bytes that were skipped in the source's buffer from those that may still be read.
    #[inline(always)]
    pub(crate) fn count_skipped_bytes(&mut self, count: u64)
        requires { count ≤ self.old.left }
        ensures { self.new ≡ record self.old { left = self.old.left - count } }
    {
        self.left -= count;
    }

    // Returns the number of bytes that may be pulled to fill the buffer up to `count` bytes.
    fn free_space(&self, count: usize) -> usize
        requires few { length self.now.buffered < count }
        requires room { count ≤ window_size }
        ensures fits { length self.now.buffered + result ≤ count }
        ensures left { result ≤ self.now.left }
        ensures some { 0 < self.now.left → 0 < result }
    {
        let room = count - self.bytes.len();
        if self.left < room as u64 {
            self.left as usize
        } else {
            room
        }
    }

    // Pulls once from the source, for at most `room` bytes.
    #[tactic(auto, using(crate::proofs::WindowLemmas::pulling))]
    fn pull<S: Source>(&mut self, source: &mut S, room: usize) -> Result<usize, Failed>
        requires count { CanFail (S.failure_count source.old) }
        requires room { length self.old.buffered + room ≤ window_size }
        requires left { room ≤ self.old.left }
        ensures takes { TakesPrefix (buffered_and_left self.old) (buffered_and_left self.new)
            (S.remaining source.old) (S.remaining source.new) }
        ensures more { IfOk result (λ n. length self.new.buffered ≡ length self.old.buffered + n) }
        ensures left { IfOk result (λ n. self.new.left + n ≡ self.old.left) }
        ensures bound { IfOk result (λ n. n ≤ room) }
        ensures end { result ≡ Ok 0 → 0 < room → IsAtEnd (S.remaining source.new) }
        ensures err { IsErr result → self.new ≡ self.old }
        ensures requests { RequestsUpTo S.is_pull S.borrowed S.remaining (length self.old.buffered +
            room)
            self.old source.old (is_ok result) self.new source.new }
        ensures count { CountsFailure
            (S.failure_count source.old) result (S.failure_count source.new) }
    {
        let mut bytes = [0; WINDOW];
        let (prefix, _) = bytes.split_at_mut(room);
        let n = source.pull(prefix)?;
        let (given, _) = prefix.split_at(n);
        self.bytes.try_extend_from_slice(given).unwrap();
        self.left -= n as u64;
        Ok(n)
    }

    // Reads until the buffer has at least `count` bytes. Returns `false` if the recording ends, or
    // no more bytes may be read, before that.
    #[tactic(auto, using(crate::proofs::WindowLemmas::filling))]
    pub(crate) fn fill_window_to<S: Source>(
        &mut self,
        source: &mut S,
        count: usize,
    ) -> Result<bool, Failed>
        requires count { CanFail (S.failure_count source.old) }
        requires room { count ≤ window_size }
        ensures takes { TakesPrefix (buffered_and_left self.old) (buffered_and_left self.new)
            (S.remaining source.old) (S.remaining source.new) }
        ensures there { result ≡ Ok true → count ≤ length self.new.buffered }
        ensures cut { is_ok result ≡ false → length self.new.buffered < count }
        ensures few { result ≡ Ok false → length self.new.buffered < count }
        ensures end { result ≡ Ok false
            → IsAtEnd (known_bytes_left self.new (S.remaining source.new)) }
        ensures sum { length self.new.buffered + self.new.left
            ≡ length self.old.buffered + self.old.left }
        ensures grows { length self.old.buffered ≤ length self.new.buffered }
        ensures requests { RequestsUpTo S.is_pull S.borrowed S.remaining count
            self.old source.old (is_ok result) self.new source.new }
        ensures count { CountsFailure
            (S.failure_count source.old) result (S.failure_count source.new) }
    {
        let mut buffered_count = self.buffered().len();
        while buffered_count < count {
            let room = self.free_space(count);
            let n = self.pull(source, room)?;
            if n == 0 {
                return Ok(false);
            }
            buffered_count += n;
        }
        Ok(true)
    }

    // Removes up to `count` bytes from the front of the buffer. Returns the number of bytes still
    // to be removed.
    pub(crate) fn advance(&mut self, count: usize) -> usize
        ensures buffered { self.new.buffered ≡ drop count self.old.buffered }
        ensures left { self.new.left ≡ self.old.left }
        ensures rest { result ≡ count - length self.old.buffered }
    {
        let buffered_count = self.bytes.len();
        if buffered_count <= count {
            self.bytes.clear();
            return count - buffered_count;
        }
        let mut bytes = [0; WINDOW];
        let (prefix, _) = bytes.split_at_mut(buffered_count - count);
        let (_, following) = self.bytes.as_slice().split_at(count);
        prefix.copy_from_slice(following);
        self.bytes.clear();
        self.bytes.try_extend_from_slice(prefix).unwrap();
        0
    }
}
