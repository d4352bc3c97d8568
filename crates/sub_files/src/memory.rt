//! Files in memory, whose bytes contracts can refer to.
//!
//! Contracts know nothing about the bytes of the system's files, so clauses about bytes are proved
//! for files in memory.
ghost use Rattle.std.specs.Prelude.{◌≡◌, option_map};
ghost use Rattle.sub_files.specs.MemoryFiles.{IsMemoryCall, bytes_at};

use crate::distinct_files::LookupResult;
use crate::file_system::FileSystem;
use std::marker::Model;
use sub_io::{MemSink, MemSource};

/// A file in memory, with its name and contents.
#[derive(Clone, Copy)]
pub struct MemFile<'a> {
    pub name: &'a str,
    /// The contents of the file.
    pub bytes: &'a [u8],
}

/// Two files in memory, since a request reads at most two, and memory for one created file. Reading
/// these files never fails.
#[derive(Drop)]
pub struct MemFiles<'a> {
    first: MemFile<'a>,
    second: MemFile<'a>,
    // The memory for a created file; `None` after a file was created.
    room: Option<&'a mut [u8]>,
}

impl<'a> Model for MemFiles<'a> {
    ghost use Rattle.std.specs.Prelude.{length, option_map};
    ghost use Rattle.sub_files.specs.MemoryFiles.{MemFilesValue};

    ghost Value = { MemFilesValue };

    ghost view = { λ f. record {
      first = f.first;
      second = f.second;
      room = option_map (λ room. length room.now) f.room;
    } };
}

impl<'a> MemFiles<'a> {
    ghost use Rattle.std.specs.Prelude.{Some, length};

    /// Creates a device with these files, and with `room` as the memory for a created file.
    pub fn new(first: MemFile<'a>, second: MemFile<'a>, room: &'a mut [u8]) -> Self
        ensures { result ≡ record {
          first = first.entry;
          second = second.entry;
          room = Some (length room.old);
        } }
    {
        MemFiles {
            first,
            second,
            room: Some(room),
        }
    }

    // Returns the bytes of the file with this name, or `None` if there is no such file.
    fn bytes_at(&self, name: &str) -> Option<&'a [u8]>
        ensures { option_map (λ bytes. bytes.now) result ≡ bytes_at name.now self.now }
    {
        if self.first.name == name {
            Some(self.first.bytes)
        } else if self.second.name == name {
            Some(self.second.bytes)
        } else {
            None
        }
    }
}

impl<'a> FileSystem for MemFiles<'a> {
    type Input = MemSource<'a>;

    type Output = MemSink<'a>;

    ghost is_call = { IsMemoryCall };

    fn look_up(&mut self, name: &str) -> LookupResult {
        match self.bytes_at(name) {
            Some(_) => LookupResult::At(0, 0),
            None => LookupResult::NothingFound,
        }
    }

    fn look_up_standard_output(&mut self) -> LookupResult {
        LookupResult::NothingFound
    }

    fn open(&mut self, name: &str) -> Option<MemSource<'a>> {
        match self.bytes_at(name) {
            Some(bytes) => Some(MemSource::new(bytes)),
            None => None,
        }
    }

    fn create(&mut self, _name: &str) -> Option<MemSink<'a>> {
        match self.room.take() {
            Some(room) => Some(MemSink::new(room)),
            None => None,
        }
    }

    fn release_input(&mut self, _file: MemSource<'a>) {}

    fn release_output(&mut self, _file: MemSink<'a>) {}
}
