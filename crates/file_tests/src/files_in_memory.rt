//! A file system in memory.
ghost use Rattle.std.specs.Prelude.{None};

use std::cell::Cell;
use std::fs::{Metadata, OpenFile};
use std::io::{self, ErrorKind, Read, Write};
use sub_files::{FileSystem, LookupResult};
use sub_io::{FromRead, IntoFile};

/// The name of the entry for the file that receives standard output.
pub const STANDARD_OUTPUT: &str = "standard output";

/// A name in the file system, with its file.
#[derive(Clone, Copy)]
pub struct Entry<'a> {
    /// The name of the file.
    pub name: &'a str,
    /// The result of looking up the name.
    pub found: LookupResult,
    /// The contents of the file; `None` if it can't be opened.
    pub bytes: Option<&'a [u8]>,
    /// Whether reading fails at the end of the contents.
    pub fails: bool,
}

/// A list of files, a buffer for one created file, and the calls so far.
#[derive(Drop)]
pub struct FilesInMemory<'a> {
    entries: &'a [Entry<'a>],
    // The buffer for a created file; `None` after a file was created.
    buffer: Option<&'a mut [u8]>,
    calls: [u8; 10],
    len: usize,
    reasons: Cell<u8>,
}

/// A file that was opened or created.
#[derive(Drop)]
pub enum MemoryFile<'a> {
    /// The remaining bytes of an input file, and whether reading fails after them.
    Opened(&'a [u8], bool),
    /// The buffer of a created file, and the number of bytes written.
    Created(&'a mut [u8], usize),
}

impl<'a> FilesInMemory<'a> {
    /// Creates a file system with these files. An output file is written into `buffer`, and can't
    /// be created if `buffer` is empty.
    pub fn new(entries: &'a [Entry<'a>], buffer: &'a mut [u8]) -> Self {
        FilesInMemory {
            entries,
            buffer: Some(buffer),
            calls: [0; 10],
            len: 0,
            reasons: Cell::new(0),
        }
    }

    /// Returns the calls so far, with two bytes for each: `l` for a lookup, `p` for a lookup of
    /// standard output, `o` for opening or `c` for creating a file, and the number of the file in
    /// the list, or `?`.
    pub fn calls(&self) -> &[u8] {
        &self.calls[..self.len.min(10)]
    }

    /// Returns how many reasons were given for not creating a file.
    pub fn reasons(&self) -> u8 {
        self.reasons.get()
    }

    // Records a call, and returns the entry for the name.
    fn ask(&mut self, call: u8, name: &str) -> Option<Entry<'a>> {
        self.note(call);
        let entries = self.entries;
        for k in 0..entries.len().min(10) {
            if entries[k].name == name {
                self.note(b'0' + k as u8);
                return Some(entries[k]);
            }
        }
        self.note(b'?');
        None
    }

    fn note(&mut self, byte: u8) {
        if self.len < 10 {
            self.calls[self.len] = byte;
            self.len += 1;
        }
    }
}

impl<'a> FileSystem for FilesInMemory<'a> {
    type Input = FromRead<MemoryFile<'a>>;

    type Output = IntoFile<MemoryFile<'a>>;

    fn look_up(&mut self, name: &str) -> LookupResult {
        match self.ask(b'l', name) {
            Some(entry) => entry.found,
            None => LookupResult::Unknown,
        }
    }

    fn look_up_standard_output(&mut self) -> LookupResult {
        match self.ask(b'p', STANDARD_OUTPUT) {
            Some(entry) => entry.found,
            None => LookupResult::NothingFound,
        }
    }

    fn open(&mut self, name: &str) -> Option<FromRead<MemoryFile<'a>>> {
        let Some(entry) = self.ask(b'o', name) else {
            return None;
        };
        match entry.bytes {
            Some(bytes) => Some(FromRead::new(MemoryFile::Opened(bytes, entry.fails))),
            None => None,
        }
    }

    fn create(&mut self, name: &str) -> Option<IntoFile<MemoryFile<'a>>> {
        self.ask(b'c', name);
        let Some(buffer) = self.buffer.take() else {
            return None;
        };
        if buffer.is_empty() {
            return None;
        }
        Some(IntoFile::new(MemoryFile::Created(buffer, 0)))
    }

    fn release_input(&mut self, _file: FromRead<MemoryFile<'a>>) {}

    fn release_output(&mut self, _file: IntoFile<MemoryFile<'a>>) {}

    fn print_refusal(&self, _name: &str, _reason: &str) {
        self.reasons.set(self.reasons.get().saturating_add(1));
    }
}

impl Read for MemoryFile<'_> {
    ghost remaining = { λ _. None };

    fn read(&mut self, to: &mut [u8]) -> io::Result<usize> {
        let MemoryFile::Opened(left, fails) = self else {
            return Err(ErrorKind::PermissionDenied.into());
        };
        if left.is_empty() && *fails {
            return Err(ErrorKind::Other.into());
        }
        let n = left.len().min(to.len());
        let (given, rest) = left.split_at(n);
        to[..n].copy_from_slice(given);
        *left = rest;
        Ok(n)
    }
}

impl Write for MemoryFile<'_> {
    ghost contents = { λ _. None };

    fn write(&mut self, from: &[u8]) -> io::Result<usize> {
        let MemoryFile::Created(buffer, len) = self else {
            return Err(ErrorKind::PermissionDenied.into());
        };
        let at = buffer.len().min(*len);
        let (_, free) = buffer.split_at_mut(at);
        let n = free.len().min(from.len());
        free[..n].copy_from_slice(&from[..n]);
        *len = at + n;
        Ok(n)
    }

    fn flush(&mut self) -> io::Result<()> {
        Ok(())
    }
}

impl OpenFile for MemoryFile<'_> {
    fn metadata(&self) -> io::Result<Metadata> {
        Err(ErrorKind::Unsupported.into())
    }

    fn set_len(&self, _size: u64) -> io::Result<()> {
        Err(ErrorKind::Unsupported.into())
    }

    fn sync_all(&self) -> io::Result<()> {
        Ok(())
    }

    fn sync_data(&self) -> io::Result<()> {
        Ok(())
    }
}
