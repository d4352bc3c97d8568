//! A reader and writer whose first calls are interrupted.
ghost use Rattle.std.specs.Prelude.{◌≤◌, IfOk, None, length};

use std::fs::{Metadata, OpenFile};
use std::io::{self, ErrorKind, Read, Write};

/// A reader and writer whose first calls, including flushes, are interrupted.
#[derive(Drop)]
pub struct Interrupted {
    /// The remaining number of calls to interrupt.
    pub calls: u8,
}

impl Interrupted {
    fn call(&mut self, len: usize) -> io::Result<usize>
        ensures { IfOk result (λ n. n ≤ len) }
    {
        if self.calls == 0 {
            return Ok(len);
        }
        self.calls -= 1;
        Err(io::ErrorKind::Interrupted.into())
    }
}

impl Read for Interrupted {
    ghost remaining = { λ _. None };

    fn read(&mut self, to: &mut [u8]) -> io::Result<usize> {
        self.call(to.len())
    }
}

impl Write for Interrupted {
    ghost contents = { λ _. None };

    fn write(&mut self, from: &[u8]) -> io::Result<usize> {
        self.call(from.len())
    }

    fn flush(&mut self) -> io::Result<()> {
        self.call(0)?;
        Ok(())
    }
}

impl OpenFile for Interrupted {
    fn metadata(&self) -> io::Result<Metadata> {
        Err(ErrorKind::Unsupported.into())
    }

    fn set_len(&self, _size: u64) -> io::Result<()> {
        Err(ErrorKind::Unsupported.into())
    }

    fn sync_all(&self) -> io::Result<()> {
        Ok(())
    }

    fn sync_data(&self) -> io::Result<()> {
        Ok(())
    }
}
