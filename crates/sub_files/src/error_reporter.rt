//! A wrapper for devices of std that prints on standard error why reading, writing or storing
//! failed.
//!
//! No contract covers the messages; they do not affect any result.
ghost use Rattle.std.specs.Prelude.{None};

use crate::input_kind::{InputKind, input_kind_of, is_time_fault};
use std::cell::Cell;
use std::fs::{Metadata, OpenFile};
use std::io;
use std::io::{ErrorKind, Read, Write};

/// A device that prints on standard error why it failed to read, to write or to store bytes.
#[derive(Drop)]
pub struct ErrorReporter<'a, T, E> {
    inner: T,
    name: &'a str,
    errors: &'a E,
    is_standard_output: bool,
    // Receives the format of the file at the first read that succeeds.
    kind: Option<&'a Cell<InputKind>>,
    // Receives at the first write that succeeds whether the text begins with a fault that times in
    // the wrong order cause.
    time_fault: Option<&'a Cell<bool>>,
}

impl<'a, T, E: Eprint> ErrorReporter<'a, T, E> {
    /// Creates a reporter for a device, with the device's name for messages.
    pub fn new(inner: T, name: &'a str, errors: &'a E) -> Self {
        ErrorReporter {
            inner,
            name,
            errors,
            is_standard_output: false,
            kind: None,
            time_fault: None,
        }
    }

    /// Creates a reporter for an input, which stores the input's format in `kind` at the first read
    /// that succeeds.
    pub fn input(inner: T, name: &'a str, errors: &'a E, kind: &'a Cell<InputKind>) -> Self {
        ErrorReporter {
            inner,
            name,
            errors,
            is_standard_output: false,
            kind: Some(kind),
            time_fault: None,
        }
    }

    /// Creates a reporter for standard output, which stores in `time_fault`, if given, whether the
    /// first text that is written begins with a fault that times in the wrong order cause
    /// (`is_time_fault`). It prints no message if the reader of a pipe has exited, as `head` does.
    pub fn standard_output(inner: T, errors: &'a E, time_fault: Option<&'a Cell<bool>>) -> Self {
        ErrorReporter {
            inner,
            name: "",
            errors,
            is_standard_output: true,
            kind: None,
            time_fault,
        }
    }

    // Prints which operation of the device failed, and the reason; nothing if the reader of
    // standard output has exited.
    fn explain(&self, what: &str, error: &io::Error) {
        if !self.is_standard_output {
            explain(self.errors, what, self.name, error);
        } else if error.kind() != ErrorKind::BrokenPipe {
            let _ = eprintln!(self.errors; "subttx: cannot {what} standard output: {error}");
        }
    }
}

// Returns the first bytes of a buffer; all bytes if it has fewer.
fn first_bytes(bytes: &[u8], count: usize) -> &[u8] {
    match bytes.split_at_checked(count) {
        Some((first, _)) => first,
        None => bytes,
    }
}

/// Prints the reason why an operation on a file or a device failed.
pub fn explain<E: Eprint>(errors: &E, what: &str, name: &str, error: &io::Error) {
    let _ = eprintln!(errors; "subttx: cannot {what} {name:?}: {error}");
}

impl<T: Read, E: Eprint> Read for ErrorReporter<'_, T, E> {
    ghost remaining = { λ _. None };

    fn read(&mut self, to: &mut [u8]) -> io::Result<usize> {
        let answer = self.inner.read(to);
        match &answer {
            Ok(count) => {
                if let Some(kind) = self.kind.take() {
                    kind.set(input_kind_of(first_bytes(to, *count)));
                }
            }
            Err(error) => self.explain("read", error),
        }
        answer
    }
}

impl<T: Write, E: Eprint> Write for ErrorReporter<'_, T, E> {
    ghost contents = { λ _. None };

    fn write(&mut self, from: &[u8]) -> io::Result<usize> {
        let answer = self.inner.write(from);
        match &answer {
            Ok(0) => self.explain("write", &io::Error::from(ErrorKind::WriteZero)),
            Ok(_) => {
                if let Some(time_fault) = self.time_fault.take() {
                    time_fault.set(is_time_fault(from));
                }
            }
            Err(error) => self.explain("write", error),
        }
        answer
    }

    fn flush(&mut self) -> io::Result<()> {
        self.inner.flush()
    }
}

impl<T: OpenFile, E: Eprint> OpenFile for ErrorReporter<'_, T, E> {
    fn metadata(&self) -> io::Result<Metadata> {
        self.inner.metadata()
    }

    fn set_len(&self, size: u64) -> io::Result<()> {
        self.inner.set_len(size)
    }

    fn sync_all(&self) -> io::Result<()> {
        let answer = self.inner.sync_all();
        if let Err(error) = &answer {
            match error.kind() {
                // A pipe or a device can't be synchronised to disk; this is not an error.
                ErrorKind::InvalidInput | ErrorKind::Unsupported => {}
                _ => self.explain("store", error),
            }
        }
        answer
    }

    fn sync_data(&self) -> io::Result<()> {
        self.inner.sync_data()
    }
}
