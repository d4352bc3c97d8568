//! Keeps the descriptors of closed standard streams, so that no file that is opened later takes the
//! place of one.
//!
//! No contract of std says which descriptor the system gives to a file.

use crate::distinct_files::LookupResult;
use std::fs::OpenFile;
use std::os::fd::AsFd;
use std::os::unix::fs::MetadataExt;
use std::rt::Files;
use std::{fs, io};

// The error of a call on a descriptor that is not open, EBADF.
const BAD_DESCRIPTOR: i32 = 9;

// The folder that is opened in the place of a closed stream. It can be neither read nor written as
// a file.
const FOLDER: &str = "/";

/// The folder that is open in the place of a standard stream, if the stream is closed.
#[derive(Drop)]
pub struct StreamInPlace<F> {
    // Stays open as long as files may be opened.
    _folder: Option<F>,
    /// The device and inode of the folder; `NothingFound` if the stream is open.
    pub found: LookupResult,
}

/// Opens a folder in the place of a standard stream, if the stream is closed.
///
/// The streams must be passed in the order of their descriptors 0, 1 and 2, before any other file
/// is opened: the system gives the lowest free descriptor to an opened file.
///
/// # Errors
///
/// Fails if the stream is closed, and the folder can't be opened or looked up.
pub fn occupy_closed_stream<R: Files, S: AsFd>(
    rt: &R,
    stream: &S,
) -> io::Result<StreamInPlace<R::File>> {
    if !is_closed(stream) {
        return Ok(StreamInPlace {
            _folder: None,
            found: LookupResult::NothingFound,
        });
    }
    let folder = fs::open(rt, FOLDER)?;
    let found_folder = folder.metadata()?;
    Ok(StreamInPlace {
        _folder: Some(folder),
        found: LookupResult::At(found_folder.dev(), found_folder.ino()),
    })
}

// Returns whether a stream is closed: its descriptor can't be copied because it is not open.
fn is_closed<S: AsFd>(stream: &S) -> bool {
    match stream.as_fd().try_clone_to_owned() {
        Ok(_) => false,
        Err(error) => error.raw_os_error() == Some(BAD_DESCRIPTOR),
    }
}
