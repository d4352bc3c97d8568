//! Opens and creates files of the operating system.
ghost use Rattle.std.specs.Prelude.{◌≡◌, ◌≢◌, IfErr, IfOk, true};
ghost use Rattle.std.specs.IoError.{error_kind};
ghost use Rattle.sub_files.specs.DistinctFiles.{is_file_found};

use crate::checked_file::{CheckedFile, SizeLookup};
use crate::distinct_files::LookupResult;
use crate::error_reporter::{ErrorReporter, explain};
use crate::file_system::FileSystem;
use crate::input_kind::{InputKind, InputKinds};
use std::cell::Cell;
use std::fs::{Metadata, OpenFile};
use std::io::{ErrorKind, Write};
use std::os::unix::fs::{FileTypeExt, MetadataExt};
use std::path::Path;
use std::rt::Files;
use std::{fs, io, str};
use sub_io::{FromRead, IntoFile, Store};

/// The number of bytes for the names of a request's two files: Linux opens no file with a name of
/// more than 4096 bytes.
pub const NAMES_CAPACITY: usize = 2 * 4096;

// The path of the link to the file that receives standard output.
const STANDARD_OUTPUT: &str = "/proc/self/fd/1";

/// The files of the operating system.
///
/// No contract says what the system returns. Each method that opens, creates or looks up a file
/// calls a function of `std::fs`, but a name that leads to a closed standard stream is not opened,
/// and an output whose name is too long is not created. If the call fails, the reason is printed on
/// standard error, unless no file has the name that was looked up, or standard output was looked
/// up.
#[derive(Drop)]
pub struct SystemFiles<'a, R> {
    rt: &'a R,
    // The memory in which the names of open files are stored.
    names: Option<&'a mut [u8]>,
    // Receives the formats of the opened files.
    kinds: &'a InputKinds,
    // The number of files opened for reading.
    opened: u8,
    // The folder in the place of closed standard streams; `NothingFound` if none is closed.
    closed_stream: LookupResult,
}

impl<'a, R: Files + Eprint> SystemFiles<'a, R> {
    /// Creates a device for the files that this runtime opens. `names` provides `NAMES_CAPACITY`
    /// bytes for the names of the files, and `kinds` receives their formats. A name that leads to
    /// `closed_stream`, the folder in the place of closed standard streams, is not opened.
    pub fn new(
        rt: &'a R,
        names: &'a mut [u8],
        kinds: &'a InputKinds,
        closed_stream: LookupResult,
    ) -> Self {
        SystemFiles {
            rt,
            names: Some(names),
            kinds,
            opened: 0,
            closed_stream,
        }
    }

    // Returns whether a name leads to the folder in the place of closed standard streams.
    fn is_closed_stream(&self, name: &str) -> bool {
        match self.closed_stream {
            LookupResult::At(device, inode) => match fs::metadata(self.rt, name) {
                Ok(found_file) => found_file.dev() == device && found_file.ino() == inode,
                Err(_) => false,
            },
            LookupResult::NothingFound | LookupResult::Unknown => false,
        }
    }

    // Counts a file opened for reading, and returns where its format is stored.
    fn next_kind(&mut self) -> &'a Cell<InputKind> {
        self.opened = self.opened.saturating_add(1);
        if self.opened == 1 {
            &self.kinds.first
        } else {
            &self.kinds.second
        }
    }

    // Stores a name for as long as the file may be open. Returns `None` if there is no room for the
    // name.
    fn keep(&mut self, name: &str) -> Option<&'a str> {
        let room = self.names.take()?;
        let length = name.len();
        if room.len() < length {
            return None;
        }
        let (mine, others) = room.split_at_mut(length);
        self.names = Some(others);
        mine.copy_from_slice(name.as_bytes());
        str::from_utf8(mine).ok()
    }
}

impl<'a, R: Files + Eprint> FileSystem for SystemFiles<'a, R> {
    type Input = FromRead<ErrorReporter<'a, R::File, R>>;

    type Output = CheckedFile<ErrorReporter<'a, R::File, R>, SystemSizeLookup<'a, R>>;

    fn look_up(&mut self, name: &str) -> LookupResult {
        let found_file = fs::metadata(self.rt, name);
        if let Err(error) = &found_file {
            if error.kind() != ErrorKind::NotFound {
                explain(self.rt, "look up", name, error);
            }
        }
        lookup_result_from_metadata(found_file)
    }

    fn look_up_standard_output(&mut self) -> LookupResult {
        match fs::metadata(self.rt, STANDARD_OUTPUT) {
            Ok(found_file) if !is_memory_device(&found_file) => LookupResult::At(
                found_file.dev(),
                found_file.ino(),
            ),
            _ => LookupResult::NothingFound,
        }
    }

    fn open(&mut self, name: &str) -> Option<FromRead<ErrorReporter<'a, R::File, R>>> {
        if self.is_closed_stream(name) {
            let _ = eprintln!(self.rt; "subttx: cannot open {name:?}: the stream is closed");
            return None;
        }
        match fs::open(self.rt, name) {
            Ok(file) => {
                let name = self.keep(name)?;
                let kind = self.next_kind();
                let rt = self.rt;
                Some(FromRead::new(ErrorReporter::input(file, name, rt, kind)))
            }
            Err(error) => {
                explain(self.rt, "open", name, &error);
                None
            }
        }
    }

    fn create(
        &mut self,
        name: &str,
    ) -> Option<CheckedFile<ErrorReporter<'a, R::File, R>, SystemSizeLookup<'a, R>>> {
        let Some(name) = self.keep(name) else {
            self.print_refusal(name, "its name is too long");
            return None;
        };
        let rt = self.rt;
        match fs::create(rt, name) {
            Ok(file) => {
                let is_file = match file.metadata() {
                    Ok(found_file) => found_file.is_file(),
                    Err(_) => true,
                };
                let lookup = SystemSizeLookup { rt, name, is_file };
                Some(CheckedFile::new(ErrorReporter::new(file, name, rt), lookup))
            }
            Err(error) => {
                explain(rt, "create", name, &error);
                None
            }
        }
    }

    fn release_input(&mut self, _file: FromRead<ErrorReporter<'a, R::File, R>>) {}

    fn release_output(
        &mut self,
        _file: CheckedFile<ErrorReporter<'a, R::File, R>, SystemSizeLookup<'a, R>>,
    ) {}

    fn print_refusal(&self, name: &str, reason: &str) {
        let _ = eprintln!(self.rt; "subttx: {name:?} is not written: {reason}");
    }
}

// Returns whether a file is a memory device of Linux, such as `/dev/null`. Creating an output there
// empties nothing, so standard output and an output file may share it.
fn is_memory_device(file: &Metadata) -> bool {
    // The lowest 8 bits are the minor number, and Linux gives the major number 1 to these devices.
    file.file_type().is_char_device() && file.rdev() >> 8 == 1
}

// Converts the result of a lookup. Only the error `NotFound` means that no file has this name.
fn lookup_result_from_metadata(looked_up: io::Result<Metadata>) -> LookupResult
    ensures found_file { IfOk looked_up (λ _. is_file_found result ≡ true) }
    ensures nothing { IfErr looked_up (λ error.
        error_kind error ≡ ErrorKind.NotFound → result ≡ LookupResult.NothingFound) }
    ensures unknown { IfErr looked_up (λ error.
        error_kind error ≢ ErrorKind.NotFound → result ≡ LookupResult.Unknown) }
{
    match looked_up {
        Ok(found_file) => LookupResult::At(found_file.dev(), found_file.ino()),
        Err(error) => match error.kind() {
            ErrorKind::NotFound => LookupResult::NothingFound,
            _ => LookupResult::Unknown,
        },
    }
}

/// A device that looks up the size of a file of the operating system after the file was closed.
#[derive(Drop)]
pub struct SystemSizeLookup<'a, R> {
    rt: &'a R,
    name: &'a str,
    // Whether the file was a regular file when it was created, no pipe, terminal or other device;
    // also `true` if this is unknown.
    is_file: bool,
}

impl<R: Files + Eprint> SizeLookup for SystemSizeLookup<'_, R> {
    ghost is_size_lookup = { λ _ _ _. Unit {0} };

    /// If a regular file has all bytes, also synchronises its folder to disk, if opening the folder
    /// is permitted: a new file can't be found if its entry in the folder is lost.
    fn has_all_bytes<W: Write>(&self, _file: &IntoFile<W>, length: u64) -> bool {
        if !self.is_file {
            return true;
        }
        match file_length(self.rt, self.name) {
            Ok(found) if found == length => store_folder(self.rt, self.name),
            Ok(found) => {
                let name = self.name;
                let _ = eprintln!(self.rt;
                    "subttx: cannot store {name:?}: of {length} bytes written it has {found}"
                );
                false
            }
            Err(error) => {
                explain(self.rt, "open again", self.name, &error);
                false
            }
        }
    }
}

// Returns the number of bytes of a file: of the file opened again, or looked up by its name if
// reading the file is not permitted.
fn file_length<R: Files>(rt: &R, name: &str) -> io::Result<u64> {
    let found_file = match fs::open(rt, name) {
        Ok(file) => file.metadata(),
        Err(error) => match error.kind() {
            ErrorKind::PermissionDenied => fs::metadata(rt, name),
            _ => Err(error),
        },
    };
    match found_file {
        Ok(found_file) => Ok(found_file.len()),
        Err(error) => Err(error),
    }
}

// Synchronises the folder of a file to disk, and returns whether this succeeded. Also returns
// `true` if opening the folder is not permitted, or its file system does not support synchronising.
fn store_folder<R: Files + Eprint>(rt: &R, name: &str) -> bool {
    let folder = match Path::new(name).parent() {
        Some(folder) if !folder.as_str().is_empty() => folder.as_str(),
        _ => ".",
    };
    match fs::open(rt, folder) {
        Ok(file) => ErrorReporter::new(file, folder, rt).store(),
        Err(error) => {
            let is_permission_denied = error.kind() == ErrorKind::PermissionDenied;
            if !is_permission_denied {
                explain(rt, "open", folder, &error);
            }
            is_permission_denied
        }
    }
}
