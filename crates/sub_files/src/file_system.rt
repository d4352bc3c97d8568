//! The interface for opening and creating files, implemented by the operating system and by files
//! in memory.
//!
//! No contract of std says which file the system opens for a name, so clauses specify the calls of
//! a `FileSystem`, their names and their order. If all files were opened, each is released at the
//! end, in its state after the command, so clauses also cover a file after the command's result.
ghost use Rattle.std.specs.Prelude.{◌≡◌, IfSome, Option};
ghost use Rattle.sub_files.specs.FileCalls.{FileCall, any_file_call};

use crate::distinct_files::LookupResult;
use sub_io::{Close, Sink, Source};

/// A device that opens and creates files by their names.
pub trait FileSystem {
    /// A file opened for reading. The file is closed when it is released or dropped.
    type Input: Source + Drop;

    /// A file created for writing. The file is closed before or when it is dropped.
    type Output: Close + Drop;

    // Relates the device's state before a call, the call with its result, and the device's state
    // after the call.
    ghost is_call: { Self → FileCall Self.Input Self.Output → Self → Type 0 } = { any_file_call };

    /// Looks up a file by its name.
    fn look_up(&mut self, name: &str) -> LookupResult
        ensures { is_call self.old (FileCall.LookUp name.now result) self.new };

    /// Looks up the file, pipe, terminal or socket that receives standard output. Returns
    /// `NothingFound` if standard output is a device such as `/dev/null`, or can't be looked up.
    fn look_up_standard_output(&mut self) -> LookupResult
        ensures { is_call self.old (FileCall.LookUpStandardOutput result) self.new };

    /// Opens a file for reading. Returns `None` if the file can't be opened.
    fn open(&mut self, name: &str) -> Option<Self::Input>
        ensures call { is_call self.old (FileCall.Open name.now result) self.new }
        ensures no_failures { IfSome result (λ file. Self.Input.failure_count file ≡ 0) };

    /// Creates a file for writing, and empties an existing file. Returns `None` if the file can't
    /// be created.
    fn create(&mut self, name: &str) -> Option<Self::Output>
        ensures call { is_call self.old (FileCall.Create name.now result) self.new }
        ensures no_failures { IfSome result (λ file. Self.Output.failure_count file ≡ 0) };

    /// Drops a file that was opened for reading. The argument is the file's state after the
    /// command.
    fn release_input(&mut self, file: Self::Input)
        ensures { is_call self.old (FileCall.ReleaseInput file) self.new };

    /// Drops a file that was created for writing.
    fn release_output(&mut self, file: Self::Output)
        ensures { is_call self.old (FileCall.ReleaseOutput file) self.new };

    /// Prints the reason why a file is not created, if the device can print.
    fn print_refusal(&self, _name: &str, _reason: &str) {}
}
