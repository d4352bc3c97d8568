//! Opens the files that a request names.
//!
//! `open` returns only the opened files. So code that reads or writes these files has no access to
//! the device that opened them.
ghost use Rattle.std.specs.Prelude.{◌≡◌, ◌≤◌, [], ◌∷◌, IfSome, vec_len};
ghost use Rattle.sub_files.specs.FileCalls.{CallsInOrder, FileCall};
ghost use Rattle.sub_files.specs.Opening.{HaveNoFailures, OpensWithCalls, total_buffer_size};

use crate::file_system::FileSystem;
use crate::files::{
    CreatedFile, LookupResults, PesFile, StlFile, create_distinct_file, open_pes, open_stl,
};
use std::alloc::Global;
use sub_request::{FileNames, Output, PesInput, StlInput};

/// The size of a buffer in bytes, which is the maximum for one system call.
pub const BUFFER_SIZE: usize = 0x1_0000;

/// The opened files of a request.
#[derive(Drop)]
pub enum OpenedFiles<I, O> {
    /// The request names no file.
    Nothing,
    /// A subtitle file to read.
    ReadStl(StlFile<I>),
    /// A file of PES packets or a transport stream to read.
    ReadPes(PesFile<I>),
    /// A subtitle file, and a file of PES packets or a transport stream, to read.
    ReadBoth(StlFile<I>, PesFile<I>),
    /// A subtitle file to read, and a created file to write.
    Write(StlFile<I>, CreatedFile<O>),
    /// A recording to read, and a created file to write.
    Extract(PesFile<I>, CreatedFile<O>),
}

/// Allocates `size` bytes. Returns `None` if memory runs out.
pub fn room(alloc: Global, size: usize) -> Option<Vec<u8>>
    ensures { IfSome result (λ room. vec_len room ≡ size) }
{
    vec![in alloc; 0; size].ok()
}

/// Returns the total size of the buffers of a request's files in bytes: one buffer per file, and
/// one buffer for a request without files.
pub fn required_buffer_size(names: &FileNames<'_>) -> usize
    ensures size { result ≡ total_buffer_size names.now }
    ensures at_least_two_bytes { 2 ≤ result }
{
    match names {
        FileNames::ReadBoth(..) | FileNames::Write(..) | FileNames::Extract(..) => 2 * BUFFER_SIZE,
        _ => BUFFER_SIZE,
    }
}

/// Opens the files of a request in the order of its arguments, and creates the output. Returns
/// `None` without further calls if a file can't be opened or created, or if creating the output
/// might empty the input or is known to empty the file that receives standard output.
pub fn open<D: FileSystem>(
    files: &mut D,
    names: &FileNames<'_>,
) -> Option<OpenedFiles<D::Input, D::Output>>
    ensures no_failures { IfSome result
        (HaveNoFailures D.Input.failure_count D.Output.failure_count) }
    ensures calls { OpensWithCalls (CallsInOrder D.is_call files.old files.new) names.now result }
{
    match names {
        FileNames::None => Some(OpenedFiles::Nothing),
        FileNames::ReadStl(stl) => match open_stl(files, stl) {
            Some(file) => Some(OpenedFiles::ReadStl(file)),
            None => None,
        },
        FileNames::ReadPes(pes) => match open_pes(files, pes) {
            Some(file) => Some(OpenedFiles::ReadPes(file)),
            None => None,
        },
        FileNames::ReadBoth(stl, pes) => open_both(files, stl, pes),
        FileNames::Write(stl, output) => open_and_create(files, stl, output),
        FileNames::Extract(recording, output) => open_and_extract(files, recording, output),
    }
}

fn open_both<D: FileSystem>(
    files: &mut D,
    stl: &StlInput<'_>,
    pes: &PesInput<'_>,
) -> Option<OpenedFiles<D::Input, D::Output>>
    ensures no_failures { IfSome result
        (HaveNoFailures D.Input.failure_count D.Output.failure_count) }
    ensures calls { OpensWithCalls (CallsInOrder D.is_call files.old files.new)
        (FileNames.ReadBoth stl.now pes.now) result }
{
    let Some(first) = open_stl(files, stl) else {
        return None;
    };
    match open_pes(files, pes) {
        Some(second) => Some(OpenedFiles::ReadBoth(first, second)),
        None => None,
    }
}

fn open_and_create<D: FileSystem>(
    files: &mut D,
    stl: &StlInput<'_>,
    output: &Output<'_>,
) -> Option<OpenedFiles<D::Input, D::Output>>
    ensures no_failures { IfSome result
        (HaveNoFailures D.Input.failure_count D.Output.failure_count) }
    ensures calls { OpensWithCalls (CallsInOrder D.is_call files.old files.new)
        (FileNames.Write stl.now output.now) result }
{
    let Some(input) = open_stl(files, stl) else {
        return None;
    };
    let found = look_up_all(files, stl.name(), output);
    match create_distinct_file(files, output, found) {
        Some(created) => Some(OpenedFiles::Write(input, created)),
        None => None,
    }
}

fn open_and_extract<D: FileSystem>(
    files: &mut D,
    recording: &PesInput<'_>,
    output: &Output<'_>,
) -> Option<OpenedFiles<D::Input, D::Output>>
    ensures no_failures { IfSome result
        (HaveNoFailures D.Input.failure_count D.Output.failure_count) }
    ensures calls { OpensWithCalls (CallsInOrder D.is_call files.old files.new)
        (FileNames.Extract recording.now output.now) result }
{
    let Some(input) = open_pes(files, recording) else {
        return None;
    };
    let found = look_up_all(files, recording.name(), output);
    match create_distinct_file(files, output, found) {
        Some(created) => Some(OpenedFiles::Extract(input, created)),
        None => None,
    }
}

// Looks up the names of the input and the output, and the file that receives standard output.
fn look_up_all<D: FileSystem>(files: &mut D, name: &str, output: &Output<'_>) -> LookupResults
    ensures { CallsInOrder D.is_call files.old files.new
        (FileCall.LookUp name.now result.input ∷ FileCall.LookUp output.now result.output
        ∷ FileCall.LookUpStandardOutput result.standard_output ∷ []) }
{
    let input = files.look_up(name);
    let found_file = files.look_up(output.name());
    LookupResults {
        input,
        output: found_file,
        standard_output: files.look_up_standard_output(),
    }
}
