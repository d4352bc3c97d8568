//! Opened files, with a separate type for each purpose.
//!
//! A subtitle file, a file of PES packets (or a transport stream) and an output file have different
//! types, and only this module creates them, from the names in a request. So they cannot be
//! confused.
ghost use Rattle.std.specs.Prelude.{◌≡◌, IfSome, None, false, true};
ghost use Rattle.sub_files.specs.DistinctFiles.{may_create};
ghost use Rattle.sub_files.specs.FileCalls.{FileCall};

use crate::distinct_files::{LookupResult, differs_from_input, differs_from_standard_output};
use crate::file_system::FileSystem;
use std::marker::Model;
use sub_request::{Output, PesInput, StlInput};

/// A subtitle file that was opened for reading. The model is the file.
#[derive(Drop)]
pub struct StlFile<F> {
    file: F,
}

impl<F> Model for StlFile<F> {
    ghost Value = { F };

    ghost view = { λ f. f.file };
}

impl<F> StlFile<F> {
    /// Returns the opened subtitle file.
    pub fn into_file(self) -> F
        ensures { result ≡ self }
    {
        let StlFile { file } = self;
        file
    }
}

/// A file of PES packets or a transport stream that was opened for reading. The model is the file.
#[derive(Drop)]
pub struct PesFile<F> {
    file: F,
}

impl<F> Model for PesFile<F> {
    ghost Value = { F };

    ghost view = { λ f. f.file };
}

impl<F> PesFile<F> {
    /// Returns the opened file, which has PES packets or a transport stream.
    pub fn into_file(self) -> F
        ensures { result ≡ self }
    {
        let PesFile { file } = self;
        file
    }
}

/// A file that was created for writing. The model is the file.
#[derive(Drop)]
pub struct CreatedFile<F> {
    file: F,
}

impl<F> Model for CreatedFile<F> {
    ghost Value = { F };

    ghost view = { λ f. f.file };
}

impl<F> CreatedFile<F> {
    /// Returns the created file.
    pub fn into_file(self) -> F
        ensures { result ≡ self }
    {
        let CreatedFile { file } = self;
        file
    }
}

/// Opens a subtitle file for reading. Returns `None` if the file can't be opened.
pub fn open_stl<D: FileSystem>(files: &mut D, stl: &StlInput<'_>) -> Option<StlFile<D::Input>>
    ensures no_failures { IfSome result (λ file. D.Input.failure_count file ≡ 0) }
    ensures call { D.is_call files.old (FileCall.Open stl.now result) files.new }
{
    match files.open(stl.name()) {
        Some(file) => Some(StlFile { file }),
        None => None,
    }
}

/// Opens a file of PES packets or a transport stream for reading. Returns `None` if the file can't
/// be opened.
pub fn open_pes<D: FileSystem>(files: &mut D, pes: &PesInput<'_>) -> Option<PesFile<D::Input>>
    ensures no_failures { IfSome result (λ file. D.Input.failure_count file ≡ 0) }
    ensures call { D.is_call files.old (FileCall.Open pes.now result) files.new }
{
    match files.open(pes.name()) {
        Some(file) => Some(PesFile { file }),
        None => None,
    }
}

/// The results of the lookups before a file is created.
#[derive(Clone, Copy)]
pub struct LookupResults {
    /// The lookup result for the name of the input.
    pub input: LookupResult,
    /// The lookup result for the name of the output.
    pub output: LookupResult,
    /// The lookup result for standard output.
    pub standard_output: LookupResult,
}

// Returns the reason why an output that may be the input is not created. `None` if a file could not
// be looked up, since the reason was already printed.
fn reason_for_refusal(found: LookupResults) -> Option<&'static str> {
    match found.output {
        LookupResult::Unknown => None,
        LookupResult::NothingFound | LookupResult::At(..) => match found.input {
            LookupResult::Unknown => None,
            LookupResult::NothingFound => Some("the file that is read was removed"),
            LookupResult::At(..) => Some("it is the file that is read"),
        },
    }
}

/// Creates a file for writing, if the lookups show that this does not empty the input, and do not
/// show that it empties the file that receives standard output. Otherwise creates nothing. Returns
/// `None` if no file was created.
pub fn create_distinct_file<D: FileSystem>(
    files: &mut D,
    output: &Output<'_>,
    found: LookupResults,
) -> Option<CreatedFile<D::Output>>
    ensures no_failures { IfSome result (λ file. D.Output.failure_count file ≡ 0) }
    ensures distinct_files { may_create found.input found.standard_output found.output ≡ true
        → D.is_call files.old (FileCall.Create output.now result) files.new }
    ensures refuses_overwriting { may_create found.input found.standard_output found.output ≡ false
        → (result ≡ None) × (files.new ≡ files.old) }
{
    if !differs_from_input(found.input, found.output) {
        if let Some(reason) = reason_for_refusal(found) {
            files.print_refusal(output.name(), reason);
        }
        return None;
    }
    if !differs_from_standard_output(found.standard_output, found.output) {
        files.print_refusal(output.name(), "standard output goes into it");
        return None;
    }
    match files.create(output.name()) {
        Some(file) => Some(CreatedFile { file }),
        None => None,
    }
}
