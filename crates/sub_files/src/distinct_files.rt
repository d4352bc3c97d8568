//! Checks that the output file differs from the input file and from the file that receives standard
//! output.
ghost use Rattle.std.specs.Prelude.{◌≡◌};
ghost use Rattle.sub_files.specs.DistinctFiles.{differs_from_standard_output, differs_from_input};

/// The result of looking up a file by its name, or the file of a standard stream.
#[derive(Clone, Copy, Debug, PartialEq, Eq)]
pub enum LookupResult {
    /// No file has this name; or standard output is a device such as `/dev/null`, or can't be
    /// looked up; or, for the folder in the place of closed standard streams, no stream is closed.
    NothingFound,
    /// A file with this device and inode.
    At(u64, u64),
    /// The name could not be looked up.
    Unknown,
}

/// Returns whether the lookups show that creating the output does not empty the input file: the
/// output does not exist, or both files were found and differ in device or inode.
pub fn differs_from_input(input: LookupResult, output: LookupResult) -> bool
    ensures { result ≡ differs_from_input input output }
{
    match output {
        LookupResult::NothingFound => true,
        LookupResult::Unknown => false,
        LookupResult::At(device, inode) => match input {
            LookupResult::At(input_device, input_inode) => input_device != device
                || input_inode != inode,
            LookupResult::NothingFound | LookupResult::Unknown => false,
        },
    }
}

/// Returns `true` unless the output file receives standard output: both were found, with the same
/// device and inode.
pub fn differs_from_standard_output(standard_output: LookupResult, output: LookupResult) -> bool
    ensures { result ≡ differs_from_standard_output standard_output output }
{
    match standard_output {
        LookupResult::At(device, inode) => match output {
            LookupResult::At(output_device, output_inode) => {
                device != output_device || inode != output_inode
            }
            LookupResult::NothingFound | LookupResult::Unknown => true,
        },
        LookupResult::NothingFound | LookupResult::Unknown => true,
    }
}
