//! The files that a request reads and writes.
//!
//! The names of a subtitle file, a file of PES packets and an output file have different types,
//! which are created only here. So none can be used in place of another.
ghost use Rattle.std.specs.Prelude.{◌≡◌, ℕ, List};

use crate::request::Request;
use std::marker::Model;

/// The name of a subtitle file to read. The model is the name.
#[derive(Drop)]
pub struct StlInput<'a>(&'a str);

impl<'a> Model for StlInput<'a> {
    ghost Value = { List ℕ };

    ghost view = { λ f. f.0.now };
}

impl<'a> StlInput<'a> {
    /// Returns the name of the subtitle file.
    pub fn name(&self) -> &'a str
        ensures { result.now ≡ self.now }
    {
        self.0
    }
}

/// The name of a file to read that has PES packets or a transport stream. The model is the name.
#[derive(Drop)]
pub struct PesInput<'a>(&'a str);

impl<'a> Model for PesInput<'a> {
    ghost Value = { List ℕ };

    ghost view = { λ f. f.0.now };
}

impl<'a> PesInput<'a> {
    /// Returns the name of the file that has PES packets or a transport stream.
    pub fn name(&self) -> &'a str
        ensures { result.now ≡ self.now }
    {
        self.0
    }
}

/// The name of a file to write. The model is the name.
#[derive(Drop)]
pub struct Output<'a>(&'a str);

impl<'a> Model for Output<'a> {
    ghost Value = { List ℕ };

    ghost view = { λ f. f.0.now };
}

impl<'a> Output<'a> {
    /// Returns the name of the file to write.
    pub fn name(&self) -> &'a str
        ensures { result.now ≡ self.now }
    {
        self.0
    }
}

/// The names of the files of a request, in the order of its arguments.
#[derive(Drop)]
pub enum FileNames<'a> {
    /// The request uses no files.
    None,
    /// The request reads a subtitle file.
    ReadStl(StlInput<'a>),
    /// The request reads a file of PES packets or a transport stream.
    ReadPes(PesInput<'a>),
    /// The request reads a subtitle file, and PES packets from a file of PES packets or from a
    /// transport stream.
    ReadBoth(StlInput<'a>, PesInput<'a>),
    /// The request reads a subtitle file and writes another file.
    Write(StlInput<'a>, Output<'a>),
    /// The request reads a recording, a transport stream, and writes another file.
    Extract(PesInput<'a>, Output<'a>),
}

impl<'a> Request<'a> {
    ghost use Rattle.sub_request.specs.Files.{files_of_request};

    /// Returns the names of the files that the request reads and writes.
    pub fn files(&self) -> FileNames<'a>
        ensures { result ≡ files_of_request self.now }
    {
        match self {
            Request::Help | Request::Version | Request::Packet { .. } => FileNames::None,
            Request::Packets { pes } => FileNames::ReadPes(PesInput(pes.name)),
            Request::Show { stl } => FileNames::ReadStl(StlInput(stl)),
            Request::Normal { input, output } => {
                FileNames::Write(StlInput(input), Output(output))
            }
            Request::Schedule { stl, pes, .. } => FileNames::Write(StlInput(stl), Output(pes)),
            Request::Check { stl, pes, .. } => {
                FileNames::ReadBoth(StlInput(stl), PesInput(pes.name))
            }
            Request::Listen { pes, .. } => FileNames::ReadPes(PesInput(pes.name)),
            Request::Extract { recording, pes, .. } => {
                FileNames::Extract(PesInput(recording), Output(pes))
            }
            Request::Survey { recording, .. } => FileNames::ReadPes(PesInput(recording)),
        }
    }
}
