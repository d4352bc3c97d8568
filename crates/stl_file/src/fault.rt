//! Faults of reading a subtitle file, and of writing its normal form.

ghost use Rattle.std.specs.Prelude.{◌≡◌};
ghost use Rattle.stl_file.specs.declared.fault.NormalFault.TheVariants.{Write};
ghost use Rattle.stl_file.specs.declared.fault.StlFault.TheVariants.{Read};

use sub_io::{Failed, FaultCode};

/// A fault of reading a subtitle file. The codes are 10 to 27, in the order of the variants.
#[derive(Clone, Copy, Debug, PartialEq, Eq)]
pub enum StlFault {
    /// Fault code 10: the file ends within the GSI block or within a TTI block.
    Truncated,
    /// Fault code 11: DFC is neither `STL25.01` nor `STL30.01`.
    Format,
    /// Fault code 12: DFC is `STL30.01`; 30 frames per second are not supported.
    Rate,
    /// Fault code 13: DSC is not `1` or `2`, Teletext of level 1 or 2. If open subtitles are
    /// accepted, `0` and a space are allowed too.
    Display,
    /// Fault code 14: CCT is not `00`, the Latin table.
    Alphabet,
    /// Fault code 15: EBN of a TTI block is F0 to FD, which is reserved.
    Extension,
    /// Fault code 16: CS of a subtitle's first block is not 0; cumulative sets are not supported.
    Cumulative,
    /// Fault code 17: CF of a TTI block, except user data, is neither 0, subtitle, nor 1, comment.
    CommentFlag,
    /// Fault code 18: JC of a subtitle's first block is greater than 3.
    Justify,
    /// Fault code 19: VP of a subtitle's first block is not 1 to 23.
    Row,
    /// Fault code 20: TCI or TCO of a subtitle's first block is no time code at 25 frames per
    /// second.
    Time,
    /// Fault code 21: TCI of a subtitle's first block is not before its TCO.
    EmptyTime,
    /// Fault code 22: SGN or SN of a later block differs from SGN or SN of the subtitle's first
    /// block.
    Sequence,
    /// Fault code 23: a subtitle has more than nine blocks.
    TooLong,
    /// Fault code 24: the file ends within a subtitle, before its block with EBN FF.
    Unfinished,
    /// Fault code 25: the file continues after 99,999 TTI blocks.
    TooManyBlocks,
    /// Fault code 26: the source failed.
    Read,
    /// Fault code 27: `next` or `next_into` of an `StlReader` was called again after a fault.
    Ended,
}

impl StlFault {
    ghost use Rattle.stl_file.specs.Fault.{is_first_block_fault, code_of_stl_fault};

    /// Returns the number and the name of the fault for reports.
    pub fn code(self) -> FaultCode
        ensures { result ≡ code_of_stl_fault self }
    {
        match self {
            StlFault::Truncated => FaultCode::new(10, "Truncated"),
            StlFault::Format => FaultCode::new(11, "Format"),
            StlFault::Rate => FaultCode::new(12, "Rate"),
            StlFault::Display => FaultCode::new(13, "Display"),
            StlFault::Alphabet => FaultCode::new(14, "Alphabet"),
            StlFault::Extension => FaultCode::new(15, "Extension"),
            StlFault::Cumulative => FaultCode::new(16, "Cumulative"),
            StlFault::CommentFlag => FaultCode::new(17, "CommentFlag"),
            StlFault::Justify => FaultCode::new(18, "Justify"),
            StlFault::Row => FaultCode::new(19, "Row"),
            StlFault::Time => FaultCode::new(20, "Time"),
            StlFault::EmptyTime => FaultCode::new(21, "EmptyTime"),
            StlFault::Sequence => FaultCode::new(22, "Sequence"),
            StlFault::TooLong => FaultCode::new(23, "TooLong"),
            StlFault::Unfinished => FaultCode::new(24, "Unfinished"),
            StlFault::TooManyBlocks => FaultCode::new(25, "TooManyBlocks"),
            StlFault::Read => FaultCode::new(26, "Read"),
            StlFault::Ended => FaultCode::new(27, "Ended"),
        }
    }

    // Returns whether the fault is in CS, JC, VP, TCI or TCO of a subtitle's first block, so the
    // end of the subtitle is still known.
    pub(crate) fn is_first_block_fault(&self) -> bool
        ensures { result ≡ is_first_block_fault self.now }
    {
        match self {
            StlFault::Cumulative
            | StlFault::Justify
            | StlFault::Row
            | StlFault::Time
            | StlFault::EmptyTime => true,
            _ => false,
        }
    }
}

impl From<Failed> for StlFault {
    ghost from_gives = { λ _ e. e ≡ Read };

    fn from(_failed: Failed) -> StlFault {
        StlFault::Read
    }
}

/// An error of writing a normal form.
#[derive(Clone, Copy, Debug, PartialEq, Eq)]
pub enum NormalFault {
    /// Fault codes 10 to 25: the subtitle file was rejected, and nothing was written.
    Refused {
        /// The first fault of the subtitle file.
        fault: StlFault,
        /// The number of the TTI block with the fault, counted from 1; 0 for the GSI block.
        block: u32,
    },
    /// Fault code 29: the sink failed, and a prefix of the normal form was written.
    Write,
}

impl NormalFault {
    ghost use Rattle.stl_file.specs.Fault.{code_of_normal_fault};

    /// Returns the number and the name of the error for reports.
    pub fn code(self) -> FaultCode
        ensures { result ≡ code_of_normal_fault self }
    {
        match self {
            NormalFault::Refused { fault, .. } => fault.code(),
            NormalFault::Write => FaultCode::new(29, "Write"),
        }
    }
}

impl From<Failed> for NormalFault {
    ghost from_gives = { λ _ e. e ≡ Write };

    fn from(_failed: Failed) -> NormalFault {
        NormalFault::Write
    }
}
