//! Requests to the program, and the faults of its arguments.
ghost use Rattle.std.specs.Prelude.{◌≡◌};

use crate::listening::Listening;
use crate::pes_selection::{PesSelection, TransportStream};
use mpeg_ts::SurveyOptions;
use stl_file::Scope;
use stl_rows::{Layout, National};
use sub_io::FaultCode;
use sub_plan::Options;
use thiserror::Error;

/// A fault for which the program cannot carry out the request in its arguments. The order of the
/// variants is the order of reports, but `Memory` is reported as soon as memory runs out.
///
/// The program does not print the texts below. `print_usage_fault` of `sub_answer` prints a line
/// with the fault's number and name.
#[derive(Debug, Drop, Error)]
pub enum UsageFault {
    /// Fault code 0: the arguments are no valid command line.
    #[error("the words are not those of a command")]
    Words,
    /// Fault code 2: HEX is not 84 hexadecimal digits.
    #[error("the packet is not 84 hexadecimal digits")]
    BadHex,
    /// Fault code 7: the file to be written has the name of the input.
    #[error("the input and the output have the same name")]
    SameFile,
    /// Fault code 1: the page is not a digit 1 to 8 and two hexadecimal digits, or is a page FF. Or
    /// there are more than eight pages to survey, or one of them is given twice.
    #[error("the page is not 100 to 8FE")]
    BadPage,
    /// Fault code 80: the repeat bound is not 1 to 2,160,000 frames.
    #[error("the repeat bound is not 1 to 2160000 frames")]
    Every,
    /// Fault code 81: the PTS of frame 0 is not below 2^33.
    #[error("the PTS of frame 0 does not have 33 bits")]
    Origin,
    /// Fault code 83: the national option is no name that `National::parse` accepts.
    #[error("there is no such national option")]
    BadOption,
    /// Fault code 85: `--within` is not 0 to 50 frames.
    #[error("the page is not allowed 0 to 50 frames")]
    Within,
    /// Fault code 86: the PID is not 0 to 8190.
    #[error("the PID is not 0 to 8190")]
    Pid,
    /// Fault code 87: the distance of transport packets is not 188, 192 or 204 bytes.
    #[error("the packet size is not 188, 192 or 204")]
    PacketSize,
    /// Fault code 88: the PES packets are not `I-J` or `I-`, or the last comes before the first.
    #[error("the PES packets are not I-J or I-")]
    Range,
    /// Fault code 89: the layout is no text that `Layout::parse` accepts.
    #[error("there is no such layout")]
    BadLayout,
    /// Fault code 92: the maximum distance of PES packets is not 1 to 2,160,000 frames.
    #[error("the pace is not 1 to 2160000 frames")]
    Pace,
    /// Fault code 6: the time is not `HH:MM:SS:FF` of a day.
    #[error("the time is not HH:MM:SS:FF of a day")]
    BadTime,
    /// Fault code 8: the number of packets to skip is not one to ten digits.
    #[error("the packets to be skipped are no number")]
    BadSkip,
    /// Fault code 5: the flips are not 1 to 64 places `P:B:K`, or two flips are in the same byte.
    #[error("the flips are not 1 to 64 places")]
    BadFlip,
    /// Fault code 84: the lost packets are not 1 to 64 numbers, or two numbers are equal.
    #[error("the lost packets are not 1 to 64 numbers")]
    BadLose,
    /// Fault code 9: the receiver is none of blank, keep, drop and anew.
    #[error("the receiver is none of blank, keep, drop and anew")]
    BadReceiver,
    /// Fault code 91: memory could not be allocated.
    #[error("memory ran out")]
    Memory,
    /// Fault code 90: a file can't be opened or created, or the output might overwrite the input or
    /// is known to receive standard output. `Request::parse` never returns this fault.
    #[error("a file can't be opened")]
    Open,
}

impl UsageFault {
    ghost use Rattle.sub_request.specs.Fault.{code_of_usage_fault};

    /// Returns the number and the name of the fault for reports.
    pub fn code(&self) -> FaultCode
        ensures { result ≡ code_of_usage_fault self.now }
    {
        match self {
            UsageFault::Words => FaultCode::new(0, "Words"),
            UsageFault::BadHex => FaultCode::new(2, "BadHex"),
            UsageFault::SameFile => FaultCode::new(7, "SameFile"),
            UsageFault::BadPage => FaultCode::new(1, "BadPage"),
            UsageFault::Every => FaultCode::new(80, "Every"),
            UsageFault::Origin => FaultCode::new(81, "Origin"),
            UsageFault::BadOption => FaultCode::new(83, "BadOption"),
            UsageFault::Within => FaultCode::new(85, "Within"),
            UsageFault::Pid => FaultCode::new(86, "Pid"),
            UsageFault::PacketSize => FaultCode::new(87, "PacketSize"),
            UsageFault::Range => FaultCode::new(88, "Range"),
            UsageFault::BadLayout => FaultCode::new(89, "Layout"),
            UsageFault::Pace => FaultCode::new(92, "Pace"),
            UsageFault::BadTime => FaultCode::new(6, "BadTime"),
            UsageFault::BadSkip => FaultCode::new(8, "BadSkip"),
            UsageFault::BadFlip => FaultCode::new(5, "BadFlip"),
            UsageFault::BadLose => FaultCode::new(84, "BadLose"),
            UsageFault::BadReceiver => FaultCode::new(9, "BadReceiver"),
            UsageFault::Open => FaultCode::new(90, "Open"),
            UsageFault::Memory => FaultCode::new(91, "Memory"),
        }
    }
}

/// A request to the program: a variant for each command, with the values of its arguments.
#[derive(Drop)]
pub enum Request<'a> {
    /// `--help`: explains how to use the program.
    Help,
    /// `--version`: prints the name and the version of the program.
    Version,
    /// `packet HEX`: shows one Teletext packet.
    Packet {
        /// The 42 bytes of the Teletext packet, in the order of EN 300 706: bit 1 is the lowest.
        bytes: [u8; 42],
    },
    /// `packets PES`: lists PES packets and their Teletext units.
    Packets {
        /// The PES packets to list.
        pes: PesSelection<'a>,
    },
    /// `show STL`: lists the subtitles of a file.
    Show {
        /// The name of the subtitle file.
        stl: &'a str,
    },
    /// `normal IN OUT`: writes the normal form of a subtitle file.
    Normal {
        /// The name of the subtitle file to normalize.
        input: &'a str,
        /// The name of the file to write, different from the name of the subtitle file.
        output: &'a str,
    },
    /// `schedule STL PES`: writes a schedule of a subtitle file.
    Schedule {
        /// The name of the subtitle file.
        stl: &'a str,
        /// The name of the file of PES packets to write, different from the name of the subtitle
        /// file.
        pes: &'a str,
        /// The options of the schedule: the page, the repeat bound and the PTS of frame 0.
        options: Options,
        /// Whether the page headers are in serial mode (C11 is set).
        serial: bool,
        /// The national option of the subtitles' text.
        national: National,
        /// The layout, which decides how the subtitles' text is drawn.
        layout: Layout,
        /// The scope: the subtitles of the file to use.
        scope: Scope,
    },
    /// `check STL PES`: checks that PES packets show a subtitle file.
    Check {
        /// The name of the subtitle file.
        stl: &'a str,
        /// The PES packets to check.
        pes: PesSelection<'a>,
        /// The options of the check: the page, the repeat bound, the PTS of frame 0, the pace,
        /// whether complete pages are required, the number of frames within which the page must be
        /// right, and whether repeats may keep the page.
        options: Options,
        /// The national option of the subtitles' text.
        national: National,
        /// The layout, which decides how the subtitles' text is drawn.
        layout: Layout,
        /// The scope: the subtitles of the file to use.
        scope: Scope,
        /// Whether to report every fault, instead of only the first.
        all: bool,
    },
    /// `listen PES`: runs a receiver over PES packets.
    Listen {
        /// The PES packets to receive.
        pes: PesSelection<'a>,
        /// The parameters of the receiver's run.
        listening: Listening,
    },
    /// `extract TS PES`: writes the PES packets of a transport stream to a file.
    Extract {
        /// The name of the transport stream.
        recording: &'a str,
        /// The name of the file of PES packets to write, different from the name of the transport
        /// stream.
        pes: &'a str,
        /// The PID and the packet size of the transport packets to read.
        stream: TransportStream,
    },
    /// `survey RECORDING`: lists the contents of a recording.
    Survey {
        /// The name of the recording, a transport stream or a file of PES packets.
        recording: &'a str,
        /// The pages to survey, and the PID and the packet size, if they are given.
        options: SurveyOptions,
    },
}
