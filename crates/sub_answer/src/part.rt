//! The PES packets of a file that a request reads.
ghost use Rattle.std.specs.Prelude.{◌≡◌};
ghost use Rattle.sub_answer.specs.Part as specs;

use sub_request::{Request, TransportStream};
use ttx_pes::PesPacketRange;

/// The part of a file of PES packets, or of a recording, that a request reads.
#[derive(Clone, Copy)]
pub struct Part {
    /// The PID and packet size of the transport packets that carry the PES packets; `None` if the
    /// bytes of the file itself are read.
    pub stream: Option<TransportStream>,
    /// The selected PES packets, by their numbers in the file or the stream; `None` for all.
    pub range: Option<PesPacketRange>,
}

/// Returns the part of its PES file or recording that a request reads: the complete file if the
/// request selects no part.
pub fn part_requested(request: &Request<'_>) -> Part
    ensures { result ≡ specs.part_requested request.now }
{
    match request {
        Request::Packets { pes } => Part {
            stream: pes.stream,
            range: pes.range,
        },
        Request::Check { pes, .. } => Part {
            stream: pes.stream,
            range: pes.range,
        },
        Request::Listen { pes, .. } => Part {
            stream: pes.stream,
            range: pes.range,
        },
        Request::Extract { stream, .. } => Part {
            stream: Some(*stream),
            range: None,
        },
        _ => entire_file(),
    }
}

/// Returns the part that is a complete file, without selecting transport packets.
pub fn entire_file() -> Part
    ensures { result ≡ specs.entire_file }
{
    Part {
        stream: None,
        range: None,
    }
}
