//! The PES packets to read: the file, and a range of its packets.
use mpeg_ts::{PacketSize, Pid};
use ttx_pes::PesPacketRange;

/// The transport packets of a recording that carry PES packets (ISO/IEC 13818-1).
#[derive(Clone, Copy, Debug, PartialEq, Eq)]
pub struct TransportStream {
    pub pid: Pid,
    /// The distance from one transport packet to the next: 188, 192 or 204 bytes.
    pub packet_size: PacketSize,
}

/// The PES packets to read.
#[derive(Clone, Copy)]
pub struct PesSelection<'a> {
    /// The name of the file of PES packets or of the transport stream.
    pub name: &'a str,
    /// The PID and the packet size, if the file is a transport stream; `None` for a file of PES
    /// packets.
    pub stream: Option<TransportStream>,
    /// The range of PES packets to read, by number from 0; `None` for all.
    pub range: Option<PesPacketRange>,
}
