//! Faults of reading and writing PES packets.
ghost use Rattle.std.specs.Prelude.{◌≡◌};
ghost use Rattle.ttx_pes.specs.declared.fault.PesFault.TheVariants.{Read};

use sub_io::{Failed, FaultCode};

/// A fault of reading or writing PES packets (EN 300 472). The checks are made in the order that
/// `PesReader::next` documents.
#[derive(Clone, Copy, Debug, PartialEq, Eq)]
pub enum PesFault {
    /// The bytes end within a PES packet, or fewer than six bytes remain.
    Truncated,
    /// Bytes 0 to 3 are not 00 00 01 BD: packet_start_code_prefix, and stream_id for
    /// private_stream_1.
    Start,
    /// By PES_packet_length, the size of the packet is not 1 to 9 times 184 bytes.
    Length,
    /// Byte 6 does not begin with 1000: the bits 10, then PES_scrambling_control 00.
    Flags,
    /// PTS_DTS_flags is not 10: the packet has no PTS, or also a DTS.
    NoTime,
    /// PES_header_data_length is not 24 (hexadecimal).
    HeaderLength,
    /// The PTS does not begin with 0010, or one of its three marker bits is 0.
    Time,
    /// data_identifier is not in the range 10 to 1F (hexadecimal) of EBU data.
    DataId,
    /// data_unit_length of a data unit is not 2C (hexadecimal).
    UnitLength,
    /// The framing code of a Teletext unit is not E4 (hexadecimal).
    Framing,
    /// The line of a Teletext unit does not come after the lines of the earlier units in the packet
    /// (not defined by a standard).
    LineOrder,
    /// The source failed during reading.
    Read,
    /// The sink failed during writing.
    Write,
    /// The reader or writer has already reported a fault.
    Ended,
    /// Bytes follow 2,160,000 packets, one for each frame of a day (not defined by a standard).
    TooMany,
    /// All bytes of the packet from byte 6 on are FF, as in a gap marker. A gap marker has 184
    /// bytes and replaces missing TS packets (not defined by a standard).
    Lost,
}

impl PesFault {
    ghost use Rattle.ttx_pes.specs.Fault.{is_packet_content_fault, pes_code};

    /// Returns the number and the name of the fault in reports.
    pub fn code(self) -> FaultCode
        ensures { result ≡ pes_code self }
    {
        match self {
            PesFault::Truncated => FaultCode::new(30, "Truncated"),
            PesFault::Start => FaultCode::new(31, "Start"),
            PesFault::Length => FaultCode::new(32, "Length"),
            PesFault::Flags => FaultCode::new(33, "Flags"),
            PesFault::NoTime => FaultCode::new(34, "NoTime"),
            PesFault::HeaderLength => FaultCode::new(35, "HeaderLength"),
            PesFault::Time => FaultCode::new(36, "Time"),
            PesFault::DataId => FaultCode::new(37, "DataId"),
            PesFault::UnitLength => FaultCode::new(38, "UnitLength"),
            PesFault::Framing => FaultCode::new(39, "Framing"),
            PesFault::LineOrder => FaultCode::new(40, "LineOrder"),
            PesFault::Read => FaultCode::new(41, "Read"),
            PesFault::Write => FaultCode::new(42, "Write"),
            PesFault::Ended => FaultCode::new(43, "Ended"),
            PesFault::TooMany => FaultCode::new(44, "TooMany"),
            PesFault::Lost => FaultCode::new(45, "Lost"),
        }
    }

    /// Returns whether the fault is in the contents of a complete packet, whose length field shows
    /// where the next packet begins (EN 300 472, PES_packet_length).
    pub fn is_packet_content_fault(self) -> bool
        ensures { result ≡ is_packet_content_fault self }
    {
        match self {
            PesFault::Flags
            | PesFault::NoTime
            | PesFault::HeaderLength
            | PesFault::Time
            | PesFault::DataId
            | PesFault::UnitLength
            | PesFault::Framing
            | PesFault::LineOrder
            | PesFault::Lost => true,
            _ => false,
        }
    }
}

impl From<Failed> for PesFault {
    ghost from_gives = { λ _ e. e ≡ Read };

    fn from(_failed: Failed) -> PesFault {
        PesFault::Read
    }
}
