//! The packet size of a recording: the distance from one transport packet to the next.
ghost use Rattle.std.specs.Prelude.{◌≡◌};

/// The number of bytes from the start of one transport packet to the start of the next. A transport
/// packet has 188 bytes (ISO/IEC 13818-1), to which recorders may add bytes.
#[derive(Clone, Copy, Debug, PartialEq, Eq)]
pub enum PacketSize {
    /// 188 bytes: transport packets only.
    Plain,
    /// 192 bytes: each transport packet follows a time stamp of four bytes.
    TimeStamped,
    /// 204 bytes: each transport packet is followed by 16 bytes of a Reed-Solomon code.
    ErrorCorrected,
}

impl PacketSize {
    ghost use Rattle.mpeg_ts.specs.PacketSize.{bytes_of};

    /// Returns the packet size of a recording in bytes: 188, 192 or 204.
    pub fn bytes(self) -> usize
        ensures { result ≡ bytes_of self }
    {
        match self {
            PacketSize::Plain => 188,
            PacketSize::TimeStamped => 192,
            PacketSize::ErrorCorrected => 204,
        }
    }
}
