//! The values of the command `listen`.
use sub_plan::Options;

/// A bit of a Teletext packet that is received wrong.
#[derive(Clone, Copy, Debug, PartialEq, Eq)]
pub struct Flip {
    /// The number of the Teletext packet, counted from 0 among all Teletext packets of the PES
    /// packets to receive.
    pub packet: u64,
    /// The byte of the Teletext packet, 0 to 41, address bytes first.
    pub byte: u8,
    /// The bit of the byte, 1 to 8: bit 1 is the lowest and is sent first (EN 300 706).
    pub bit: u8,
}

/// How a receiver handles a byte of even parity in a row, and a header of its page with C4, erase
/// page, clear.
#[derive(Clone, Copy, Debug, PartialEq, Eq)]
pub enum ReceiverKind {
    /// The receiver keeps the old code of the cell; a header with C4 clear keeps the page.
    Keep,
    /// The receiver stores a space in the cell; a header with C4 clear keeps the page.
    Blank,
    /// The receiver drops the packet of the whole row; a header with C4 clear keeps the page.
    DropRow,
    /// The receiver stores a space in the cell, and blanks the page at each header of the page,
    /// even if C4 is clear.
    BlankEachHeader,
}

/// The parameters of the command `listen`: one run of a receiver over the PES packets of a file.
#[derive(Drop)]
pub struct Listening {
    /// The options of the run: the page to which the receiver is tuned, the PTS of frame 0, whether
    /// complete pages are required, and `within`, which decides the frame of a PTS. The other
    /// options are not used.
    pub options: Options,
    /// The frame of the day up to which packets are received, this frame included (the argument
    /// TIME).
    pub at: u32,
    /// The number of Teletext packets to skip at the start of the PES packets to receive.
    pub skip: u64,
    /// The bits that are received wrong, at most one bit per byte.
    pub flips: Vec<Flip>,
    /// The numbers of the packets that the receiver loses, counted from 0 among all Teletext
    /// packets of the PES packets to receive. Skipped packets are not lost.
    pub lost: Vec<u64>,
    /// How the receiver handles even parity and headers with C4 clear.
    pub receiver: ReceiverKind,
}
