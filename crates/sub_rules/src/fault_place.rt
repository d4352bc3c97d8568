//! The places of faults in the subtitle file and the transmission.

/// The place of a fault in the subtitle file or the transmission.
#[derive(Clone, Copy, Debug, PartialEq, Eq)]
pub enum FaultPlace {
    /// The fault has no place.
    Nowhere,
    /// A PES packet of the file, counted from 0.
    Pes {
        /// The number of the PES packet, counted from 0.
        pes: u32,
    },
    /// A TTI block of the subtitle file, counted from 1; 0 is the GSI block.
    Block {
        /// The number of the block.
        block: u32,
    },
    /// A position in the text of a subtitle: a byte or a line, both counted from 0.
    Text {
        /// The number of the subtitle's last TTI block.
        block: u32,
        /// The index of the byte or the line.
        at: u16,
    },
    /// A frame of the day at 25 frames per second.
    Frame {
        /// The frame, counted from 0 at midnight.
        frame: u32,
    },
    /// A Teletext packet of a frame, which has one PES packet or, if `within` is not 0, one or more
    /// between which at most skipped packets come.
    Packet {
        /// The frame of the PES packet.
        frame: u32,
        /// The number of the Teletext packet in its frame, counted from 0.
        packet: u32,
    },
    /// A cell of the page at the end of a frame.
    Cell {
        /// The frame at whose end the cell is checked.
        frame: u32,
        /// The row of the cell, 1 to 24.
        row: u8,
        /// The column of the cell, 0 to 39.
        column: u8,
    },
}
