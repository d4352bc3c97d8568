//! The header of a PES packet up to its times, which may be spread over several transport packets
//! (ISO/IEC 13818-1, PES_packet).

use crate::adaptation::{decoding_time, pts_of_pes_packet};
use arrayvec::ArrayVec;

/// The number of bytes of a PES header up to the end of its DTS.
const CAPACITY: usize = 19;

/// The header of the PES packet that began last in a PID.
#[derive(Drop)]
pub struct PesHeader {
    bytes: ArrayVec<u8, CAPACITY>,
    // Whether more bytes of the header are needed.
    is_open: bool,
}

impl PesHeader {
    /// Creates the state before the first PES packet.
    pub fn new() -> PesHeader {
        PesHeader {
            bytes: ArrayVec::new(),
            is_open: false,
        }
    }

    /// Returns whether more bytes of the header are needed.
    pub fn is_open(&self) -> bool {
        self.is_open
    }

    /// Returns how many bytes are stored, from the start of the PES packet on. As long as more
    /// bytes of the header are needed, these are all bytes received.
    pub fn len(&self) -> usize {
        self.bytes.len()
    }

    /// Drops the header, because its bytes cannot be read, the rest of them may be lost, or the
    /// next header begins.
    pub fn clear(&mut self) {
        self.bytes.clear();
        self.is_open = false;
    }

    /// Processes the payload of the next packet, and returns whether the header becomes complete
    /// with it. Returns `true` at most once for each PES packet, and never if the rest of the
    /// header is lost.
    pub fn take(&mut self, payload: &[u8], begins: bool, follows: bool) -> bool {
        if begins || !follows {
            self.clear();
        }
        if !begins && !self.is_open {
            return false;
        }
        add_prefix(&mut self.bytes, payload);
        self.is_open = self.bytes.len() < needed(self.bytes.as_slice());
        !self.is_open
    }

    /// Returns stream_id of the PES packet, or `None` if fewer than four bytes are stored or they
    /// begin no PES packet.
    pub fn stream_id(&self) -> Option<u8> {
        stream_id_in(self.bytes.as_slice())
    }

    /// Returns the PTS that `pts_of_pes_packet` finds in the stored bytes, if any.
    pub fn pts(&self) -> Option<u64> {
        pts_of_pes_packet(self.bytes.as_slice())
    }

    /// Returns the DTS of the PES packet, or its PTS if it has no DTS. Returns `None` if `pts`
    /// does, or if the stored bytes end before the end of the DTS.
    pub fn decoding_time(&self) -> Option<u64> {
        decoding_time(self.bytes.as_slice())
    }

    /// Returns the size in bytes of the complete header, from PES_header_data_length; 0 if that
    /// field was not received.
    pub fn size(&self) -> usize {
        match self.bytes.as_slice().get(8) {
            Some(more) => 9 + *more as usize,
            None => 0,
        }
    }
}

// Adds the first bytes of a payload, as many as fit.
fn add_prefix(bytes: &mut ArrayVec<u8, CAPACITY>, payload: &[u8]) {
    let free_bytes = CAPACITY - bytes.len();
    let (prefix, _) = payload.split_at(payload.len().min(free_bytes));
    let _ = bytes.try_extend_from_slice(prefix);
}

// Returns how many bytes of a header are needed, up to the end of its times: by PTS_DTS_flags if at
// least nine bytes were received, and otherwise 9.
fn needed(bytes: &[u8]) -> usize {
    if bytes.len() < 9 || bytes[7] < 0x80 {
        9
    } else if bytes[7] < 0xC0 {
        14
    } else {
        19
    }
}

/// Returns stream_id of the PES packet with these first bytes. Returns `None` if the bytes do not
/// begin with packet_start_code_prefix, 00 00 01, or are fewer than four.
pub fn stream_id_in(bytes: &[u8]) -> Option<u8> {
    if bytes.len() > 3 && bytes[0] == 0 && bytes[1] == 0 && bytes[2] == 1 {
        Some(bytes[3])
    } else {
        None
    }
}
