//! Receives the data in the transport packets of a PID: PES packets, gap markers, and bytes that
//! are neither.

use crate::pes_lines::PesLines;
use crate::pid_packets::TakesPesPackets;
use crate::text::Text;
use ttx_pes::{decode_packet_size, is_gap_marker};

/// The state of receiving the data of a PID.
#[derive(Drop)]
pub struct Given {
    lines: PesLines,
    // Whether a gap marker was the last data received, and whether one was the last data received
    // before the last transport packet or came with it.
    is_after_gap: bool,
    is_broken: bool,
    // Since the last PES packet or gap marker that the PID carries: whether a gap marker for
    // missing packets is pending, and the numbers of packets that were lost or scrambled.
    has_gap_marker: bool,
    lost: u64,
    scrambled: u64,
    // Whether a jump of the counter was announced since then, and no loss of data is known there.
    has_seam: bool,
    // Whether the PES packet that began last in a usable transport packet is incomplete, was
    // refused, or began after a refusal.
    is_cut: bool,
    // The number of the fault after which nothing more is received; 0 if no fault was found.
    refusal: u16,
}

impl Given {
    /// Creates the state before the first packet of a PID.
    pub fn new(lines: PesLines) -> Given {
        Given {
            lines,
            is_after_gap: false,
            is_broken: false,
            has_gap_marker: false,
            lost: 0,
            scrambled: 0,
            has_seam: false,
            is_cut: false,
            refusal: 0,
        }
    }

    /// Adds to the number of lost packets.
    pub fn add_lost_packets(&mut self, count: u64) {
        self.lost = self.lost.saturating_add(count);
    }

    /// Records an announced jump of the counter before a packet, if `is_seam` is set.
    pub fn note_seam(&mut self, is_seam: bool) {
        self.has_seam = self.has_seam || is_seam;
    }

    /// Records that a PES packet begins in a transport packet, if `begins` is set.
    pub fn note_begin(&mut self, begins: bool) {
        self.is_cut = self.is_cut || begins;
    }

    /// Returns whether the PES packet that began last in a usable transport packet is incomplete,
    /// was refused, or began after a refusal.
    pub fn is_cut(&self) -> bool {
        self.is_cut
    }

    /// Counts a scrambled transport packet of the PID.
    pub fn count_scrambled_packet(&mut self) {
        self.scrambled = self.scrambled.saturating_add(1);
    }

    /// Returns the number of the fault after which nothing more is received; 0 if no fault was
    /// found.
    pub fn refusal(&self) -> u16 {
        self.refusal
    }

    /// Begins the next transport packet.
    pub fn begin_packet(&mut self) {
        self.is_broken = self.is_after_gap;
    }

    /// Returns whether a gap marker was the last data received before the last transport packet, or
    /// came with it.
    pub fn is_broken(&self) -> bool {
        self.is_broken
    }

    // Prints a pending gap marker, if any.
    fn report_gap_marker(&mut self, text: &mut Text) {
        if !self.has_gap_marker {
            return;
        }
        self.has_gap_marker = false;
        self.lines.gap_marker(self.lost, self.scrambled, text);
    }

    // Prints an announced jump of the counter before a PES packet or gap marker, if there is one.
    fn report_seam(&mut self, text: &mut Text) {
        if !self.has_seam {
            return;
        }
        self.has_seam = false;
        self.lines.report_seam(text);
    }

    // Processes a gap marker for missing packets, which stays pending until other data is received,
    // or to the end of the recording.
    fn take_missing_packets(&mut self) {
        self.has_gap_marker = true;
        self.is_after_gap = true;
        self.is_broken = true;
    }

    // Processes a PES packet, or a gap marker that the PID itself carries. Prints a pending gap
    // marker before it.
    fn take_pes_or_gap_marker(&mut self, pes_packet: &[u8], text: &mut Text) {
        self.report_gap_marker(text);
        self.is_cut = false;
        self.is_after_gap = is_gap_marker(pes_packet);
        self.is_broken = self.is_broken || self.is_after_gap;
        self.report_seam(text);
        if self.is_after_gap {
            self.lines.gap_marker(0, 0, text);
        } else {
            self.lines.take(pes_packet, text);
        }
        self.lost = 0;
        self.scrambled = 0;
    }

    /// Prints the pending lines of PES packets.
    pub fn flush(&mut self, text: &mut Text) {
        self.lines.flush(text);
    }

    /// Ends the recording: prints the remaining lines about the data of the PID.
    pub fn end(&self, text: &mut Text) {
        if self.has_gap_marker {
            self.lines
                .end_at_gap_marker(self.lost, self.scrambled, text);
        } else {
            self.lines.end(text);
        }
    }

    /// Returns the number of PES packets and gap markers, including a pending gap marker.
    pub fn count(&self) -> u64 {
        self.lines
            .count()
            .saturating_add(self.has_gap_marker as u64)
    }

    /// Returns the number of gap markers, including a pending gap marker.
    pub fn gap_markers(&self) -> u64 {
        self.lines
            .gap_markers()
            .saturating_add(self.has_gap_marker as u64)
    }
}

impl TakesPesPackets for Given {
    /// Processes a PES packet, a gap marker, or other bytes, after which nothing more is received.
    fn take(&mut self, pes_packet: &[u8], is_missing: bool, text: &mut Text) {
        if is_missing {
            self.take_missing_packets();
            return;
        }
        match fault_number_of(pes_packet) {
            Some(number) => {
                self.refusal = number;
                self.is_after_gap = false;
                self.report_gap_marker(text);
            }
            None => self.take_pes_or_gap_marker(pes_packet, text),
        }
    }
}

// Returns the number of the fault if the start code or the length of a PES packet is not that of a
// PES packet with Teletext (EN 300 472). Returns `None` if both are correct, as in a gap marker,
// and if there are too few bytes to decide.
fn fault_number_of(bytes: &[u8]) -> Option<u16> {
    let head = bytes.first_chunk()?;
    match decode_packet_size(head) {
        Ok(_) => None,
        Err(fault) => Some(u16::from(fault.code().number())),
    }
}
