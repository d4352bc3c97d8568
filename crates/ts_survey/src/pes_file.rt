//! Reads a file of PES packets for `survey`.
ghost use Rattle.std.specs.Prelude.{◌≡◌, ◌≤◌, ◌<◌, ◌+◌, IfNone, IfSome, false};
ghost use Rattle.std.specs.Prelude.{length};
ghost use Rattle.ttx_pes.specs.Reading as reading;
ghost use Rattle.ts_survey.specs.FilePesPackets as pes_packets;
ghost use Rattle.ts_survey.specs.FilePesPackets.{CountsPesPackets};
ghost use Rattle.ts_survey.specs.InStep.{saturating_count};
ghost use Rattle.ts_survey.specs.ReadBuffer.{max_retained_bytes};

use crate::pes_lines::PesLines;
use crate::text::Text;
use mpeg_ts::SurveyPages;
use std::alloc::Global;
use ttx_pes::is_gap_marker;

/// The state of reading a file of PES packets.
#[derive(Drop)]
pub struct PesFile {
    lines: PesLines,
    is_damaged: bool,
}

// Returns whether the bytes, six or more, begin like a PES packet of private_stream_1.
fn is_start(bytes: &[u8]) -> bool
    requires { 6 ≤ length bytes.now }
    ensures { result ≡ reading.is_start bytes.now }
{
    bytes[0] == 0 && bytes[1] == 0 && bytes[2] == 1 && bytes[3] == 0xBD
}

// Returns whether there are at least six bytes that do not begin with 00 00 01 BD, as a PES packet
// of private_stream_1 does.
fn has_wrong_start_code(bytes: &[u8]) -> bool
    ensures { result ≡ pes_packets.has_wrong_start_code bytes.now }
{
    bytes.len() >= 6 && !is_start(bytes)
}

// Returns the size in bytes of the complete PES packet at the front of the bytes, from its length
// field. Returns `None` if the bytes begin with no complete PES packet.
#[tactic(auto, unfolding(crate::specs::FilePesPackets::complete_packet_size))]
fn complete_packet_size(bytes: &[u8]) -> Option<usize>
    ensures value { result ≡ pes_packets.complete_packet_size bytes.now }
    ensures some { IfSome result (λ size. (6 ≤ size) × (size ≤ length bytes.now)) }
    ensures unfinished { IfNone result (pes_packets.has_wrong_start_code bytes.now ≡ false
        → length bytes.now < max_retained_bytes) }
{
    if bytes.len() < 6 {
        return None;
    }
    if !is_start(bytes) {
        return None;
    }
    let size = 0x100 * bytes[4] as usize + bytes[5] as usize + 6;
    if bytes.len() < size {
        return None;
    }
    Some(size)
}

impl PesFile {
    /// Creates the state before the first PES packet. Returns `None` if memory runs out.
    pub fn new(alloc: Global, pages: &SurveyPages) -> Option<PesFile> {
        let lines = PesLines::new(alloc, 0, pages)?;
        Some(PesFile {
            lines,
            is_damaged: false,
        })
    }

    /// Processes the PES packets in the bytes, and returns how many bytes are no longer needed.
    pub fn take(&mut self, bytes: &[u8], is_end: bool, text: &mut Text) -> usize
        ensures within { result ≤ length bytes.now }
        ensures kept { length bytes.now ≤ result + max_retained_bytes }
    {
        if self.is_damaged {
            return bytes.len();
        }
        let rest = self.take_complete(bytes, text);
        if has_wrong_start_code(rest) {
            self.report_damage(b" start\n", text);
            return bytes.len();
        }
        self.report_damage_at_end(rest, is_end, text);
        bytes.len() - rest.len()
    }

    // Prints that the rest of the file cannot be read, if bytes are left at its end.
    fn report_damage_at_end(&mut self, rest: &[u8], is_end: bool, text: &mut Text) {
        if is_end && !rest.is_empty() {
            self.report_damage(b" cut\n", text);
        }
    }

    // Processes the complete PES packets at the front of the bytes, and returns the remaining
    // bytes.
    #[tactic(auto, using(crate::proofs::FilePesPacketsLemmas::counted_one_by_one))]
    fn take_complete<'a>(&mut self, bytes: &'a [u8], text: &mut Text) -> &'a [u8]
        ensures unfinished { pes_packets.has_wrong_start_code result.now ≡ false
            → length result.now < max_retained_bytes }
        ensures within { length result.now ≤ length bytes.now }
        // The PES packets of the file are counted in order, each once.
        ensures taken { CountsPesPackets self.old.lines.count bytes.now result.now
            self.new.lines.count }
    {
        let mut rest = bytes;
        for _ in 0..bytes.len() {
            let Some(size) = complete_packet_size(rest) else {
                break;
            };
            let (pes_packet, more) = rest.split_at(size);
            self.take_pes_packet(pes_packet, text);
            rest = more;
        }
        rest
    }

    // Processes a PES packet, or a gap marker.
    fn take_pes_packet(&mut self, pes_packet: &[u8], text: &mut Text)
        ensures { self.new.lines.count ≡ saturating_count self.old.lines.count 1 }
    {
        if is_gap_marker(pes_packet) {
            self.lines.gap_marker(0, 0, text);
            return;
        }
        self.lines.take(pes_packet, text);
    }

    // Prints that the rest of the file cannot be read.
    fn report_damage(&mut self, why: &[u8], text: &mut Text) {
        self.is_damaged = true;
        self.lines.flush(text);
        text.put(b"damaged 0");
        text.number(self.lines.count());
        text.put(why);
    }

    /// Prints all pending lines, since no more data is available for now.
    pub fn flush(&mut self, text: &mut Text) {
        self.lines.flush(text);
    }

    /// Ends the file: prints all remaining lines except `over`.
    pub fn end(&self, text: &mut Text) {
        self.lines.end(text);
        self.report_end(text);
    }

    // Prints the line `end`: 0 for the PID, the number of PES packets and gap markers, that of gap
    // markers, four zeros for values that a file does not have, and the last PTS.
    fn report_end(&self, text: &mut Text) {
        text.put(b"end 0");
        text.number(self.lines.count());
        text.number(self.lines.gap_markers());
        text.put(b" 0 0 0 0");
        text.time(self.lines.last());
        text.put(b"\n");
    }
}
