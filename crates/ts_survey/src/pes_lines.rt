//! Prints the lines of the PES packets of a PID: gap markers, the pages with subtitles, and the
//! lines of each requested page.
ghost use Rattle.std.specs.Prelude.{◌≡◌, IfSome};
ghost use Rattle.ts_survey.specs.InStep.{saturating_count};

use crate::adaptation::pts_of_pes_packet;
use crate::page_lines::PageLines;
use crate::subtitle_pages::SubtitlePages;
use crate::text::Text;
use crate::units::{following, unit_of, units_of};
use mpeg_ts::SurveyPages;
use std::alloc::Global;
use sub_io::MemSource;
use ttx_packet::{Header, Packet, SentPacket};
use ttx_pes::{PesFrame, PesReader};

/// The state of printing the PES packets of a PID.
#[derive(Drop)]
pub struct PesLines {
    pid: u16,
    pages: Vec<PageLines>,
    subtitle_pages: SubtitlePages,
    frame: PesFrame,
    count: u64,
    gap_markers: u64,
    // The PTS of the last PES packet that has a PTS.
    last: Option<u64>,
}

// Returns the number of the fault of a PES packet; 0 if it has no fault.
fn refusal(pes: &[u8], frame: &mut PesFrame) -> u16 {
    let mut source = MemSource::new(pes);
    let mut reader = PesReader::new();
    match reader.next_into(&mut source, frame) {
        Ok(_) => 0,
        Err(fault) => u16::from(fault.code().number()),
    }
}

// Creates the state of each requested page. Returns `None` if memory runs out.
fn new_pages(alloc: Global, pid: u16, requested: &SurveyPages) -> Option<Vec<PageLines>> {
    let mut pages = Vec::new(alloc);
    for page in requested {
        if let Some(page) = page {
            if pages.push(PageLines::new(pid, *page)).is_err() {
                return None;
            }
        }
    }
    Some(pages)
}

impl PesLines {
    /// Creates the state before the first PES packet. Returns `None` if memory runs out.
    pub fn new(alloc: Global, pid: u16, pages: &SurveyPages) -> Option<PesLines>
        ensures { IfSome result (λ lines. lines.count ≡ 0) }
    {
        let pages = new_pages(alloc, pid, pages)?;
        let subtitle_pages = SubtitlePages::new(alloc)?;
        Some(PesLines {
            pid,
            pages,
            subtitle_pages,
            frame: PesFrame::new(0),
            count: 0,
            gap_markers: 0,
            last: None,
        })
    }

    /// Returns the number of PES packets and gap markers so far.
    pub fn count(&self) -> u64
        ensures { result ≡ self.now.count }
    {
        self.count
    }

    /// Returns the number of gap markers so far.
    pub fn gap_markers(&self) -> u64 {
        self.gap_markers
    }

    /// Returns the PTS of the last PES packet that has a PTS.
    pub fn last(&self) -> Option<u64> {
        self.last
    }

    /// Processes a PES packet of the PID.
    pub fn take(&mut self, pes: &[u8], text: &mut Text)
        ensures { self.new.count ≡ saturating_count self.old.count 1 }
    {
        let pts = pts_of_pes_packet(pes);
        let fault = refusal(pes, &mut self.frame);
        begin_packet(&mut self.pages, fault, pts.is_some());
        if pts.is_some() {
            self.hear(pes, text);
        }
        end_packet(&mut self.pages, self.count, pts, text);
        self.count = self.count.saturating_add(1);
        self.last = pts.or(self.last);
    }

    // Passes the Teletext packets of a PES packet to the receivers of all pages.
    fn hear(&mut self, pes: &[u8], text: &mut Text)
        ensures { self.new.count ≡ self.old.count }
    {
        let mut rest = units_of(pes);
        'units: for _ in 0..pes.len() {
            let Some(unit) = unit_of(rest) else {
                break;
            };
            self.hear_unit(unit.packet, text);
            rest = following(rest, unit.size);
        }
    }

    // Passes the Teletext packet of a data unit to the receivers, if the data unit carries one.
    fn hear_unit(&mut self, sent: Option<&[u8; 42]>, text: &mut Text)
        ensures { self.new.count ≡ self.old.count }
    {
        match sent {
            None => {}
            Some(bytes) => {
                let packet = SentPacket::new(bytes).packet();
                let header = hear_packet(&mut self.pages, &packet, text);
                if let Some(header) = header {
                    self.subtitle_pages.count(&packet, &header, self.pid, text);
                }
            }
        }
    }

    /// Prints the runs of PES packets, if any, and ends them.
    pub fn flush(&mut self, text: &mut Text)
        ensures { self.new.count ≡ self.old.count }
    {
        flush_pages(&mut self.pages, text);
    }

    /// Prints an announced jump of the counter before the next PES packet or gap marker.
    pub fn report_seam(&self, text: &mut Text) {
        text.put(b"seam");
        text.number(self.pid as u64);
        text.number(self.count);
        text.put(b"\n");
    }

    /// Prints and ends the runs of PES packets, if any, and prints a gap marker with the numbers of
    /// lost and of scrambled packets.
    pub fn gap_marker(&mut self, lost: u64, scrambled: u64, text: &mut Text)
        ensures { self.new.count ≡ saturating_count self.old.count 1 }
    {
        self.flush(text);
        report_gap(self.pid, self.count, lost, scrambled, text);
        self.count = self.count.saturating_add(1);
        self.gap_markers = self.gap_markers.saturating_add(1);
    }

    /// Ends the PES packets: prints the runs, if any, and the pages with subtitles.
    pub fn end(&self, text: &mut Text) {
        self.report_runs(text);
        self.subtitle_pages.report(self.pid, text);
    }

    /// Ends the PES packets with a pending gap marker, which has the numbers of lost and of
    /// scrambled packets.
    pub fn end_at_gap_marker(&self, lost: u64, scrambled: u64, text: &mut Text) {
        self.report_runs(text);
        report_gap(self.pid, self.count, lost, scrambled, text);
        self.subtitle_pages.report(self.pid, text);
    }

    // Prints the runs of PES packets, if any.
    fn report_runs(&self, text: &mut Text) {
        for page in self.pages.iter() {
            page.report_run(text);
        }
    }
}

// Begins the next PES packet for all pages.
fn begin_packet(pages: &mut Vec<PageLines>, fault: u16, has_pts: bool) {
    for page in pages.iter_mut() {
        page.begin(fault, has_pts);
    }
}

// Passes a Teletext packet to the receivers of all pages. Returns the packet's header, which may be
// of any page. Returns `None` if no header can be decoded or if no page is followed.
fn hear_packet(pages: &mut Vec<PageLines>, packet: &Packet, text: &mut Text) -> Option<Header> {
    let mut header = None;
    for page in pages.iter_mut() {
        header = page.hear(packet, text);
    }
    header
}

// Ends a PES packet for all pages.
fn end_packet(pages: &mut Vec<PageLines>, number: u64, pts: Option<u64>, text: &mut Text) {
    for page in pages.iter_mut() {
        page.end(number, pts, text);
    }
}

// Prints the runs of all pages, and ends them.
fn flush_pages(pages: &mut Vec<PageLines>, text: &mut Text) {
    for page in pages.iter_mut() {
        page.flush(text);
    }
}

// Prints the line of a gap marker.
fn report_gap(pid: u16, number: u64, lost: u64, scrambled: u64, text: &mut Text) {
    text.put(b"gap");
    text.number(pid as u64);
    text.number(number);
    text.number(lost);
    text.number(scrambled);
    text.put(b"\n");
}
