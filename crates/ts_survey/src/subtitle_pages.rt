//! Counts for each page of a PID the headers that have the subtitle bit set.
ghost use Rattle.std.specs.Prelude.{◌<◌};

use crate::text::Text;
use bitflags::Flags;
use std::alloc::Global;
use ttx_packet::{Control, Header, Packet};

/// The number of Teletext pages: eight magazines of 256 pages.
const PAGE_COUNT: usize = 2048;

/// The number of headers with the subtitle bit for each page of a PID.
#[derive(Drop)]
pub struct SubtitlePages {
    counts: Vec<u64>,
}

impl SubtitlePages {
    /// Creates the state before the first header. Returns `None` if memory runs out.
    pub fn new(alloc: Global) -> Option<SubtitlePages> {
        match vec![in alloc; 0u64; PAGE_COUNT] {
            Ok(counts) => Some(SubtitlePages { counts }),
            Err(_) => None,
        }
    }

    /// Counts a packet's header if the header has the subtitle bit C6 set, and prints a line at the
    /// first such header of a page.
    pub fn count(&mut self, packet: &Packet, header: &Header, pid: u16, text: &mut Text) {
        if !header.control.contains(Control::C6) {
            return;
        }
        let Some((magazine, _)) = packet.address() else {
            return;
        };
        let place = magazine as usize * 256 + header.page as usize;
        let before = increment_count_at(&mut self.counts, place);
        report_first(before, pid, magazine, header.page, text);
    }

    /// Prints how many headers with the subtitle bit were received for each page that had any.
    pub fn report(&self, pid: u16, text: &mut Text) {
        let counts = self.counts.as_slice();
        for place in 0..counts.len() {
            report_count_if_any(pid, place, counts[place], text);
        }
    }
}

// Adds one to the count at an index, and returns the count before. Returns `None` if the index is
// out of range.
fn increment_count_at(counts: &mut Vec<u64>, place: usize) -> Option<u64> {
    let count = counts.get_mut(place)?;
    let before = *count;
    *count = before.saturating_add(1);
    Some(before)
}

// Prints the line of a page at its first header with the subtitle bit.
fn report_first(before: Option<u64>, pid: u16, magazine: u8, page: u8, text: &mut Text)
    requires { magazine < 8 }
{
    if before == Some(0) {
        report_first_subtitle_header(pid, magazine, page, text);
    }
}

fn report_first_subtitle_header(pid: u16, magazine: u8, page: u8, text: &mut Text)
    requires { magazine < 8 }
{
    text.put(b"sub");
    text.number(pid as u64);
    text.page(magazine, page);
    text.put(b"\n");
}

// Prints how many headers with the subtitle bit were received for a page, unless the number is 0.
fn report_count_if_any(pid: u16, place: usize, count: u64, text: &mut Text) {
    if count == 0 {
        return;
    }
    report_subtitle_header_count(pid, place, count, text);
}

fn report_subtitle_header_count(pid: u16, place: usize, count: u64, text: &mut Text) {
    text.put(b"subs");
    text.number(pid as u64);
    text.page((place / 256 % 8) as u8, (place % 256) as u8);
    text.number(count);
    text.put(b"\n");
}
