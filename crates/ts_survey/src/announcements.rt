//! Prints the contents of a PMT: its programme, its streams, and the Teletext pages that the
//! streams announce.
ghost use Rattle.std.specs.Prelude.{◌≤◌, length};

use crate::section::{
    Announced, Descriptor, Programme, Stream, descriptor_at, names_pages, page_at,
};
use crate::text::Text;

/// Prints the line of a programme.
pub fn report_programme(programme: &Programme, text: &mut Text) {
    text.put(b"programme");
    text.number(programme.number as u64);
    text.number(programme.clock_pid as u64);
    text.put(b"\n");
}

/// Prints the line of a stream of a programme.
pub fn report_stream(stream: &Stream, text: &mut Text) {
    text.put(b"stream");
    text.number(stream.pid as u64);
    text.number(stream.kind as u64);
    text.put(b"\n");
}

/// Prints the Teletext pages that a stream announces, and returns whether it announces any. A
/// section has at most 4,098 bytes.
pub fn report_pages(section: &[u8], stream: &Stream, text: &mut Text) -> bool {
    let end = stream.end.min(section.len());
    let mut has_reported_pages = false;
    let mut place = stream.first;
    for _ in 0..2048u32 {
        let Some(descriptor) = descriptor_at(section, place.min(0xFFFF), end) else {
            return has_reported_pages;
        };
        let has_named_pages = report_named(section, &descriptor, stream.pid, text);
        has_reported_pages = has_reported_pages || has_named_pages;
        place = descriptor.end;
    }
    has_reported_pages
}

// Prints the Teletext pages of a descriptor, and returns whether it has any.
fn report_named(section: &[u8], descriptor: &Descriptor, pid: u16, text: &mut Text) -> bool
    requires { descriptor.now.end ≤ length section.now }
{
    if !names_pages(descriptor) {
        return false;
    }
    report_pages_from(section, descriptor.first, descriptor.end, pid, text)
}

// Prints the Teletext pages between two offsets of a section, and returns whether any were found.
fn report_pages_from(section: &[u8], first: usize, end: usize, pid: u16, text: &mut Text) -> bool
    requires { end ≤ length section.now }
{
    let mut has_reported_pages = false;
    let mut at = first;
    for _ in 0..64u32 {
        let Some(page) = page_at(section, at.min(0xFFFF), end) else {
            return has_reported_pages;
        };
        has_reported_pages = true;
        report_page(pid, &page, text);
        at = at.saturating_add(5);
    }
    has_reported_pages
}

// Prints the line of an announced Teletext page.
fn report_page(pid: u16, page: &Announced, text: &mut Text) {
    text.put(b"announce");
    text.number(pid as u64);
    text.page(page.magazine % 8, page.page);
    text.put(b" ");
    text.hex(&page.language);
    text.number(page.kind as u64);
    text.put(b"\n");
}
