//! The tables of a recording: joins sections from packets, and finds those that are new.
ghost use Rattle.std.specs.Prelude.{◌≤◌, IfSome};
ghost use Rattle.std.specs.Prelude.{length};

use crate::section::{SectionName, crc_of, is_current, section_name_of, section_size};
use arrayvec::ArrayVec;
use mpeg_ts::{PACKET, begins};
use std::alloc::Global;

/// The maximum number of PIDs with tables that are read, and of known sections.
const MAX_TABLE_PIDS: usize = 128;

const MAX_KNOWN_SECTIONS: usize = 1024;

/// The size in bytes of a buffer for the longest section and one more payload.
pub const SECTION_CAPACITY: usize = 4288;

/// A buffer for the bytes of sections.
pub type Section = ArrayVec<u8, SECTION_CAPACITY>;

/// The sections of a PID, as far as they have been received.
#[derive(Drop)]
struct PartialSections {
    is_open: bool,
    bytes: Section,
}

/// The name and the CRC_32 of a section that was stored.
#[derive(Clone, Copy)]
struct KnownSection {
    name: SectionName,
    crc: [u8; 4],
}

/// The state of all tables of a recording.
#[derive(Drop)]
pub struct Tables {
    partial_sections: Vec<PartialSections>,
    known: Vec<KnownSection>,
}

impl PartialSections {
    // Begins a section, and drops the bytes received before.
    fn open(&mut self) {
        self.is_open = true;
        self.bytes.clear();
    }

    // Appends bytes to those received before, if a section has begun and the bytes fit.
    fn add(&mut self, bytes: &[u8]) {
        if self.is_open {
            append_to_section(&mut self.bytes, bytes);
        }
    }

    // Moves the next complete section into `buffer`, and returns whether one was complete.
    fn next(&mut self, buffer: &mut Section) -> bool {
        match next_section_size(self.bytes.as_slice()) {
            Some(size) => {
                move_section_out(&mut self.bytes, size, buffer);
                true
            }
            None => {
                self.end_at_stuffing();
                false
            }
        }
    }

    // Ends the sections of a payload if `has_stuffing` finds that the next byte is stuffing.
    fn end_at_stuffing(&mut self) {
        if has_stuffing(self.bytes.as_slice()) {
            self.is_open = false;
            self.bytes.clear();
        }
    }
}

// Appends bytes, if they fit.
fn append_to_section(received: &mut Section, bytes: &[u8]) {
    if bytes.len() > SECTION_CAPACITY - received.len() {
        return;
    }
    let _ = received.try_extend_from_slice(bytes);
}

// Returns whether the next byte is stuffing, FF in place of a table_id, and at least three bytes
// were received.
fn has_stuffing(received: &[u8]) -> bool {
    received.len() >= 3 && received[0] == 0xFF
}

// Returns the size in bytes of the next section, if it is complete.
fn next_section_size(received: &[u8]) -> Option<usize>
    ensures { IfSome result (λ size. size ≤ length received.now) }
{
    if has_stuffing(received) {
        return None;
    }
    let size = section_size(received)?;
    if received.len() < size {
        return None;
    }
    Some(size)
}

// Moves the first `size` bytes into `buffer`.
fn move_section_out(received: &mut Section, size: usize, buffer: &mut Section)
    requires { size ≤ length received.old.items }
{
    let (section, _) = received.as_slice().split_at(size);
    buffer.clear();
    let _ = buffer.try_extend_from_slice(section);
    let len = received.len();
    received.as_mut_slice().copy_within(size..len, 0);
    received.truncate(len - size);
}

impl Tables {
    /// Creates the state before the first section.
    pub fn new(alloc: Global) -> Tables {
        Tables {
            partial_sections: Vec::new(alloc),
            known: Vec::new(alloc),
        }
    }

    /// Makes room for the sections of one more PID, and returns its index. Returns `None` if no
    /// room is left or memory runs out.
    pub fn add(&mut self) -> Option<u8> {
        let place = self.partial_sections.as_slice().len();
        if place >= MAX_TABLE_PIDS {
            return None;
        }
        let partial_section = PartialSections {
            is_open: false,
            bytes: ArrayVec::new(),
        };
        match self.partial_sections.push(partial_section) {
            Ok(()) => Some(place as u8),
            Err(_) => None,
        }
    }

    /// Appends bytes of a PID to those received before or, if `begins` is set, begins a section
    /// with them. Drops the bytes if no section has begun or there is no room for them.
    pub fn take(&mut self, place: u8, bytes: &[u8], begins: bool) {
        let Some(partial_section) = self.partial_sections.get_mut(place as usize) else {
            return;
        };
        if begins {
            partial_section.open();
        }
        partial_section.add(bytes);
    }

    /// Moves the next complete section of a PID into `buffer`, and returns whether one was
    /// complete.
    pub fn next(&mut self, place: u8, buffer: &mut Section) -> bool {
        match self.partial_sections.get_mut(place as usize) {
            Some(partial_section) => partial_section.next(buffer),
            None => false,
        }
    }

    /// Stores the name and the CRC_32 of a complete section if the section has a name, is new,
    /// current (current_next_indicator) and correct by its CRC_32, and if there is room and memory.
    /// Returns whether they were stored.
    pub fn store_if_new(&mut self, section: &[u8]) -> bool {
        let Some(name) = section_name_of(section) else {
            return false;
        };
        let Some(crc) = section.last_chunk::<4>() else {
            return false;
        };
        if is_known_section(self.known.as_slice(), name, crc) {
            return false;
        }
        if !is_current(section) || crc_of(section) != 0 {
            return false;
        }
        let was_known = has_section_named(self.known.as_slice(), name);
        self.keep(name, *crc, was_known)
    }

    // Stores the name and the CRC_32 of a section, in place of those of a section with this name,
    // if one is known. Returns whether they were stored.
    fn keep(&mut self, name: SectionName, crc: [u8; 4], was_known: bool) -> bool {
        if was_known {
            self.replace(name, crc);
            return true;
        }
        if self.known.len() >= MAX_KNOWN_SECTIONS {
            return false;
        }
        self.known.push(KnownSection { name, crc }).is_ok()
    }

    // Replaces the CRC_32 of the stored section with this name.
    fn replace(&mut self, name: SectionName, crc: [u8; 4]) {
        for section in self.known.iter_mut() {
            set_crc(section, name, crc);
        }
    }
}

// Sets the CRC_32 of a known section if it has this name.
fn set_crc(one: &mut KnownSection, name: SectionName, crc: [u8; 4]) {
    if is_same_name(one.name, name) {
        one.crc = crc;
    }
}

// Returns whether two sections have the same name.
fn is_same_name(one: SectionName, other: SectionName) -> bool {
    one.table == other.table && one.number == other.number && one.section == other.section
}

// Returns whether a section with this name is known.
fn has_section_named(known: &[KnownSection], name: SectionName) -> bool {
    known.iter().any(|one| is_same_name(one.name, name))
}

// Returns whether a section with this name and CRC_32 is known.
fn is_known_section(known: &[KnownSection], name: SectionName, crc: &[u8; 4]) -> bool {
    known
        .iter()
        .any(|one| is_same_name(one.name, name) && one.crc == *crc)
}

/// Splits a payload with sections by its pointer_field (ISO/IEC 13818-1). Returns the bytes of
/// sections that began in earlier payloads, and the sections that begin in this payload, if any.
pub fn split_at_pointer_field<'a>(
    packet: &[u8; PACKET],
    payload: &'a [u8],
) -> (&'a [u8], Option<&'a [u8]>) {
    if !begins(packet) || payload.is_empty() {
        return (payload, None);
    }
    let (pointer, rest) = payload.split_at(1);
    let (before, following) = split_at_length(rest, pointer[0]);
    (before, Some(following))
}

// Splits the bytes at an offset, or at their end if the offset is beyond it.
fn split_at_length(bytes: &[u8], place: u8) -> (&[u8], &[u8]) {
    bytes.split_at((place as usize).min(bytes.len()))
}
