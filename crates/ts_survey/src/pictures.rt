//! Reports the first group of pictures of a video PID, from one random access point to the next,
//! the decoding time of the last picture, and the steps between decoding times.

use crate::adaptation::{has_random_access_indicator, is_scrambled, payload_if_usable};
use crate::clock::CLOCK_TICKS_PER_SECOND;
use crate::lead::Picture;
use crate::pes_header::PesHeader;
use crate::picture_forms::{Form, FormReader};
use crate::pid_state::PacketLink;
use crate::steps::Steps;
use crate::text::{CLOCK_PERIOD, Text, forward_distance};
use mpeg_ts::{PACKET, announces_jump, begins, has_adaptation_field, has_payload, is_unusable};

/// How much of the first group of pictures has been received.
#[derive(Clone, Copy, PartialEq, Eq)]
enum GroupProgress {
    /// No random access point has been received.
    Before,
    /// The first random access point has been received, and the second has not.
    Within,
    /// The second random access point has been received, or more than ten seconds have passed.
    Finished,
}

/// The pictures of a video PID.
#[derive(Drop)]
pub struct Pictures {
    pid: u16,
    group_progress: GroupProgress,
    // Whether every packet of the PID is needed, not only packets in which a PES packet begins.
    needs_every_packet: bool,
    // The last packet that was processed, and whether a repeat of it was received.
    packet: [u8; PACKET],
    has_repeat: bool,
    // The header of the PES packet that began last, whether random_access_indicator was set for it,
    // and whether a packet without a payload has set that indicator for the next PES packet.
    header: PesHeader,
    is_flagged: bool,
    flags_next: bool,
    // The number of pictures that began, the last picture with a decoding time, and the steps
    // between decoding times.
    count: u64,
    last: Option<Picture>,
    steps: Steps,
    // Whether the PES packet that began last is the picture at the random access point, and how
    // many more bytes of its PES header are skipped before the bytes of the picture.
    is_first: bool,
    header_bytes_left: usize,
    skipped_before: u64,
    lost: u64,
    scrambled: u64,
    // The PTS of the picture at the random access point, the least PTS of the group, and the reader
    // that determines the form of the group.
    flagged_pts: Option<u64>,
    first: Option<u64>,
    reader: FormReader,
}

impl Pictures {
    /// Creates the state of a PID before its first picture.
    pub fn new(pid: u16) -> Pictures {
        Pictures {
            pid,
            group_progress: GroupProgress::Before,
            needs_every_packet: true,
            packet: [0; PACKET],
            has_repeat: false,
            header: PesHeader::new(),
            is_flagged: false,
            flags_next: false,
            count: 0,
            last: None,
            steps: Steps::new(),
            is_first: false,
            header_bytes_left: 0,
            skipped_before: 0,
            lost: 0,
            scrambled: 0,
            flagged_pts: None,
            first: None,
            reader: FormReader::new(0),
        }
    }

    /// Returns the PID of the pictures.
    pub fn pid(&self) -> u16 {
        self.pid
    }

    /// Returns the last picture that has a decoding time.
    pub fn last(&self) -> Option<Picture> {
        self.last
    }

    /// Returns whether every packet of the PID is needed. After the first group of pictures, only
    /// the headers of PES packets are needed.
    #[inline(always)]
    pub fn needs_every_packet(&self) -> bool {
        self.needs_every_packet
    }

    /// Processes a packet of the PID. `kind` is the stream_type of the PID in the PMT.
    pub fn take(&mut self, packet: &[u8; PACKET], kind: u8, link: PacketLink, text: &mut Text) {
        if packet[1] >= 0x80 {
            return;
        }
        if has_payload(packet) {
            self.take_unless_repeat(packet, kind, link, text);
        } else if has_random_access_indicator(packet) {
            self.flags_next = true;
        }
    }

    // Processes a packet with a payload, which may be a repeat.
    fn take_unless_repeat(
        &mut self,
        packet: &[u8; PACKET],
        kind: u8,
        link: PacketLink,
        text: &mut Text,
    ) {
        if self.is_repeat(packet, link) {
            self.has_repeat = true;
            return;
        }
        self.packet = *packet;
        self.has_repeat = false;
        self.count_breaks_and_scrambled(packet, link);
        self.go_on(packet, kind, link, text);
        self.needs_every_packet = !is_finished(self.group_progress) || self.header.is_open();
    }

    // Returns whether a packet is the first repeat of the last packet.
    fn is_repeat(&self, packet: &[u8; PACKET], link: PacketLink) -> bool {
        match link {
            PacketLink::Same => {}
            _ => return false,
        }
        let (old_header, _) = self.packet.split_at(4);
        let (header, _) = packet.split_at(4);
        !self.has_repeat
            && (!announces_jump(packet) || announces_jump(&self.packet))
            && header == old_header
            && bytes_after_adaptation(packet) == bytes_after_adaptation(&self.packet)
    }

    // Counts breaks of the counter and scrambled packets in the first group of pictures.
    fn count_breaks_and_scrambled(&mut self, packet: &[u8; PACKET], link: PacketLink) {
        match self.group_progress {
            GroupProgress::Within => {
                self.lost = increment_if(is_after_loss(packet, link), self.lost);
                self.scrambled = increment_if(is_scrambled(packet), self.scrambled);
            }
            _ => {}
        }
    }

    // Processes a packet that continues a picture or begins one.
    fn go_on(&mut self, packet: &[u8; PACKET], kind: u8, link: PacketLink, text: &mut Text) {
        if begins(packet) {
            self.is_flagged = self.flags_next || has_random_access_indicator(packet);
            self.flags_next = false;
            self.is_first = false;
        }
        if is_unusable(packet) {
            self.process_unreadable_packet(packet, kind, text);
        } else {
            self.read_payload(packet, kind, link, text);
        }
    }

    // Processes a payload that cannot be read. A scrambled payload in which a PES packet begins
    // counts as a picture without a PTS.
    fn process_unreadable_packet(&mut self, packet: &[u8; PACKET], kind: u8, text: &mut Text) {
        self.header.clear();
        self.header_bytes_left = 0;
        if begins(packet) && is_scrambled(packet) {
            self.begin_picture(kind, text);
        }
    }

    // Reads the payload of a packet: the header of its PES packet, and the bytes of the picture. A
    // picture begins once the header of a PES packet of video is complete.
    fn read_payload(&mut self, packet: &[u8; PACKET], kind: u8, link: PacketLink, text: &mut Text) {
        let payload = payload_if_usable(packet);
        let before = if begins(packet) { 0 } else { self.header.len() };
        if self.header.take(payload, begins(packet), follows(link)) {
            if !is_video(self.header.stream_id()) {
                return;
            }
            self.header_bytes_left = self.header.size().saturating_sub(before);
            self.begin_picture(kind, text);
        }
        self.read_picture(payload);
    }

    // Records that a picture begins.
    fn begin_picture(&mut self, kind: u8, text: &mut Text) {
        self.count = self.count.saturating_add(1);
        if let Some(time) = self.header.decoding_time() {
            self.record_decoding_time(time, text);
        }
        match self.group_progress {
            GroupProgress::Before => {
                if self.is_flagged {
                    self.begin(kind, text);
                } else {
                    self.skipped_before = self.skipped_before.saturating_add(1);
                }
            }
            GroupProgress::Within => {
                if self.is_flagged {
                    self.close(text);
                } else {
                    self.show(text);
                }
            }
            GroupProgress::Finished => {}
        }
    }

    // Records the decoding time of the picture that has begun.
    fn record_decoding_time(&mut self, time: u64, text: &mut Text) {
        let before = match self.last {
            Some(picture) => Some(picture.time),
            None => None,
        };
        self.steps.take(self.pid, before, time, self.count, text);
        self.last = Some(Picture {
            video: self.pid,
            time,
            number: self.count,
        });
    }

    // Reads more bytes of the picture at the random access point, unless another picture has begun.
    fn read_picture(&mut self, payload: &[u8]) {
        if !self.is_first {
            return;
        }
        let (header, picture) = payload.split_at(payload.len().min(self.header_bytes_left));
        self.header_bytes_left -= header.len();
        self.reader.read(picture);
    }

    // Begins the first group of pictures, and prints the lines `video` and `picture`.
    fn begin(&mut self, kind: u8, text: &mut Text) {
        self.report_video(text);
        self.show(text);
        self.flagged_pts = self.header.pts();
        self.reader = FormReader::new(kind);
        self.is_first = true;
    }

    fn report_video(&self, text: &mut Text) {
        text.put(b"video");
        text.number(self.pid as u64);
        text.number(self.skipped_before);
        text.put(b"\n");
    }

    // Records a picture of the first group, and prints its line.
    fn show(&mut self, text: &mut Text) {
        self.group_progress = GroupProgress::Within;
        let pts = self.header.pts();
        self.report_picture(pts, text);
        if let Some(now) = pts {
            self.note_group_pts(now, text);
        }
    }

    fn report_picture(&self, pts: Option<u64>, text: &mut Text) {
        text.put(b"picture");
        text.number(self.pid as u64);
        text.time(pts);
        text.put(b"\n");
    }

    // Stores the least PTS, and ends the group if this PTS is more than ten seconds after it.
    fn note_group_pts(&mut self, now: u64, text: &mut Text) {
        let first = earlier_of(self.first, now);
        self.first = Some(first);
        if forward_distance(first, now) > 10 * CLOCK_TICKS_PER_SECOND {
            self.close(text);
        }
    }

    // Ends the first group of pictures.
    fn close(&mut self, text: &mut Text) {
        self.group_progress = GroupProgress::Finished;
        self.report_group(text);
        self.report_counts(text);
        text.put(b"\n");
    }

    // Prints the fields that both forms of the line `pictures` begin with.
    fn report_counts(&self, text: &mut Text) {
        text.put(b"pictures");
        text.number(self.pid as u64);
        text.number(self.lost);
        text.number(self.scrambled);
    }

    // Prints the line `group` of the first group of pictures.
    fn report_group(&self, text: &mut Text) {
        text.put(b"group");
        text.number(self.pid as u64);
        text.time(self.flagged_pts);
        text.time(self.first);
        text.put(form_word(self.reader.form()));
    }

    /// Ends the recording: ends the steps (`Steps::end`). If the first group of pictures has not
    /// ended, also prints its line `group`, if it has begun, and its counts.
    pub fn end(&self, text: &mut Text) {
        self.steps.end(self.pid, text);
        match self.group_progress {
            GroupProgress::Finished => {}
            GroupProgress::Before => self.report_end(b" 0\n", text),
            GroupProgress::Within => {
                self.report_group(text);
                self.report_end(b" 1\n", text);
            }
        }
    }

    fn report_end(&self, begun: &[u8], text: &mut Text) {
        self.report_counts(text);
        text.number(self.skipped_before);
        text.put(begun);
    }
}

fn is_finished(group_progress: GroupProgress) -> bool {
    match group_progress {
        GroupProgress::Finished => true,
        _ => false,
    }
}

// Returns whether a packet's continuity_counter goes on without an announced jump, or the packet is
// the first of its PID.
fn follows(link: PacketLink) -> bool {
    match link {
        PacketLink::Next => true,
        _ => false,
    }
}

// Returns whether data is lost before a packet that is no repeat.
fn is_after_loss(packet: &[u8; PACKET], link: PacketLink) -> bool {
    match link {
        PacketLink::Broken => true,
        PacketLink::Same => !announces_jump(packet),
        _ => false,
    }
}

// Returns whether stream_id belongs to a video stream: E0 to EF.
fn is_video(stream_id: Option<u8>) -> bool {
    match stream_id {
        Some(id) => id / 0x10 == 0xE,
        None => false,
    }
}

// Returns the bytes of a packet after its adaptation field, scrambled or not.
fn bytes_after_adaptation(packet: &[u8; PACKET]) -> &[u8] {
    let place = if has_adaptation_field(packet) {
        5 + packet[4] as usize
    } else {
        4
    };
    let (_, following) = packet.split_at(place.min(PACKET));
    following
}

// Returns the number plus one if `condition` is set, and otherwise the number.
fn increment_if(condition: bool, number: u64) -> u64 {
    if condition {
        number.saturating_add(1)
    } else {
        number
    }
}

// Returns the earlier of the least PTS so far and a new PTS. A PTS is earlier than another if it
// precedes the other by less than half the 33-bit range. If they are half the range apart, the new
// PTS counts as earlier.
fn earlier_of(first: Option<u64>, now: u64) -> u64 {
    match first {
        Some(first) => {
            if forward_distance(first, now) < CLOCK_PERIOD / 2 {
                first
            } else {
                now
            }
        }
        None => now,
    }
}

// Returns the form of a group of pictures as a word of the output.
fn form_word(form: Form) -> &'static [u8] {
    match form {
        Form::Closed => b" closed\n",
        Form::Open => b" open\n",
        Form::Unknown => b" unknown\n",
    }
}
