//! Processes the packets of a transport stream for `survey`, one after another.
ghost use Rattle.std.specs.Prelude.{◌≡◌, ◌<◌, [], IfSome};
ghost use Rattle.std.specs.Prelude.{length, true};
ghost use Rattle.ts_survey.specs.Requested.{KeepsRequested, is_requested, packet_keeps_requested};
ghost use Rattle.ts_survey.specs.Requested.{unrequested_followed_pids};
ghost use Rattle.ts_survey.specs.FirstLines.{requested_pid_texts, teletext_line};
ghost use Rattle.ts_survey.specs.Lines.{AddsTexts};
ghost use Rattle.ts_survey.specs.Payload as specs;

use crate::adaptation::{has_usable_adaptation_field, payload_if_usable, pcr_base};
use crate::announcements::{report_pages, report_programme, report_stream};
use crate::begun::process_new_pts;
use crate::carrier::{Carrier, INSPECTED_PACKETS};
use crate::clock::{Clock, IrregularPcr};
use crate::lead::Picture;
use crate::packets_in_step::TakesPackets;
use crate::pes_header::stream_id_in;
use crate::pictures::Pictures;
use crate::pid_state::{NO_INDEX, NULL_PID, PacketLink, PidState, Pids, link_of};
use crate::section::{FIRST_PMT, Stream, pmt_pid_at, programme_of, stream_at};
use crate::tables::{SECTION_CAPACITY, Section, Tables, split_at_pointer_field};
use crate::text::Text;
use mpeg_ts::{PACKET, SurveyPages, announces_jump, begins, pid_of};
use std::alloc::Global;

/// The maximum number of PIDs with Teletext, of clocks and of video PIDs that are followed.
const CAPACITY: usize = 64;

/// The state of processing a transport stream.
#[derive(Drop)]
pub struct Multiplex {
    alloc: Global,
    pages: SurveyPages,
    // The number of the requested PID, the only one that is followed for Teletext, even if it has
    // none. If it is `None`, up to `CAPACITY` PIDs with Teletext are followed.
    requested: Option<u16>,
    // The number of the last transport packet.
    number: u64,
    // The number of the packet at which irregular PCRs are examined again.
    next_settle_packet: u64,
    out_of_memory: bool,
    pids: Pids,
    tables: Tables,
    carriers: Vec<Carrier>,
    clocks: Vec<Clock>,
    videos: Vec<Pictures>,
}

impl Multiplex {
    /// Creates the state before the first packet of a transport stream. Returns `None` if memory
    /// runs out for the states of the PIDs or for the requested PID.
    pub fn new(
        alloc: Global,
        pages: SurveyPages,
        requested: Option<u16>,
        text: &mut Text,
    ) -> Option<Multiplex>
        ensures requested { IfSome result (λ multiplex. (multiplex.requested ≡ requested)
            × (multiplex.pages ≡ pages) × (unrequested_followed_pids multiplex ≡ [])) }
        // If a PID is requested, the line `teletext` of that PID is printed.
        ensures reported { IfSome result (λ multiplex. AddsTexts text.old
            (requested_pid_texts multiplex.requested) text.new) }
    {
        let pids = Pids::new(alloc)?;
        let mut all = Multiplex {
            alloc,
            pages,
            requested,
            number: 0,
            next_settle_packet: u64::MAX,
            out_of_memory: false,
            pids,
            tables: Tables::new(alloc),
            carriers: Vec::new(alloc),
            clocks: Vec::new(alloc),
            videos: Vec::new(alloc),
        };
        if let Some(pid) = requested {
            all.add_carrier(pid, text)?;
        }
        all.add_table(0);
        Some(all)
    }

    /// Returns whether memory ran out for a PID with Teletext, a clock or a video PID. Tables for
    /// which it ran out are not read.
    pub fn out_of_memory(&self) -> bool
        ensures { result ≡ self.now.out_of_memory }
    {
        self.out_of_memory
    }

    // Starts to read the sections of a PID with tables, unless they are read already or there is no
    // room or no memory for them.
    fn add_table(&mut self, pid: u16)
        ensures requested { KeepsRequested self.old self.new }
    {
        let mut state = self.pids.get(pid);
        if state.table != NO_INDEX {
            return;
        }
        if let Some(place) = self.tables.add() {
            state.table = place;
            self.pids.set(pid, state);
        }
    }

    // Follows a PID with Teletext, unless the PID is followed already, another PID is requested,
    // `CAPACITY` PIDs are followed already, or memory runs out, which is recorded.
    fn follow(&mut self, pid: u16, text: &mut Text)
        ensures requested { KeepsRequested self.old self.new }
    {
        let state = self.pids.get(pid);
        let is_requested = match self.requested {
            Some(requested) => requested == pid,
            None => true,
        };
        if state.carrier != NO_INDEX || !is_requested || self.carriers.len() >= CAPACITY {
            return;
        }
        if self.add_carrier(pid, text).is_none() {
            self.out_of_memory = true;
        }
    }

    // Starts to follow a PID that has Teletext or is requested, and prints its line `teletext`.
    // Returns `None` if memory runs out.
    fn add_carrier(&mut self, pid: u16, text: &mut Text) -> Option<()>
        requires { length self.old.carriers.items < 64 }
        ensures requested { is_requested self.old.requested pid ≡ true → KeepsRequested self.old
            self.new }
        ensures reported { IfSome result (λ _. AddsTexts text.old (teletext_line pid) text.new) }
    {
        let place = self.carriers.len();
        let carrier = Carrier::new(self.alloc, pid, &self.pages)?;
        if self.carriers.push(carrier).is_err() {
            return None;
        }
        let mut state = self.pids.get(pid);
        state.carrier = place as u8;
        self.pids.set(pid, state);
        text.put(b"teletext");
        text.number(pid as u64);
        text.put(b"\n");
        Some(())
    }

    // Follows the clock of a PID, unless the PID is 1FFF, its clock is followed already, `CAPACITY`
    // clocks are followed already, or memory runs out, which is recorded.
    fn add_clock(&mut self, pid: u16)
        ensures requested { KeepsRequested self.old self.new }
    {
        let mut state = self.pids.get(pid);
        let place = self.clocks.len();
        if pid == NULL_PID || state.clock != NO_INDEX || place >= CAPACITY {
            return;
        }
        if self.clocks.push(Clock::new(pid)).is_err() {
            self.out_of_memory = true;
            return;
        }
        state.clock = place as u8;
        self.pids.set(pid, state);
    }

    // Follows the pictures of a PID, unless they are followed already, the pictures of `CAPACITY`
    // PIDs are, or memory runs out, which is recorded.
    fn add_video(&mut self, pid: u16)
        ensures requested { KeepsRequested self.old self.new }
    {
        let mut state = self.pids.get(pid);
        let place = self.videos.len();
        if state.video != NO_INDEX || place >= CAPACITY {
            return;
        }
        if self.videos.push(Pictures::new(pid)).is_err() {
            self.out_of_memory = true;
            return;
        }
        state.video = place as u8;
        self.pids.set(pid, state);
    }

    // Processes a packet of a PID that is followed for Teletext.
    #[tactic(auto, using(crate::proofs::RequestedLemmas::one_changed))]
    fn process_teletext_packet(&mut self, state: &PidState, packet: &[u8; PACKET], text: &mut Text)
        ensures requested { KeepsRequested self.old self.new }
    {
        let Some(carrier) = self.carriers.get_mut(state.carrier as usize) else {
            return;
        };
        let Some(pts) = carrier.take(packet, text) else {
            return;
        };
        self.process_begun_pts(state, pts, text);
    }

    // Processes a PTS whose PES header became complete in a packet of a PID that is followed for
    // Teletext.
    #[tactic(auto, using(crate::proofs::RequestedLemmas::one_changed))]
    fn process_begun_pts(&mut self, state: &PidState, pts: u64, text: &mut Text)
        ensures requested { KeepsRequested self.old self.new }
    {
        let number = self.number;
        let picture = self.last_picture(state);
        let clock = self.pids.get(state.clock_pid).clock;
        let Some(carrier) = self.carriers.get_mut(state.carrier as usize) else {
            return;
        };
        process_new_pts(
            carrier,
            picture,
            self.clocks.as_slice(),
            clock,
            number,
            pts,
            text,
        );
    }

    // Processes a packet of a PID with pictures, if the packet is needed.
    #[inline(always)]
    fn process_video_packet(&mut self, state: &PidState, packet: &[u8; PACKET], text: &mut Text)
        ensures requested { KeepsRequested self.old self.new }
    {
        let Some(pictures) = self.videos.get(state.video as usize) else {
            return;
        };
        // A packet with the counter of the packet before it is needed: after it, no packet counts
        // as a repeat of an earlier packet.
        let is_same_counter = state.before % 0x10 == state.counter;
        if begins(packet) || pictures.needs_every_packet() || is_same_counter {
            self.process_needed_packet(
                state.video,
                state.kind,
                link_of(state, packet),
                packet,
                text,
            );
        }
    }

    // Processes a packet that is needed. Not inlined, since few packets are needed, and inlining
    // would take registers from the loop over all packets.
    #[inline(never)]
    fn process_needed_packet(
        &mut self,
        place: u8,
        kind: u8,
        link: PacketLink,
        packet: &[u8; PACKET],
        text: &mut Text,
    )
        ensures requested { KeepsRequested self.old self.new }
    {
        let Some(pictures) = self.videos.get_mut(place as usize) else {
            return;
        };
        pictures.take(packet, kind, link, text);
    }

    // Returns the last picture with a decoding time, from the video PID that was followed first in
    // the programme of a PID with Teletext.
    fn last_picture(&self, teletext: &PidState) -> Option<Picture> {
        for video in self.videos.iter() {
            if shares_programme(&self.pids.get(video.pid()), teletext) {
                return video.last();
            }
        }
        None
    }

    // Processes a packet of a PID with a clock.
    fn read_clock(&mut self, place: u8, packet: &[u8; PACKET], text: &mut Text)
        ensures requested { KeepsRequested self.old self.new }
    {
        if !has_usable_adaptation_field(packet) {
            return;
        }
        let Some(clock) = self.clocks.get_mut(place as usize) else {
            return;
        };
        clock.note(packet);
        let Some(pcr) = pcr_base(packet) else {
            return;
        };
        let irregular_pcr = clock.take(pcr, self.number, text);
        let pid = clock.pid();
        if irregular_pcr.is_some() {
            let at = self.number.saturating_add(INSPECTED_PACKETS + 1);
            self.next_settle_packet = self.next_settle_packet.min(at);
        }
        self.note_pcr(pid, irregular_pcr, text);
    }

    // Passes a PCR of this PCR_PID to each followed PID of a programme with this PCR_PID.
    fn note_pcr(&mut self, clock_pid: u16, irregular_pcr: Option<IrregularPcr>, text: &mut Text)
        ensures requested { KeepsRequested self.old self.new }
    {
        for carrier in self.carriers.iter_mut() {
            note_pcr_for_carrier(carrier, &self.pids, clock_pid, irregular_pcr, text);
        }
    }

    // Prints the irregular PCRs that need no more data at packet number `number`.
    fn report_settled_pcrs(&mut self, number: u64, text: &mut Text)
        ensures requested { KeepsRequested self.old self.new }
    {
        let mut is_waiting = false;
        for carrier in self.carriers.iter_mut() {
            carrier.report_settled_pcrs(Some(number), &self.pids, text);
            is_waiting = is_waiting || carrier.is_waiting();
        }
        self.next_settle_packet = if is_waiting {
            number.saturating_add(1)
        } else {
            u64::MAX
        };
    }

    // Prints all irregular PCRs that are waiting for more data.
    fn report_all_pending_pcrs(&mut self, text: &mut Text)
        ensures requested { KeepsRequested self.old self.new }
    {
        for carrier in self.carriers.iter_mut() {
            carrier.report_settled_pcrs(None, &self.pids, text);
        }
        self.next_settle_packet = u64::MAX;
    }

    // Processes a packet of a PID: reads its sections and its clock, and examines which data begins
    // in it.
    #[inline(always)]
    fn read(&mut self, pid: u16, state: &PidState, packet: &[u8; PACKET], text: &mut Text)
        ensures requested { KeepsRequested self.old self.new }
    {
        if state.table != NO_INDEX {
            self.read_sections(state.table, packet, text);
        }
        if state.clock != NO_INDEX {
            self.read_clock(state.clock, packet, text);
        }
        if begins(packet) && may_be_followed(state) {
            self.inspect(pid, packet, text);
        }
    }

    // Reads a packet in which data begins or whose PID is followed, and processes the packet if its
    // PID has pictures or Teletext.
    #[inline(always)]
    fn read_and_process(
        &mut self,
        pid: u16,
        state: &PidState,
        packet: &[u8; PACKET],
        text: &mut Text,
    )
        ensures requested { KeepsRequested self.old self.new }
    {
        self.read(pid, state, packet, text);
        let state = self.pids.get(pid);
        self.process_followed_packet(&state, packet, text);
    }

    // Processes a packet of a PID with pictures or Teletext.
    #[inline(always)]
    fn process_followed_packet(&mut self, state: &PidState, packet: &[u8; PACKET], text: &mut Text)
        ensures requested { KeepsRequested self.old self.new }
    {
        if state.video != NO_INDEX {
            self.process_video_packet(state, packet, text);
        }
        if state.carrier != NO_INDEX {
            self.process_teletext_packet(state, packet, text);
        }
    }

    // Examines which data begins in a PID without followed tables, pictures or Teletext. If a PES
    // packet does not show its data_identifier, a later PES packet may.
    fn inspect(&mut self, pid: u16, packet: &[u8; PACKET], text: &mut Text)
        ensures requested { KeepsRequested self.old self.new }
    {
        let payload = payload_if_usable(packet);
        let Some(stream_id) = stream_id_in(payload) else {
            return;
        };
        let mut state = self.pids.get(pid);
        let is_video = stream_id / 0x10 == 0xE;
        if state.is_other && !is_video {
            return;
        }
        if begins_with_teletext(payload) {
            self.follow(pid, text);
        } else if stream_id != 0xBD || has_data_identifier(payload) {
            state.is_other = true;
            self.pids.set(pid, state);
            if is_video {
                self.add_video(pid);
            }
        }
    }

    // Adds the bytes of sections in a packet to those received before, and reads the complete
    // sections that `store_if_new` stores.
    fn read_sections(&mut self, table: u8, packet: &[u8; PACKET], text: &mut Text)
        ensures requested { KeepsRequested self.old self.new }
    {
        let (before, following) = split_at_pointer_field(packet, payload_if_usable(packet));
        self.tables.take(table, before, false);
        self.read_complete_sections(table, text);
        if let Some(following) = following {
            self.tables.take(table, following, true);
            self.read_complete_sections(table, text);
        }
    }

    // Takes all complete sections of a PID, and reads those that `store_if_new` stores.
    fn read_complete_sections(&mut self, table: u8, text: &mut Text)
        ensures requested { KeepsRequested self.old self.new }
    {
        for _ in 0..SECTION_CAPACITY {
            if !self.read_next_section(table, text) {
                return;
            }
        }
    }

    // Takes the next complete section of a PID, and reads it if `store_if_new` stores it. Returns
    // whether a section was found.
    fn read_next_section(&mut self, table: u8, text: &mut Text) -> bool
        ensures requested { KeepsRequested self.old self.new }
    {
        let mut section = Section::new();
        if !self.tables.next(table, &mut section) {
            return false;
        }
        if self.tables.store_if_new(section.as_slice()) {
            self.read_section(table, section.as_slice(), text);
        }
        true
    }

    // Reads a section of a PAT, only on the PID with index 0, or of a PMT, on any PID, by its
    // table_id. Ignores other sections. The PID of the PAT has the index 0.
    fn read_section(&mut self, table: u8, section: &[u8], text: &mut Text)
        ensures requested { KeepsRequested self.old self.new }
    {
        if section.is_empty() {
            return;
        }
        if table == 0 && section[0] == 0 {
            self.read_pat(section);
        } else if section[0] == 2 {
            self.read_pmt(section, text);
        }
    }

    // Starts to read the PMTs that a section of a PAT names, except on PID 1FFF, as far as there is
    // room and memory.
    fn read_pat(&mut self, section: &[u8])
        ensures requested { KeepsRequested self.old self.new }
    {
        let mut place = FIRST_PMT;
        for _ in 0..1024u32 {
            let Some(pid) = pmt_pid_at(section, place.min(4095)) else {
                return;
            };
            if pid != NULL_PID {
                self.add_table(pid);
            }
            place = place.saturating_add(4);
        }
    }

    // Prints the programme of a PMT, and its streams.
    fn read_pmt(&mut self, section: &[u8], text: &mut Text)
        ensures requested { KeepsRequested self.old self.new }
    {
        let Some(programme) = programme_of(section) else {
            return;
        };
        report_programme(&programme, text);
        self.add_clock(programme.clock_pid);
        let mut place = programme.first;
        for _ in 0..1024u32 {
            let Some(stream) = stream_at(section, place.min(0xFFFF)) else {
                return;
            };
            self.read_stream(section, &stream, programme.clock_pid, text);
            place = stream.end;
        }
    }

    // Prints a stream of a programme, and the Teletext pages that it announces. If it announces
    // any, `follow` decides whether its PID is followed.
    fn read_stream(&mut self, section: &[u8], stream: &Stream, clock_pid: u16, text: &mut Text)
        ensures requested { KeepsRequested self.old self.new }
    {
        report_stream(stream, text);
        self.pids
            .note_stream(stream.pid, clock_pid, stream.kind, self.number);
        if report_pages(section, stream, text) {
            self.follow(stream.pid, text);
        }
    }

    /// Prints the pending lines about PES packets, since no more data is available for now.
    /// Irregular PCRs and gap markers stay pending.
    pub fn flush(&mut self, text: &mut Text)
        ensures requested { KeepsRequested self.old self.new }
    {
        for carrier in self.carriers.iter_mut() {
            carrier.flush(text);
        }
    }

    /// Prints the final lines of the stream: the pending irregular PCRs, the pictures, each PID
    /// that is followed for Teletext except 1FFF, and the clocks. No irregular PCR is pending
    /// afterwards.
    pub fn end(&mut self, text: &mut Text)
        ensures requested { KeepsRequested self.old self.new }
    {
        self.report_all_pending_pcrs(text);
        self.report_end_of_pictures(text);
        self.report_end_of_pids(text);
        self.report_end_of_clocks(text);
    }

    fn report_end_of_pictures(&self, text: &mut Text) {
        for video in self.videos.iter() {
            video.end(text);
        }
    }

    // Prints the final lines of the PIDs that are followed for Teletext except 1FFF, one PID after
    // another.
    fn report_end_of_pids(&self, text: &mut Text) {
        for pid in 0..NULL_PID {
            self.report_end_of_pid(pid, text);
        }
    }

    fn report_end_of_pid(&self, pid: u16, text: &mut Text) {
        let place = self.pids.get(pid).carrier;
        if let Some(carrier) = self.carriers.get(place as usize) {
            carrier.end(text);
        }
    }

    fn report_end_of_clocks(&self, text: &mut Text) {
        for clock in self.clocks.iter() {
            clock.end(text);
        }
    }
}

impl TakesPackets for Multiplex {
    // The requested PID and pages stay the same, and no further PID that is not requested is
    // followed for Teletext.
    ghost is_taken = { packet_keeps_requested };

    /// Processes transport packet number `number`.
    fn take(&mut self, number: u64, packet: &[u8; PACKET], text: &mut Text)
        ensures { packet_keeps_requested self.old packet.now self.new }
    {
        self.number = number;
        let pid = pid_of(packet);
        if pid == NULL_PID {
            return;
        }
        let begins_unit = begins(packet);
        let is_followed = self.pids.update_pid_state(pid, packet, number);
        // Most packets of a recording begin no payload unit and belong to no followed PID.
        if begins_unit || is_followed {
            let state = self.pids.get(pid);
            self.read_and_process(pid, &state, packet, text);
        }
        if number >= self.next_settle_packet {
            self.report_settled_pcrs(number, text);
        }
    }

    /// Records for each PID followed for Teletext that packets may be missing, since many bytes
    /// were skipped.
    fn record_loss(&mut self)
        ensures taken { packet_keeps_requested self.old [] self.new }
    {
        for carrier in self.carriers.iter_mut() {
            carrier.record_loss();
        }
    }
}

// Passes a PCR to a followed PID, if it is a PCR of the PID's programme.
fn note_pcr_for_carrier(
    carrier: &mut Carrier,
    pids: &Pids,
    clock_pid: u16,
    irregular_pcr: Option<IrregularPcr>,
    text: &mut Text,
)
    ensures { carrier.new.pid ≡ carrier.old.pid }
{
    if pids.get(carrier.pid()).clock_pid == clock_pid {
        carrier.note_pcr(irregular_pcr, pids, text);
    }
}

// Returns whether a PES packet may show that a PID has Teletext or pictures. A PID with other data
// may have pictures, if its first PES packet was damaged.
fn may_be_followed(state: &PidState) -> bool {
    state.table & state.video & state.carrier == NO_INDEX
}

// Returns whether a PID with pictures belongs to the programme of a PID with Teletext: the last PMT
// that names the pictures ended in the same packet as the last that names the Teletext, or later,
// and has the same PCR_PID. A later one belongs to it only if its PCR_PID is not 1FFF.
fn shares_programme(video: &PidState, teletext: &PidState) -> bool {
    let is_same_pmt = video.named == teletext.named && teletext.named != 0;
    let is_later_pmt = video.named > teletext.named && teletext.clock_pid != NULL_PID;
    video.clock_pid == teletext.clock_pid && (is_same_pmt || is_later_pmt)
}

// Returns whether the first data byte of a PES packet is in the payload in which the PES packet
// begins.
fn has_data_identifier(payload: &[u8]) -> bool {
    payload.len() > 9 && 9 + (payload[8] as usize) < payload.len()
}

// Returns whether a payload begins with a PES packet of Teletext: private_stream_1, whose first
// data byte is in the payload and is a data_identifier of EBU data, 10 to 1F (EN 300 472).
fn begins_with_teletext(payload: &[u8]) -> bool
    ensures { result ≡ specs.begins_with_teletext payload.now }
{
    if payload.len() < 10 || payload[0] != 0 || payload[1] != 0 || payload[2] != 1 {
        return false;
    }
    let place = 9 + payload[8] as usize;
    payload[3] == 0xBD && place < payload.len() && payload[place] / 0x10 == 1
}
