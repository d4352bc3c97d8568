//! Follows a PID with Teletext: its PES packets, its lost packets, and its timing.
ghost use Rattle.std.specs.Prelude.{◌≡◌, IfSome};

use crate::adaptation::is_scrambled;
use crate::clock::{CLOCK_TICKS_PER_SECOND, IrregularPcr};
use crate::given::Given;
use crate::lead::{Lead, Picture};
use crate::pes_header::PesHeader;
use crate::pes_lines::PesLines;
use crate::pid_packets::PidPackets;
use crate::pid_state::{Pids, counter_distance};
use crate::text::{Text, forward_distance};
use arrayvec::ArrayVec;
use mpeg_ts::{
    PACKET, SurveyPages, announces_jump, begins, counter_of, has_payload, is_unusable, payload_of,
};
use std::alloc::Global;

/// The maximum number of irregular PCRs of a PID that wait for more data.
const MAX_PENDING_PCRS: usize = 4;

/// The number of packets after an irregular PCR in which counter breaks of other PIDs are looked
/// for.
pub const INSPECTED_PACKETS: u64 = 5000;

/// An irregular PCR, the last PTS received before the PCR that precedes it, and the first PTS
/// received after it.
#[derive(Clone, Copy, Default)]
struct Pending {
    irregular_pcr: IrregularPcr,
    before: Option<u64>,
    after: Option<u64>,
}

/// A PID that is followed, because it carries Teletext, a PMT announces Teletext in it, or it is
/// requested.
#[derive(Drop)]
pub struct Carrier {
    pid: u16,
    pid_packets_state: PidPackets<Given>,
    // The counter of the last good packet, and whether a usable packet without a payload announced
    // a jump after it.
    counter: Option<u8>,
    has_jump: bool,
    packets: u64,
    scrambled: u64,
    header: PesHeader,
    // The last PTS received, the last PTS that was compared with the clock, and the last PTS
    // received before the last PCR.
    begun: Option<u64>,
    last_sampled_pts: Option<u64>,
    pts_before_pcr: Option<u64>,
    pending: ArrayVec<Pending, MAX_PENDING_PCRS>,
    lead: Lead,
}

impl Carrier {
    /// Creates the state before the first packet of a PID. Returns `None` if memory runs out.
    pub fn new(alloc: Global, pid: u16, pages: &SurveyPages) -> Option<Carrier>
        ensures { IfSome result (λ carrier. carrier.pid ≡ pid) }
    {
        let lines = PesLines::new(alloc, pid, pages)?;
        Some(Carrier {
            pid,
            pid_packets_state: PidPackets::new(Given::new(lines)),
            counter: None,
            has_jump: false,
            packets: 0,
            scrambled: 0,
            header: PesHeader::new(),
            begun: None,
            last_sampled_pts: None,
            pts_before_pcr: None,
            pending: ArrayVec::new(),
            lead: Lead::new(),
        })
    }

    /// Returns the PID that is followed.
    pub fn pid(&self) -> u16 {
        self.pid
    }

    /// Processes a packet of the PID. Returns the PTS if the packet completes the header of a PES
    /// packet of private_stream_1 with a PTS.
    pub fn take(&mut self, packet: &[u8; PACKET], text: &mut Text) -> Option<u64>
        ensures { self.new.pid ≡ self.old.pid }
    {
        self.packets = self.packets.saturating_add(1);
        self.count_if_scrambled(packet);
        let begun = self.note(packet);
        self.pid_packets_state.to.begin_packet();
        self.pid_packets_state.take(packet, text);
        begun
    }

    // Counts a transport packet if it is scrambled.
    fn count_if_scrambled(&mut self, packet: &[u8; PACKET])
        ensures { self.new.pid ≡ self.old.pid }
    {
        if is_scrambled(packet) {
            self.scrambled = self.scrambled.saturating_add(1);
            self.pid_packets_state.to.count_scrambled_packet();
        }
    }

    // Counts the packets lost before a packet, and records an announced jump of the counter.
    // Returns the PTS if the packet completes a PES header of private_stream_1 with a PTS. An
    // unusable packet has no effect, nor has a repeat that `is_repeat` finds.
    fn note(&mut self, packet: &[u8; PACKET]) -> Option<u64>
        ensures { self.new.pid ≡ self.old.pid }
    {
        if is_unusable(packet) {
            return None;
        }
        if !has_payload(packet) {
            self.has_jump = self.has_jump || announces_jump(packet);
            return None;
        }
        if self.pid_packets_state.is_repeat(packet) {
            return None;
        }
        let is_seam = self.pid_packets_state.is_after_seam(packet);
        self.pid_packets_state.to.note_seam(is_seam);
        self.pid_packets_state.to.note_begin(begins(packet));
        let follows = self.count_lost_packets(packet);
        if self
            .header
            .take(payload_of(packet), begins(packet), follows)
        {
            self.begin()
        } else {
            None
        }
    }

    // Records and returns the PTS of the PES packet that began, if it has a PTS and is of
    // private_stream_1.
    fn begin(&mut self) -> Option<u64>
        ensures { self.new.pid ≡ self.old.pid }
    {
        let Some(0xBD) = self.header.stream_id() else {
            return None;
        };
        let pts = self.header.pts()?;
        self.begun = Some(pts);
        Some(pts)
    }

    // Adds the number of packets lost before a good packet, by its counter. Returns false if
    // packets were lost or a jump of the counter was announced.
    fn count_lost_packets(&mut self, packet: &[u8; PACKET]) -> bool
        ensures { self.new.pid ≡ self.old.pid }
    {
        let is_jump = self.has_jump || announces_jump(packet);
        let lost = lost_packets_before(self.counter, is_jump, packet);
        self.pid_packets_state.to.add_lost_packets(lost as u64);
        self.counter = Some(counter_of(packet));
        self.has_jump = false;
        lost == 0 && !is_jump
    }

    /// Records that packets of the PID may be missing, since many bytes were skipped.
    pub fn record_loss(&mut self)
        ensures { self.new.pid ≡ self.old.pid }
    {
        self.pid_packets_state.record_loss();
    }

    /// Stores a PCR of the PID's programme if it is irregular, and records the last PTS received
    /// before the PCR.
    pub fn note_pcr(&mut self, irregular_pcr: Option<IrregularPcr>, pids: &Pids, text: &mut Text)
        ensures { self.new.pid ≡ self.old.pid }
    {
        if let Some(irregular_pcr) = irregular_pcr {
            self.add_pending(irregular_pcr, pids, text);
        }
        self.pts_before_pcr = self.begun;
    }

    // Stores an irregular PCR. If no room is left, prints the oldest stored PCR at once.
    fn add_pending(&mut self, irregular_pcr: IrregularPcr, pids: &Pids, text: &mut Text)
        ensures { self.new.pid ≡ self.old.pid }
    {
        if self.pending.len() == MAX_PENDING_PCRS {
            self.report_first(pids, text);
        }
        let _ = self.pending.try_push(Pending {
            irregular_pcr,
            before: self.pts_before_pcr,
            after: None,
        });
    }

    /// Records the PTS of a PES packet: stores it with the pending irregular PCRs that have no PTS
    /// after them yet, and compares it with `pcr` if there is one and a comparison is due.
    pub fn note_pts(&mut self, pts: u64, pcr: Option<u64>, text: &mut Text)
        ensures { self.new.pid ≡ self.old.pid }
    {
        for one in self.pending.as_mut_slice().iter_mut() {
            one.after = one.after.or(Some(pts));
        }
        if !self.is_report_due(pts) {
            return;
        }
        if let Some(pcr) = pcr {
            self.last_sampled_pts = Some(pts);
            report_ahead(self.pid, pts, pcr, text);
        }
    }

    /// Returns whether no gap marker was the last data received before the last transport packet or
    /// came with it, and the PTS is a second or more after the last PTS that was compared with the
    /// clock, or before it, or none was compared yet.
    pub fn is_report_due(&self, pts: u64) -> bool {
        if self.pid_packets_state.to.is_broken() {
            return false;
        }
        match self.last_sampled_pts {
            Some(last) => forward_distance(last, pts) >= CLOCK_TICKS_PER_SECOND,
            None => true,
        }
    }

    /// Processes the PTS of a PES packet that began after a picture of the same programme. Prints a
    /// line if the PES packet is the first after that picture, unless the PTS is less than a second
    /// after that of the last line and the video PID is the same.
    pub fn take_lead(&mut self, pts: u64, picture: &Picture, text: &mut Text)
        ensures { self.new.pid ≡ self.old.pid }
    {
        self.lead.take(self.pid, pts, picture, text);
    }

    /// Prints the irregular PCRs that need no more data at packet number `number`; all of them if
    /// `number` is `None`.
    pub fn report_settled_pcrs(&mut self, number: Option<u64>, pids: &Pids, text: &mut Text)
        ensures { self.new.pid ≡ self.old.pid }
    {
        for _ in 0..MAX_PENDING_PCRS {
            if !self.report_first_if_settled(number, pids, text) {
                return;
            }
        }
    }

    // Prints the first irregular PCR if it needs no more data, and returns whether it was printed.
    fn report_first_if_settled(&mut self, number: Option<u64>, pids: &Pids, text: &mut Text) -> bool
        ensures { self.new.pid ≡ self.old.pid }
    {
        let Some(one) = self.pending.as_slice().first() else {
            return false;
        };
        let second = one.irregular_pcr.second;
        let is_settled = match number {
            Some(number) => number > second.saturating_add(INSPECTED_PACKETS),
            None => true,
        };
        if is_settled {
            self.report_first(pids, text);
        }
        is_settled
    }

    // Prints the first irregular PCR, if any is stored.
    fn report_first(&mut self, pids: &Pids, text: &mut Text)
        ensures { self.new.pid ≡ self.old.pid }
    {
        let Some(one) = self.pending.as_slice().first() else {
            return;
        };
        let reported = pids.break_word_between(
            self.pid,
            one.irregular_pcr.first,
            one.irregular_pcr.second,
        );
        report_clock(self.pid, one, reported, text);
        let _ = self.pending.remove(0);
    }

    /// Returns whether an irregular PCR is waiting for more data.
    pub fn is_waiting(&self) -> bool {
        !self.pending.is_empty()
    }

    /// Prints the pending lines of PES packets, since no more data is available for now.
    pub fn flush(&mut self, text: &mut Text)
        ensures { self.new.pid ≡ self.old.pid }
    {
        self.pid_packets_state.to.flush(text);
    }

    /// Ends the recording: prints the remaining lines of the PID except those of irregular PCRs,
    /// the counts last.
    pub fn end(&self, text: &mut Text) {
        self.pid_packets_state.to.end(text);
        self.report_end(text);
    }

    // Prints the line `end`: the PID, the number of PES packets and gap markers together, that of
    // gap markers, of transport packets and of scrambled transport packets, the number of the fault
    // after which nothing more was received, the word of `cut_word`, and the last PTS.
    fn report_end(&self, text: &mut Text) {
        let given = &self.pid_packets_state.to;
        text.put(b"end");
        text.number(self.pid as u64);
        text.number(given.count());
        text.number(given.gap_markers());
        text.number(self.packets);
        text.number(self.scrambled);
        text.number(given.refusal() as u64);
        text.put(cut_word(given.is_cut()));
        text.time(self.begun);
        text.put(b"\n");
    }
}

// Returns how many packets are lost, by the counter, before a good packet that is no repeat; 0 for
// the first packet and after an announced jump.
fn lost_packets_before(counter: Option<u8>, is_jump: bool, packet: &[u8; PACKET]) -> u8 {
    match counter {
        Some(last) if !is_jump => {
            counter_distance(last, counter_of(packet)).wrapping_sub(1) % 0x10
        }
        _ => 0,
    }
}

// Prints by how much a PTS is ahead of a PCR.
fn report_ahead(pid: u16, pts: u64, pcr: u64, text: &mut Text) {
    text.put(b"ahead");
    text.number(pid as u64);
    text.number(pts);
    text.ticks(forward_distance(pcr, pts));
    text.put(b"\n");
}

// Prints an irregular PCR, and whether the counters of other PIDs broke.
fn report_clock(pid: u16, one: &Pending, reported: &[u8], text: &mut Text) {
    text.put(b"clock");
    text.number(pid as u64);
    text.time(one.before);
    text.time(one.after);
    text.ticks(one.irregular_pcr.ticks);
    text.number(
        one.irregular_pcr
            .second
            .saturating_sub(one.irregular_pcr.first),
    );
    text.number(one.irregular_pcr.median_ticks);
    text.number(one.irregular_pcr.median_packet_count);
    text.put(reported);
    text.put(b"\n");
}

// Returns ` 1` if the PES packet that began last in a usable transport packet is incomplete, was
// refused, or began after a refusal, and otherwise ` 0`.
fn cut_word(is_cut: bool) -> &'static [u8] {
    if is_cut { b" 1" } else { b" 0" }
}
