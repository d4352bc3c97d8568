//! The clock of a programme: its PCRs, and which of them are irregular.

use crate::text::{CLOCK_PERIOD, Text, forward_distance};
use mpeg_ts::{PACKET, announces_jump};

/// The number of ticks of a PTS or PCR base in a second.
pub const CLOCK_TICKS_PER_SECOND: u64 = 90_000;

/// The longest interval in ticks after which no PCR counts as late: 0.1 s (ISO/IEC 13818-1).
const MAX_USUAL_INTERVAL: u64 = 9_000;

/// The maximum number of last usual intervals whose median is the usual interval, and the least
/// number of them for which a PCR can count as late.
const MEDIAN_INTERVALS: usize = 100;

const MIN_INTERVALS: usize = 5;

/// The last numbers of a series, such as the intervals between PCRs in ticks.
#[derive(Clone, Copy)]
struct RecentNumbers {
    kept: [u64; MEDIAN_INTERVALS],
    count: usize,
    next: usize,
}

impl RecentNumbers {
    // Creates an empty list of numbers.
    fn new() -> RecentNumbers {
        RecentNumbers {
            kept: [0; MEDIAN_INTERVALS],
            count: 0,
            next: 0,
        }
    }

    // Adds a number, in place of the oldest number if the list is full.
    fn add(&mut self, number: u64) {
        store_number_at(&mut self.kept, self.next, number);
        self.next = (self.next % MEDIAN_INTERVALS + 1) % MEDIAN_INTERVALS;
        if self.count < MEDIAN_INTERVALS {
            self.count += 1;
        }
    }

    // Returns the median of the numbers, or the upper median if their count is even; 0 if the list
    // is empty.
    fn median_number(&self) -> u64 {
        let mut sorted = self.kept;
        let (some, _) = sorted.split_at_mut(self.count.min(MEDIAN_INTERVALS));
        median_of(some)
    }
}

// Stores a number at an index, if the index is within the array.
fn store_number_at(kept: &mut [u64; MEDIAN_INTERVALS], place: usize, number: u64) {
    if place < MEDIAN_INTERVALS {
        kept[place] = number;
    }
}

// Returns the median of numbers, which it sorts, or the upper median if their count is even; 0 if
// the slice is empty.
fn median_of(numbers: &mut [u64]) -> u64 {
    numbers.sort_unstable();
    match numbers.get(numbers.len() / 2) {
        Some(number) => *number,
        None => 0,
    }
}

// Returns whether an interval of this many ticks is usual, given the number of known intervals and
// their median.
fn is_usual_interval(ticks: u64, count: usize, median_interval: u64) -> bool {
    if ticks >= CLOCK_PERIOD / 2 {
        return false;
    }
    ticks <= MAX_USUAL_INTERVAL
        || count < MIN_INTERVALS
        || ticks <= median_interval.saturating_mul(3)
}

/// An irregular PCR, which is late or earlier than the PCR before it: the numbers of the packets
/// with the two PCRs, their interval in ticks, and the usual interval in ticks and in packets.
#[derive(Clone, Copy, Default)]
pub struct IrregularPcr {
    pub first: u64,
    pub second: u64,
    pub ticks: u64,
    pub median_ticks: u64,
    pub median_packet_count: u64,
}

/// The PCRs of a PID.
#[derive(Drop)]
pub struct Clock {
    pid: u16,
    last: Option<(u64, u64)>,
    is_announced: bool,
    ticks: RecentNumbers,
    packets: RecentNumbers,
    reported: Option<u64>,
}

impl Clock {
    /// Creates the state of a PID before its first PCR.
    pub fn new(pid: u16) -> Clock {
        Clock {
            pid,
            last: None,
            is_announced: false,
            ticks: RecentNumbers::new(),
            packets: RecentNumbers::new(),
            reported: None,
        }
    }

    /// Returns the PID of the clock.
    pub fn pid(&self) -> u16 {
        self.pid
    }

    /// Records whether a packet of the PID announces a jump of the clock.
    pub fn note(&mut self, packet: &[u8; PACKET]) {
        self.is_announced = self.is_announced || announces_jump(packet);
    }

    /// Processes a PCR in packet number `number`, and prints the PCR unless it is less than a
    /// second after the PCR printed last. Returns the interval before the PCR if the PCR is
    /// irregular and no jump of the clock was announced.
    pub fn take(&mut self, pcr: u64, number: u64, text: &mut Text) -> Option<IrregularPcr> {
        let is_report_due = match self.reported {
            None => true,
            Some(reported) => forward_distance(reported, pcr) >= CLOCK_TICKS_PER_SECOND,
        };
        if is_report_due {
            self.reported = Some(pcr);
            self.report(pcr, text);
        }
        let irregular_pcr = match self.last {
            Some((last, at)) if !self.is_announced => self.compare(last, at, pcr, number),
            _ => None,
        };
        self.last = Some((pcr, number));
        self.is_announced = false;
        irregular_pcr
    }

    // Compares a PCR with the PCR before it.
    fn compare(&mut self, last: u64, at: u64, pcr: u64, number: u64) -> Option<IrregularPcr> {
        let ticks = forward_distance(last, pcr);
        let packets = number.saturating_sub(at);
        if self.is_usual_interval(ticks) {
            self.ticks.add(ticks);
            self.packets.add(packets);
            return None;
        }
        Some(IrregularPcr {
            first: at,
            second: number,
            ticks,
            median_ticks: self.ticks.median_number(),
            median_packet_count: self.packets.median_number(),
        })
    }

    // Returns whether the interval before a PCR is usual, compared with the median of the last
    // usual intervals.
    fn is_usual_interval(&self, ticks: u64) -> bool {
        is_usual_interval(ticks, self.ticks.count, self.ticks.median_number())
    }

    /// Returns the last PCR if it is recent: fewer than 256 packets ago, or fewer than four times
    /// the usual number of packets between two PCRs.
    pub fn near(&self, number: u64) -> Option<u64> {
        let Some((pcr, at)) = self.last else {
            return None;
        };
        let max_distance = self.packets.median_number().max(64).saturating_mul(4);
        if number.saturating_sub(at) < max_distance {
            Some(pcr)
        } else {
            None
        }
    }

    fn report(&self, pcr: u64, text: &mut Text) {
        text.put(b"pcr");
        text.number(self.pid as u64);
        text.number(pcr);
        text.put(b"\n");
    }

    /// Ends the recording: prints the last PCR of the PID, if any.
    pub fn end(&self, text: &mut Text) {
        if let Some((pcr, _)) = self.last {
            self.report(pcr, text);
        }
    }
}
