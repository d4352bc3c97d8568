//! The state of each PID: its continuity counter and the kind of its data.

use mpeg_ts::{PACKET, announces_jump, counter_of, has_payload};
use std::alloc::Global;

/// The number of PIDs, which have 13 bits.
pub const PID_COUNT: usize = 8192;

/// The PID of null packets.
pub const NULL_PID: u16 = 0x1FFF;

/// The index that means "none", for example for a PID without a clock.
pub const NO_INDEX: u8 = 0xFF;

/// A flag in a stored counter: a later packet without a payload announced a jump of the counter
/// (discontinuity_indicator).
const JUMP_FLAG: u8 = 0x80;

/// How a packet follows the packet before it in its PID, by continuity_counter.
#[derive(Clone, Copy, PartialEq, Eq)]
pub enum PacketLink {
    /// The counter continues, and no jump is announced, or this is the first packet.
    Next,
    /// A jump of the counter is announced after the packet before, or in this packet, whose counter
    /// is another.
    Announced,
    /// The counter is the same, and no packet in between announces a jump: the packet is a repeat,
    /// 15 packets or more are missing, or the packet itself announces a jump.
    Same,
    /// Packets are missing before this packet.
    Broken,
}

/// The state of a PID.
#[derive(Clone, Copy)]
pub struct PidState {
    /// The counter of the last packet with a payload, and the counter of the packet before it, each
    /// possibly with `JUMP_FLAG`. Packets with transport_error_indicator do not count.
    pub counter: u8,
    pub before: u8,
    /// The numbers of the first and the last such packet; 0 if there was none.
    pub first: u64,
    pub last: u64,
    /// The PCR_PID of the programme whose PMT named this PID last, and the stream_type in that PMT;
    /// `NULL_PID` and 0 if no PMT named it.
    pub clock_pid: u16,
    pub kind: u8,
    /// The number of the packet in which that PMT ended; 0 if no PMT named this PID.
    pub named: u64,
    /// The indices of the sections, the clock, the pictures and the PES packets of this PID;
    /// `NO_INDEX` for each that is not followed.
    pub table: u8,
    pub clock: u8,
    pub video: u8,
    pub carrier: u8,
    /// Whether data other than Teletext was found to begin in this PID.
    pub is_other: bool,
}

/// A break of a continuity counter, between the packets with these two numbers.
#[derive(Clone, Copy)]
pub struct Break {
    pub pid: u16,
    pub before: u64,
    pub at: u64,
}

/// The number of most recent breaks that are stored.
const MAX_STORED_BREAKS: usize = 256;

/// The states of all PIDs, and the most recent breaks of their counters.
#[derive(Drop)]
pub struct Pids {
    states: Vec<PidState>,
    breaks: [Break; MAX_STORED_BREAKS],
    next: usize,
}

// Returns the state of a PID without any packets.
fn unknown() -> PidState {
    PidState {
        counter: 0,
        before: 0,
        first: 0,
        last: 0,
        clock_pid: NULL_PID,
        kind: 0,
        named: 0,
        table: NO_INDEX,
        clock: NO_INDEX,
        video: NO_INDEX,
        carrier: NO_INDEX,
        is_other: false,
    }
}

// Returns the states of `count` PIDs without any packets. Returns `None` if memory runs out.
fn initial_pid_states(alloc: Global, count: usize) -> Option<Vec<PidState>> {
    let mut states = Vec::new(alloc);
    for _ in 0..count {
        match states.push(unknown()) {
            Ok(()) => {}
            Err(_) => return None,
        }
    }
    Some(states)
}

fn initial_breaks() -> [Break; MAX_STORED_BREAKS] {
    let none = Break {
        pid: NULL_PID,
        before: 0,
        at: 0,
    };
    [none; MAX_STORED_BREAKS]
}

// Records packet number `number` with a payload. The state is changed in place, since the function
// runs for most packets of a recording.
#[inline(always)]
fn note_packet(state: &mut PidState, packet: &[u8; PACKET], number: u64) {
    // The counter is read before the state is written, so that its byte is read only once.
    let counter = counter_of(packet);
    if state.last == 0 {
        state.first = number;
    }
    state.before = state.counter;
    state.counter = counter;
    state.last = number;
}

// Records a packet whose counter does not count. Such a packet may announce a jump.
#[inline(never)]
fn note_jump(state: &mut PidState, packet: &[u8; PACKET]) {
    if packet[1] < 0x80 && announces_jump(packet) {
        state.counter |= JUMP_FLAG;
    }
}

// Returns whether the counter of a packet counts: the packet has a payload, and its
// transport_error_indicator is clear. It may be scrambled.
#[inline(always)]
fn is_counted(packet: &[u8; PACKET]) -> bool {
    packet[1] < 0x80 && has_payload(packet)
}

// Returns whether the sections, the clock, the pictures or the PES packets of a PID are followed.
// One test replaces four, since the function runs for each packet except null packets.
#[inline(always)]
fn is_followed(state: &PidState) -> bool {
    state.table & state.clock & state.video & state.carrier != NO_INDEX
}

/// Returns how far the counter of a PID went from one packet to the next: 1 if the counter
/// continues, 0 if it is the same; otherwise packets are missing or a jump was announced.
#[inline(always)]
pub fn counter_distance(last: u8, next: u8) -> u8 {
    (next % 0x10 + 0x10 - last % 0x10) % 0x10
}

// Returns whether the counter of a PID breaks at a packet with a payload, given the state before
// the packet.
#[inline(always)]
fn is_break(before: &PidState, packet: &[u8; PACKET]) -> bool {
    counter_distance(before.counter, counter_of(packet)) > 1
        && before.last != 0
        && before.counter < JUMP_FLAG
        && !announces_jump(packet)
}

/// Returns how a packet follows the packet before it in its PID. The result is meaningful only if
/// the packet is the last one of the PID whose counter counts.
pub fn link_of(state: &PidState, packet: &[u8; PACKET]) -> PacketLink {
    let distance = counter_distance(state.before, state.counter);
    if state.first == state.last {
        PacketLink::Next
    } else if state.before >= JUMP_FLAG {
        PacketLink::Announced
    } else if distance == 0 {
        PacketLink::Same
    } else if announces_jump(packet) {
        PacketLink::Announced
    } else if distance == 1 {
        PacketLink::Next
    } else {
        PacketLink::Broken
    }
}

impl Pids {
    /// Creates the state in which all PIDs are unknown. Returns `None` if memory runs out.
    pub fn new(alloc: Global) -> Option<Pids> {
        let states = initial_pid_states(alloc, PID_COUNT)?;
        Some(Pids {
            states,
            breaks: initial_breaks(),
            next: 0,
        })
    }

    /// Returns the state of a PID.
    #[inline(always)]
    pub fn get(&self, pid: u16) -> PidState {
        match self.states.get(pid as usize) {
            Some(state) => *state,
            None => unknown(),
        }
    }

    /// Sets the state of a PID.
    #[inline(always)]
    pub fn set(&mut self, pid: u16, state: PidState) {
        if let Some(place) = self.states.get_mut(pid as usize) {
            *place = state;
        }
    }

    /// Records that a PMT names a PID, with the PCR_PID of its programme, and stream_type. The PMT
    /// ended in packet number `number`.
    pub fn note_stream(&mut self, pid: u16, clock_pid: u16, kind: u8, number: u64) {
        let mut state = self.get(pid);
        state.clock_pid = clock_pid;
        state.kind = kind;
        state.named = number;
        self.set(pid, state);
    }

    /// Updates the state of a PID with its packet number `number`. Returns whether the PID is
    /// followed.
    #[inline(always)]
    pub fn update_pid_state(&mut self, pid: u16, packet: &[u8; PACKET], number: u64) -> bool {
        let Some(state) = self.states.get_mut(pid as usize) else {
            return false;
        };
        let is_followed = is_followed(state);
        if !is_counted(packet) {
            note_jump(state, packet);
        } else if is_break(state, packet) {
            self.record_break(pid, packet, number);
        } else {
            note_packet(state, packet, number);
        }
        is_followed
    }

    // Updates the state of a PID with a packet before which packets are missing. Not inlined, since
    // it is rarely called.
    #[inline(never)]
    fn record_break(&mut self, pid: u16, packet: &[u8; PACKET], number: u64) {
        let mut state = self.get(pid);
        self.add_break(Break {
            pid,
            before: state.last,
            at: number,
        });
        note_packet(&mut state, packet, number);
        self.set(pid, state);
    }

    // Stores a break, in place of the oldest one if `MAX_STORED_BREAKS` breaks are stored.
    fn add_break(&mut self, one: Break) {
        let place = self.next % MAX_STORED_BREAKS;
        self.breaks[place] = one;
        self.next = (place + 1) % MAX_STORED_BREAKS;
    }

    /// Returns ` broken` if a stored break of another PID may lie between two packet numbers;
    /// otherwise ` whole` if another PID had packets with a payload both up to the first number and
    /// after it, and ` unknown` if none had.
    pub fn break_word_between(&self, pid: u16, first: u64, second: u64) -> &'static [u8] {
        if is_broken_between(&self.breaks, pid, first, second) {
            return b" broken";
        }
        if other_pids_span_packet(&self.states, pid as usize, first) {
            return b" whole";
        }
        b" unknown"
    }
}

// Returns whether a break of another PID may lie between two packet numbers.
fn is_broken_between(breaks: &[Break], pid: u16, first: u64, second: u64) -> bool {
    breaks.iter().any(|one| one.pid != pid
        && one.before != 0
        && one.before < second
        && first < one.at)
}

// Returns whether another PID had packets with a payload both up to a packet number and after it.
fn other_pids_span_packet(states: &[PidState], pid: usize, first: u64) -> bool {
    if pid >= states.len() {
        return spans_packet(states, first);
    }
    let (before, here) = states.split_at(pid);
    let (_, following) = here.split_at(1);
    spans_packet(before, first) || spans_packet(following, first)
}

// Returns whether one of these PIDs had packets with a payload both up to a packet number and after
// it.
fn spans_packet(states: &[PidState], first: u64) -> bool {
    states.iter().any(|state| state.first != 0 && state.first <= first && first < state.last)
}
