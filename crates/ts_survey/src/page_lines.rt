//! Prints the lines of one page of a PID: runs of PES packets, and the decoded page.

use crate::heard::Heard;
use crate::page::Following;
use crate::text::{Text, forward_distance};
use ttx_packet::{Header, Packet, PageId};

/// A run: consecutive PES packets with the same step of the PTS and the same events.
#[derive(Drop)]
struct Run {
    first: u64,
    count: u64,
    pts: Option<u64>,
    last: u64,
    step: u64,
    heard: Heard,
}

/// The state of printing the lines of one page of a PID.
#[derive(Drop)]
pub struct PageLines {
    pid: u16,
    page: Following,
    heard: Heard,
    run: Run,
}

impl PageLines {
    /// Creates the state before the first PES packet.
    pub fn new(pid: u16, page: PageId) -> PageLines {
        PageLines {
            pid,
            page: Following::new(page),
            heard: Heard::new(),
            run: Run {
                first: 0,
                count: 0,
                pts: None,
                last: 0,
                step: 0,
                heard: Heard::new(),
            },
        }
    }

    /// Begins the next PES packet, which has a PTS if `has_pts` is set. `fault` is the number of
    /// its fault, or 0.
    pub fn begin(&mut self, fault: u16, has_pts: bool) {
        self.heard.begin(fault);
        if has_pts {
            self.page.begin();
        }
    }

    /// Passes a Teletext packet of the PES packet to the receiver of the page. Returns the packet's
    /// header of any page, if one can be decoded.
    pub fn hear(&mut self, packet: &Packet, text: &mut Text) -> Option<Header> {
        self.page.hear(packet, self.pid, &mut self.heard, text)
    }

    /// Ends a PES packet: prints it on its own line if rows are printed after it. Otherwise adds
    /// the PES packet to the run or, if it does not continue the run, prints the run and begins a
    /// new one. A PES packet without a PTS is not decoded.
    pub fn end(&mut self, number: u64, pts: Option<u64>, text: &mut Text) {
        if pts.is_some() {
            self.page.end(&mut self.heard);
        }
        let is_changed = pts.is_some() && self.page.is_changed();
        let has_strays = pts.is_some() && self.page.packet_notes().has_new_strays();
        if is_changed || has_strays {
            self.report_on_own_line(number, pts, is_changed, has_strays, text);
        } else if !self.join(pts) {
            self.flush(text);
            self.begin_run(number, pts);
        }
    }

    // Prints the run, then a PES packet on its own line, then the decoded page if `is_changed` is
    // set, and the rows that were received after the end of the page if `has_strays` is set.
    fn report_on_own_line(
        &mut self,
        number: u64,
        pts: Option<u64>,
        is_changed: bool,
        has_strays: bool,
        text: &mut Text,
    ) {
        self.flush(text);
        self.begin_run(number, pts);
        self.flush(text);
        self.report_rows(number, is_changed, text);
        self.report_strays(number, has_strays, text);
    }

    // Adds a PES packet to the run if the packet continues the run, and returns whether it does.
    fn join(&mut self, pts: Option<u64>) -> bool {
        let Some(now) = pts else {
            return false;
        };
        if self.run.count == 0 || self.run.pts.is_none() || !self.run.heard.is_same(&self.heard) {
            return false;
        }
        let step = forward_distance(self.run.last, now);
        if self.run.count > 1 && step != self.run.step {
            return false;
        }
        self.run.step = step;
        self.run.last = now;
        self.run.count = self.run.count.saturating_add(1);
        true
    }

    // Begins a run of PES packets.
    fn begin_run(&mut self, number: u64, pts: Option<u64>) {
        self.run.first = number;
        self.run.count = 1;
        self.run.pts = pts;
        self.run.last = pts.unwrap_or(0);
        self.run.step = 0;
        self.run.heard.copy(&self.heard);
    }

    /// Prints the run of PES packets, if any, and ends it.
    pub fn flush(&mut self, text: &mut Text) {
        self.report_run(text);
        self.run.count = 0;
    }

    /// Prints the run of PES packets, if any.
    pub fn report_run(&self, text: &mut Text) {
        if self.run.count == 0 {
            return;
        }
        text.begin_page(self.page.watched());
        report_run(self.pid, &self.run, text);
    }

    // Prints the decoded page, if `is_reported` is set.
    fn report_rows(&mut self, number: u64, is_reported: bool, text: &mut Text) {
        if !is_reported {
            return;
        }
        text.begin_page(self.page.watched());
        text.put(b"rows");
        text.number(self.pid as u64);
        text.number(number);
        self.page.report_rows(text);
    }

    // Prints the rows that were received after the end of the page, if `is_reported` is set.
    fn report_strays(&mut self, number: u64, is_reported: bool, text: &mut Text) {
        if !is_reported {
            return;
        }
        text.begin_page(self.page.watched());
        text.put(b"strays");
        text.number(self.pid as u64);
        text.number(number);
        self.page.report_strays(text);
    }
}

// Prints the line of a run of PES packets.
fn report_run(pid: u16, run: &Run, text: &mut Text) {
    text.put(b"pes");
    text.number(pid as u64);
    text.number(run.first);
    text.number(run.count);
    text.time(run.pts);
    text.ticks(run.step);
    run.heard.report(text);
}
