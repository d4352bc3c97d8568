//! Prints the least and the greatest step between the decoding times of a video PID, for the first
//! second with steps, and for each second in which they differ from each other or from those
//! printed last, by `DIFFERENT_TICKS` or more.

use crate::clock::CLOCK_TICKS_PER_SECOND;
use crate::text::{CLOCK_PERIOD, Text, forward_distance};

/// Steps that differ by fewer ticks are alike. At 25 frames per second, a quarter of a frame has
/// 900 ticks.
const DIFFERENT_TICKS: u64 = 900;

/// A step from a decoding time to the next.
#[derive(Clone, Copy)]
struct Step {
    // The ticks of the step plus half the range of the clock, modulo that range, so that steps back
    // come first.
    order: u64,
    // The number of the picture after the step.
    number: u64,
}

/// The steps between the decoding times of a video PID.
#[derive(Drop)]
pub struct Steps {
    // The decoding time at which the last second ended.
    last_end: Option<u64>,
    // The least and the greatest step since then, and those in the last line that was printed.
    range: Option<(Step, Step)>,
    reported: Option<(Step, Step)>,
}

impl Steps {
    /// Creates the state before the first picture.
    pub fn new() -> Steps {
        Steps {
            last_end: None,
            range: None,
            reported: None,
        }
    }

    /// Processes the decoding time of picture `number`, and the decoding time before it. Prints the
    /// steps of a second if the second ends with this picture and `is_new` returns `true`.
    pub fn take(&mut self, pid: u16, before: Option<u64>, time: u64, number: u64, text: &mut Text) {
        if let Some(before) = before {
            self.add(Step {
                order: swap_halves(forward_distance(before, time)),
                number,
            });
        }
        if self.is_end(time) {
            self.last_end = Some(time);
            self.report(pid, text);
        }
    }

    // Adds a step. Of equal steps, the first remains.
    fn add(&mut self, step: Step) {
        let (least, most) = match self.range {
            Some(range) => range,
            None => (step, step),
        };
        self.range = Some((
            if step.order < least.order {
                step
            } else {
                least
            },
            if step.order > most.order { step } else { most },
        ));
    }

    // Returns whether a second ends with this decoding time: it is a second or more after the end
    // of the second before, or earlier than that, or no second has ended yet.
    fn is_end(&self, time: u64) -> bool {
        match self.last_end {
            Some(last_end) => forward_distance(last_end, time) >= CLOCK_TICKS_PER_SECOND,
            None => true,
        }
    }

    // Prints the steps of a second that has ended, if `is_new` returns `true`, and begins the next
    // second.
    fn report(&mut self, pid: u16, text: &mut Text) {
        let Some(range) = self.range else {
            return;
        };
        self.range = None;
        if self.is_new(&range) {
            self.reported = Some(range);
            report_steps(pid, &range, text);
        }
    }

    // Returns whether steps differ from each other or from those that were printed last, by
    // `DIFFERENT_TICKS` or more, or none were printed yet.
    fn is_new(&self, range: &(Step, Step)) -> bool {
        let (least, most) = *range;
        match self.reported {
            Some((old_least, old_most)) => {
                are_different(least, most)
                    || are_different(least, old_least)
                    || are_different(most, old_most)
            }
            None => true,
        }
    }

    /// Ends the recording: prints the steps since the end of the last second, if `is_new` returns
    /// `true`.
    pub fn end(&self, pid: u16, text: &mut Text) {
        let Some(range) = self.range else {
            return;
        };
        if self.is_new(&range) {
            report_steps(pid, &range, text);
        }
    }
}

fn report_steps(pid: u16, range: &(Step, Step), text: &mut Text) {
    let (least, most) = *range;
    text.put(b"steps");
    text.number(pid as u64);
    report_step(least, text);
    report_step(most, text);
    text.put(b"\n");
}

fn report_step(step: Step, text: &mut Text) {
    text.ticks(swap_halves(step.order));
    text.number(step.number);
}

// Returns whether two steps differ by `DIFFERENT_TICKS` or more.
fn are_different(first: Step, second: Step) -> bool {
    first.order.abs_diff(second.order) >= DIFFERENT_TICKS
}

// Exchanges the halves of the range of the clock.
fn swap_halves(ticks: u64) -> u64 {
    ticks.wrapping_add(CLOCK_PERIOD / 2) % CLOCK_PERIOD
}
