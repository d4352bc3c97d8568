//! Prints about once a second how far the Teletext of a PID is ahead of the pictures of its
//! programme.

use crate::clock::CLOCK_TICKS_PER_SECOND;
use crate::text::{Text, forward_distance};

/// The last picture of a video PID that has a decoding time, and its number among the pictures of
/// the PID.
#[derive(Clone, Copy)]
pub struct Picture {
    pub video: u16,
    pub time: u64,
    pub number: u64,
}

/// The state of printing how far a PID is ahead of the pictures.
#[derive(Drop)]
pub struct Lead {
    // The video PID and the number of the picture in the last call of `take`.
    last_picture: Option<(u16, u64)>,
    // The PTS in the last line that was printed since the video PID changed.
    last: Option<u64>,
}

impl Lead {
    /// Creates the state before the first line.
    pub fn new() -> Lead {
        Lead {
            last_picture: None,
            last: None,
        }
    }

    /// Processes a PES packet of the PID with this PTS, after a picture. Prints a line if the PES
    /// packet is the first after that picture, unless the PTS is less than a second after that of
    /// the last line and the video PID is the same.
    pub fn take(&mut self, pid: u16, pts: u64, picture: &Picture, text: &mut Text) {
        if !self.move_to_picture(picture) || !self.is_report_due(pts) {
            return;
        }
        self.last = Some(pts);
        put_lead(pid, pts, picture, text);
    }

    // Moves to a picture, and returns whether it differs from the picture before. After a change of
    // the video PID the next line is printed at once.
    fn move_to_picture(&mut self, picture: &Picture) -> bool {
        let before = self.last_picture;
        self.last_picture = Some((picture.video, picture.number));
        match before {
            Some((video, number)) if video == picture.video => number != picture.number,
            _ => {
                self.last = None;
                true
            }
        }
    }

    // Returns whether a PTS is a second or more after the PTS of the last line, or before it, or no
    // line was printed since the video PID changed.
    fn is_report_due(&self, pts: u64) -> bool {
        match self.last {
            Some(last) => forward_distance(last, pts) >= CLOCK_TICKS_PER_SECOND,
            None => true,
        }
    }
}

// Prints how far a PES packet with Teletext is ahead of a picture.
fn put_lead(pid: u16, pts: u64, picture: &Picture, text: &mut Text) {
    text.put(b"lead");
    text.number(pid as u64);
    text.number(pts);
    text.ticks(forward_distance(picture.time, pts));
    text.number(picture.video as u64);
    text.number(picture.number);
    text.put(b"\n");
}
