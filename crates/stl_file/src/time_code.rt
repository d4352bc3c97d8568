//! Time codes of a day at 25 frames per second (EBU Tech 3264, TTI block, fields TCI and TCO).

ghost use Rattle.std.specs.Prelude.{◌≡◌, ◌<◌, None, Some, if◌then◌else◌};
ghost use Rattle.stl_file.specs.TimeCode.{day, frame_from_bytes, frame_of, is_valid_time_field};
ghost use Rattle.stl_file.specs.TimeCode.{is_time_code};
ghost use Rattle.stl_file.specs.TimeCode.{time_bytes};

use std::marker::Model;

/// A time code of a day at 25 frames per second. The model is the frame of the day.
#[derive(Clone, Copy, Debug, PartialEq, Eq, PartialOrd, Ord)]
pub struct TimeCode {
    frame: u32,
}

impl Model for TimeCode {
    ghost use Rattle.std.specs.Prelude.{ℕ, ◌<◌};
    ghost use Rattle.stl_file.specs.TimeCode.{day};

    ghost Value = { ℕ };

    ghost view = { λ t. t.frame };

    ghost invariant = { λ t. t.frame < day };

    ghost inverse = { λ n. record { frame = n } };
}

impl TimeCode {
    /// Creates a time code from hours, minutes, seconds and frames.
    ///
    /// Returns `None` if the hours exceed 23, the minutes or seconds 59, or the frames 24.
    pub fn new(hours: u8, minutes: u8, seconds: u8, frames: u8) -> Option<TimeCode>
        ensures { (if is_time_code hours minutes seconds frames
            then Some (frame_of hours minutes seconds frames) else None) ≡ result }
    {
        if hours < 24 && minutes < 60 && seconds < 60 && frames < 25 {
            let total_minutes = hours as u32 * 60 + minutes as u32;
            let frame = (total_minutes * 60 + seconds as u32) * 25 + frames as u32;
            Some(TimeCode { frame })
        } else {
            None
        }
    }

    // Returns the time code of the four bytes of TCI or TCO, or `None` if the bytes are no valid
    // time code.
    #[rattlefmt::skip]
    #[tactic(auto, unfolding(
        crate::specs::TimeCode::is_valid_time_field,
        crate::specs::TimeCode::frame_from_bytes
    ))]
    pub(crate) fn from_bytes(bytes: [u8; 4]) -> Option<TimeCode>
        ensures { (if is_valid_time_field bytes then Some (frame_from_bytes bytes) else None) ≡
            result }
    {
        let [hours, minutes, seconds, frames] = bytes;
        TimeCode::new(hours, minutes, seconds, frames)
    }

    /// Returns the frame of the day of the time code, 0 to 2,159,999.
    pub fn frame(self) -> u32
        ensures value { result ≡ self }
        ensures range { result < day }
    {
        self.frame
    }

    /// Creates a time code from a frame of the day.
    pub fn of_frame(frame: u32) -> TimeCode
        requires { frame < day }
        ensures { result ≡ frame }
    {
        TimeCode { frame }
    }

    /// Returns the four bytes of the time code: hours, minutes, seconds and frames, in binary as in
    /// a TTI block.
    pub fn to_bytes(self) -> [u8; 4]
        ensures { result ≡ time_bytes self }
    {
        let frame = self.frame;
        [
            (frame / 90000) as u8,
            (frame / 1500 % 60) as u8,
            (frame / 25 % 60) as u8,
            (frame % 25) as u8,
        ]
    }
}
