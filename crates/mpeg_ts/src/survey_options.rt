//! The options for surveying an unknown recording.

use crate::packet_size::PacketSize;
use crate::pid::Pid;
use ttx_packet::PageId;

/// The maximum number of pages that a survey follows.
pub const MAX_SURVEY_PAGES: usize = 8;

/// The Teletext pages that a survey follows. All entries after the last page are `None`.
pub type SurveyPages = [Option<PageId>; MAX_SURVEY_PAGES];

/// The options of a survey. They are defined in this crate rather than in `ts_survey`, so that a
/// request can contain them.
#[derive(Clone, Copy, Debug, PartialEq, Eq)]
pub struct SurveyOptions {
    /// The Teletext pages to follow.
    pub pages: SurveyPages,
    /// The only PID to follow. If it is `None`, the survey searches for PIDs with Teletext.
    pub pid: Option<Pid>,
    /// The packet size of the recording. If it is `None`, the survey detects it.
    pub packet_size: Option<PacketSize>,
}
