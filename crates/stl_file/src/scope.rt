//! The scope of reading: the accepted files and the subtitles to read.

ghost use Rattle.std.specs.Prelude.{◌≡◌};
ghost use Rattle.stl_file.specs.Scope.{begins_outside, whole};

use crate::time_code::TimeCode;
use crate::tti::Tti;

/// The accepted files, by their display standard code, and the range of subtitles to read.
///
/// If the TCI of a subtitle is a time code outside the range, the subtitle is skipped like a
/// comment. Besides TCI, only EBN and CF of its first block are checked. The blocks of a skipped
/// subtitle are counted, and must be linked like the blocks of any other subtitle.
#[derive(Clone, Copy, Debug, PartialEq, Eq)]
pub struct Scope {
    /// Whether open subtitles and files of an unspecified display are accepted: DSC `0` or a space,
    /// besides `1` and `2` for Teletext.
    pub takes_open: bool,
    /// The first frame of the day at which a subtitle may start.
    pub from: u32,
    /// The first frame of the day after the range: subtitles start before this frame. 2,160,000
    /// means the end of the day.
    pub to: u32,
}

impl Scope {
    /// Returns the scope of all subtitles of a file for Teletext.
    pub fn whole() -> Scope
        ensures { result ≡ whole }
    {
        Scope {
            takes_open: false,
            from: 0,
            to: 2_160_000,
        }
    }

    // Returns whether a subtitle with the first block `first` is outside the range.
    #[tactic(auto, unfolding(crate::specs::Scope::begins_outside))]
    pub(crate) fn is_outside(self, first: &Tti) -> bool
        ensures { result ≡ begins_outside self first.now }
    {
        match TimeCode::from_bytes(first.tci()) {
            Some(tci) => tci.frame() < self.from || tci.frame() >= self.to,
            None => false,
        }
    }
}
