//! Determines from which frame on the page has been unfinished, and whether it is overdue. A page
//! is unfinished if the expected page is known and a cell is wrong, or if complete pages are
//! required and it is open.
ghost use Rattle.std.specs.Prelude.{◌≡◌, ◌<◌};
ghost use Rattle.stl_file.specs.TimeCode.{day};
ghost use Rattle.sub_rules.specs.Events.{is_missed, extended_unfinished_run};
ghost use Rattle.sub_checker.specs.Checker.{is_overdue_at};

use stl_rows::Programme;

/// Returns the first frame of the run of frames with an unfinished page, up to `frame`.
/// `first_unfinished` is the result for the frame before.
pub(crate) fn extended_unfinished_run(
    first_unfinished: Option<u32>,
    unfinished: bool,
    frame: u32,
) -> Option<u32>
    ensures { result ≡ extended_unfinished_run first_unfinished unfinished frame }
{
    if unfinished {
        Some(first_unfinished.unwrap_or(frame))
    } else {
        None
    }
}

/// Returns whether the page is overdue at the end of `frame`: it has been unfinished for more than
/// `within` frames, or a subtitle ends whose page was never finished.
pub(crate) fn is_overdue(
    programme: &Programme,
    within: u32,
    first: u32,
    first_unfinished: Option<u32>,
    frame: u32,
) -> bool
    requires day { frame < day }
    ensures { result ≡ is_overdue_at programme.now within first first_unfinished frame }
{
    let Some(first_unfinished) = first_unfinished else {
        return false;
    };
    u64::from(first_unfinished) + u64::from(within) <= u64::from(frame)
        || is_missed(
            programme.tci_of_subtitle_ending_at(frame + 1),
            first,
            first_unfinished,
        )
}

// Returns whether a subtitle ends whose page was unfinished in all its frames, or, if it began
// before the first frame, in all frames from the first on. `tci` is the first frame of the subtitle
// that ends, if one ends.
fn is_missed(tci: Option<u32>, first: u32, first_unfinished: u32) -> bool
    ensures { result ≡ is_missed tci first first_unfinished }
{
    match tci {
        Some(tci) => first_unfinished <= tci || (first_unfinished == first && tci < first),
        None => false,
    }
}
