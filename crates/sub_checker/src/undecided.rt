//! Determines from which frame on the expected page is known.
ghost use Rattle.std.specs.Prelude.{◌≡◌, ℕ, ◌+◌, ◌<◌, ◌≤◌, MatchOption, Option};
ghost use Rattle.std.specs.Prelude.{false, true};
ghost use Rattle.stl_rows.specs.DuePage.{ReportsNextEdge};
ghost use Rattle.stl_rows.specs.Judged.{has_unreliable_subtitle, is_undecided_in};
ghost use Rattle.sub_rules.specs.FrameRules.{is_due_undecided};
ghost use Rattle.sub_checker.specs.Checker.{IsKnownFrom};

use stl_rows::Judging;

/// Returns the frame from which on, up to the next cue after `frame`, the expected page of a frame
/// and those of the `within` frames before it, of which those before `first` do not count, are
/// known. Returns 0 if none of these pages is unknown, and a number above all frames if the
/// expected page of `frame` is unknown.
pub(crate) fn first_known_from(
    judging: &Judging<'_>,
    any_unreliable: bool,
    first: u32,
    frame: u32,
    within: u32,
) -> u64
    requires { any_unreliable ≡ has_unreliable_subtitle judging.now }
    ensures { (edge : Option ℕ) → ReportsNextEdge judging.now.programme.records frame edge
        → IsKnownFrom (is_due_undecided judging.now) first within frame edge result }
{
    if !any_unreliable {
        return 0;
    }
    if judging.is_undecided(frame) {
        return u64::MAX;
    }
    let least = earliest(first, frame, within);
    match last_undecided(judging, frame, least) {
        Some(last) => u64::from(last) + u64::from(within) + 1,
        None => 0,
    }
}

// Returns the later of `first` and the frame that is `within` frames before `frame`, or `first` if
// there is no such frame.
fn earliest(first: u32, frame: u32, within: u32) -> u32
    ensures first { first ≤ result }
    ensures last { frame ≤ result + within }
    ensures least { (f : ℕ) → first ≤ f → frame ≤ f + within → result ≤ f }
{
    let from = frame.saturating_sub(within);
    if from < first { first } else { from }
}

// Returns the last frame before `frame`, from `least` on, whose expected page is unknown; `None` if
// there is none. The expected page of `frame` is known.
fn last_undecided(judging: &Judging<'_>, frame: u32, least: u32) -> Option<u32>
    requires known { is_undecided_in judging.now frame ≡ false }
    ensures { MatchOption result
        ((f : ℕ) → least ≤ f → f ≤ frame → is_undecided_in judging.now f ≡ false)
        (λ last. (least ≤ last) × (last < frame) × (is_undecided_in judging.now last ≡ true)
        × ((f : ℕ) → last < f → f ≤ frame → is_undecided_in judging.now f ≡ false)) }
{
    let mut at = frame;
    while let Some(before) = frame_before_last_edge(judging, at, least) {
        if judging.is_undecided(before) {
            return Some(before);
        }
        at = before;
    }
    None
}

// Returns the last frame before the last cue at or before `at`; `None` if there is no such cue, or
// if that frame is before `least`.
fn frame_before_last_edge(judging: &Judging<'_>, at: u32, least: u32) -> Option<u32>
    ensures { MatchOption result
        ((f : ℕ) → least ≤ f → f ≤ at
        → is_undecided_in judging.now f ≡ is_undecided_in judging.now at)
        (λ before. (least ≤ before) × (before < at)
        × ((f : ℕ) → before < f → f ≤ at
        → is_undecided_in judging.now f ≡ is_undecided_in judging.now at)) }
{
    let Some(edge) = judging.programme().last_edge(at) else {
        return None;
    };
    if edge > least { Some(edge - 1) } else { None }
}
