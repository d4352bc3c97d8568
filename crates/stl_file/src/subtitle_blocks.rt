//! Applies TTI blocks to the current subtitle, one after another.

ghost use Rattle.std.specs.Prelude.{◌≡◌, IfErr, OnOk, None, Some, true};
ghost use Rattle.stl_file.specs.Fault.{is_block_fault};
ghost use Rattle.stl_file.specs.Reading.{StartedSubtitleFits, started_subtitle_of};
ghost use Rattle.stl_file.specs.Reading.{current_subtitle};
ghost use Rattle.stl_file.specs.Reading.{subtitle_block_step, tti_block_step, step_by_result};

use crate::fault::StlFault;
use crate::scope::Scope;
use crate::subtitle::Subtitle;
use crate::tti::Tti;

/// The state of reading the blocks of a subtitle.
#[derive(Clone, Copy)]
pub(crate) struct BlocksRead {
    // The number of blocks of the subtitle read so far. If the number is 0, the contents of the
    // subtitle and `is_skipped` are meaningless.
    pub(crate) count: u8,
    // Whether the subtitle is skipped, because it is outside the scope or was rejected.
    pub(crate) is_skipped: bool,
}

/// Applies the next TTI block of a file. Returns `true` if it is the last block of a subtitle that
/// is not skipped.
///
/// The subtitle is modified in place, since moving it would copy a kilobyte.
///
/// # Errors
///
/// Returns `Extension` or `CommentFlag` for any block except user data. For a block that is not
/// skipped: within a subtitle `Sequence` or `TooLong`; otherwise, if the subtitle is not outside
/// the scope, `Cumulative`, `Justify`, `Row`, `Time` or `EmptyTime`.
#[tactic(auto, unfolding(crate::specs::Reading::tti_block_step))]
pub(crate) fn take_block(
    scope: Scope,
    subtitle: &mut Subtitle,
    read: &mut BlocksRead,
    block: &Tti,
) -> Result<bool, StlFault>
    requires { StartedSubtitleFits (current_subtitle subtitle.old read.old) }
    ensures exact { tti_block_step scope (current_subtitle subtitle.old read.old) block.now
        ≡ step_by_result subtitle.new read.new result }
    ensures room { OnOk result (StartedSubtitleFits (current_subtitle subtitle.new read.new)) }
    ensures own { IfErr result (λ fault. is_block_fault fault ≡ true) }
{
    let ebn = block.ebn();
    if ebn == 0xfe {
        return Ok(false);
    }
    if ebn >= 0xf0 && ebn != 0xff {
        return Err(StlFault::Extension);
    }
    let comment = block.cf();
    if comment > 1 {
        return Err(StlFault::CommentFlag);
    }
    if comment == 1 {
        return Ok(false);
    }
    take_subtitle_block(scope, subtitle, read, block)
}

// Applies a block that is neither user data nor a comment.
fn take_subtitle_block(
    scope: Scope,
    subtitle: &mut Subtitle,
    read: &mut BlocksRead,
    block: &Tti,
) -> Result<bool, StlFault>
    requires { StartedSubtitleFits (current_subtitle subtitle.old read.old) }
    ensures exact { subtitle_block_step scope (current_subtitle subtitle.old read.old) block.now
        ≡ step_by_result subtitle.new read.new result }
    ensures room { OnOk result (StartedSubtitleFits (current_subtitle subtitle.new read.new)) }
    ensures own { IfErr result (λ fault. is_block_fault fault ≡ true) }
{
    if read.count == 0 {
        take_first_block(scope, subtitle, read, block)
    } else {
        take_later_block(scope, subtitle, read, block)
    }
}

// Applies the first block of a subtitle. Returns whether the subtitle is complete; false if the
// subtitle is outside the scope, and so skipped.
#[tactic(auto, unfolding(crate::specs::Reading::subtitle_block_step))]
fn take_first_block(
    scope: Scope,
    subtitle: &mut Subtitle,
    read: &mut BlocksRead,
    block: &Tti,
) -> Result<bool, StlFault>
    ensures exact { subtitle_block_step scope None block.now ≡ step_by_result subtitle.new read.new
        result }
    ensures room { OnOk result (StartedSubtitleFits (current_subtitle subtitle.new read.new)) }
    ensures own { IfErr result (λ fault. is_block_fault fault ≡ true) }
{
    let is_last = block.ebn() == 0xff;
    if scope.is_outside(block) {
        subtitle.begin_skipped(block);
        read.count = if is_last { 0 } else { 1 };
        read.is_skipped = true;
        return Ok(false);
    }
    subtitle.begin(block)?;
    read.count = 1;
    read.is_skipped = false;
    Ok(is_last)
}

// Applies a later block of a subtitle. Returns whether the subtitle is complete; false if the
// subtitle is skipped.
#[tactic(auto, unfolding(crate::specs::Reading::subtitle_block_step))]
fn take_later_block(
    scope: Scope,
    subtitle: &mut Subtitle,
    read: &mut BlocksRead,
    block: &Tti,
) -> Result<bool, StlFault>
    requires { StartedSubtitleFits (Some (started_subtitle_of subtitle.old read.old)) }
    ensures exact { subtitle_block_step scope (Some (started_subtitle_of subtitle.old read.old))
        block.now
        ≡ step_by_result subtitle.new read.new result }
    ensures room { OnOk result (StartedSubtitleFits (current_subtitle subtitle.new read.new)) }
    ensures own { IfErr result (λ fault. is_block_fault fault ≡ true) }
{
    if !subtitle.has_numbers_of(block) {
        return Err(StlFault::Sequence);
    }
    if read.count == 9 {
        return Err(StlFault::TooLong);
    }
    subtitle.extend(block);
    let is_last = block.ebn() == 0xff;
    if is_last && read.is_skipped {
        read.count = 0;
        return Ok(false);
    }
    read.count += 1;
    Ok(is_last)
}
