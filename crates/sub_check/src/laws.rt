//! Laws: files that are accepted with some options are also accepted with others.
//!
//! The bodies of the functions are empty; each contract states a law about the definitions in
//! `specs/`. The laws exclude checks in which a source fails or an allocation is refused.
ghost use Rattle.sub_check.specs.AcceptedKeeping.{LawOfAcceptedKeeping};
ghost use Rattle.sub_check.specs.AcceptedKeeping.{LawOfAcceptedWithoutKeeping};
ghost use Rattle.sub_check.specs.AcceptedWithin.{LawOfAcceptedWithinMore};

/// Files that are accepted with some delay `within` are also accepted with any greater delay,
/// unless a source fails or an allocation is refused. The PTS of frame 0 is less than 2^33.
pub fn law_of_accepted_within_more()
    ensures { LawOfAcceptedWithinMore }
{}

/// Files that are accepted if each header must erase the page are also accepted if repeats may keep
/// the page, unless a source fails or an allocation is refused.
pub fn law_of_accepted_keeping()
    ensures { LawOfAcceptedKeeping }
{}

/// Files that are accepted if repeats may keep the page are also accepted if each header must erase
/// it, provided that no header keeps the page, unless a source fails or an allocation is refused.
pub fn law_of_accepted_without_keeping()
    ensures { LawOfAcceptedWithoutKeeping }
{}
