//! Subtitles of an EBU STL file, with their text in the file's code (EBU Tech 3264).

ghost use Rattle.std.specs.Prelude.{◌≡◌, ◌+◌, ◌≤◌, ◌++◌, length, take, true, ◌==◌, ◌&&◌};
ghost use Rattle.std.specs.Prelude.{Err, IfErr, IfOk, Ok, OnOk, is_ok};
ghost use Rattle.std.specs.Option.{SomeIff};
ghost use Rattle.stl_file.specs.declared.fault.StlFault.TheVariants.{Time};
ghost use Rattle.stl_file.specs.Fault.{is_block_fault};
ghost use Rattle.stl_file.specs.Reading.{subtitle_of_first_block};
ghost use Rattle.stl_file.specs.Subtitle.{IsSubtitle, SubtitleValue, empty_subtitle};
ghost use Rattle.stl_file.specs.Subtitle.{has_no_unused_space};
ghost use Rattle.stl_file.specs.TimeCode.{frame_from_bytes, is_valid_time_field};
ghost use Rattle.stl_file.specs.Tti.{bytes_before_unused_space, sgn, sn, text_of_block};

use crate::fault::StlFault;
use crate::time_code::TimeCode;
use crate::tti::Tti;
use arrayvec::ArrayVec;
use std::marker::Model;

/// A subtitle with the fields of its TTI blocks.
///
/// The time code in is before the time code out, the row is 1 to 23, the justification code 0 to 3,
/// and the text has at most 1008 bytes and no unused space (8F).
#[derive(Drop)]
pub struct Subtitle {
    sgn: u8,
    sn: u16,
    tci: TimeCode,
    tco: TimeCode,
    vp: u8,
    jc: u8,
    text: ArrayVec<u8, 1008>,
}

impl Model for Subtitle {
    ghost use Rattle.std.specs.Prelude.{◌≡◌, ◌≤◌, ◌<◌, length};
    ghost use Rattle.stl_file.specs.Subtitle.{SubtitleValue, IsSubtitle};

    ghost Value = { SubtitleValue };

    ghost view = { λ s. record {
      sgn = s.sgn;
      sn = s.sn;
      tci = s.tci;
      tco = s.tco;
      vp = s.vp;
      jc = s.jc;
      text = s.text.items;
    } };

    ghost invariant = { λ s. IsSubtitle (record {
      sgn = s.sgn;
      sn = s.sn;
      tci = s.tci;
      tco = s.tco;
      vp = s.vp;
      jc = s.jc;
      text = s.text.items;
    }) };
}

impl Subtitle {
    /// Creates a subtitle from its fields.
    ///
    /// Returns `None` if the time code in is not before the time code out, the row is not 1 to 23,
    /// the justification code is greater than 3, or the text has an unused space (8F) or more than
    /// 1008 bytes.
    pub fn new(
        sgn: u8,
        sn: u16,
        tci: TimeCode,
        tco: TimeCode,
        vp: u8,
        jc: u8,
        text: &[u8],
    ) -> Option<Subtitle>
        ensures { let s : SubtitleValue = record {
          sgn = sgn;
          sn = sn;
          tci = tci;
          tco = tco;
          vp = vp;
          jc = jc;
          text = text.now;
        } in SomeIff result (IsSubtitle s) s }
    {
        if tci.frame() >= tco.frame() || vp < 1 || vp > 23 || jc > 3 {
            return None;
        }
        if text.len() > 1008 || !has_no_unused_byte(text) {
            return None;
        }
        let mut kept = ArrayVec::new();
        push_all(&mut kept, text);
        Some(Subtitle {
            sgn,
            sn,
            tci,
            tco,
            vp,
            jc,
            text: kept,
        })
    }

    /// Returns SGN, the subtitle group number of the subtitle.
    pub fn sgn(&self) -> u8
        ensures { result ≡ self.now.sgn }
    {
        self.sgn
    }

    /// Returns SN, the number of the subtitle.
    pub fn sn(&self) -> u16
        ensures { result ≡ self.now.sn }
    {
        self.sn
    }

    /// Returns TCI, the time code of the first frame at which the subtitle is shown.
    pub fn tci(&self) -> TimeCode
        ensures value { result ≡ self.now.tci }
        ensures is { IsSubtitle self.now }
    {
        self.tci
    }

    /// Returns TCO, the time code of the first frame at which the subtitle is no longer shown.
    pub fn tco(&self) -> TimeCode
        ensures value { result ≡ self.now.tco }
        ensures is { IsSubtitle self.now }
    {
        self.tco
    }

    /// Returns VP, the vertical position: the row of the subtitle's first line, 1 to 23.
    pub fn vp(&self) -> u8
        ensures value { result ≡ self.now.vp }
        ensures is { IsSubtitle self.now }
    {
        self.vp
    }

    /// Returns JC, the justification code: 0 unchanged, 1 left, 2 centred, 3 right.
    pub fn jc(&self) -> u8
        ensures value { result ≡ self.now.jc }
        ensures is { IsSubtitle self.now }
    {
        self.jc
    }

    /// Returns the text of all blocks of the subtitle in the file's code, at most 1008 bytes.
    pub fn text(&self) -> &[u8]
        ensures value { result.now ≡ self.now.text }
        ensures is { IsSubtitle self.now }
    {
        self.text.as_slice()
    }

    /// Creates a subtitle without text, in row 1 at frame 0 of the day, into which a reader can
    /// read subtitles.
    pub fn empty() -> Subtitle
        ensures { result ≡ empty_subtitle }
    {
        Subtitle {
            sgn: 0,
            sn: 0,
            tci: TimeCode::of_frame(0),
            tco: TimeCode::of_frame(1),
            vp: 1,
            jc: 0,
            text: ArrayVec::new(),
        }
    }

    // Replaces the contents by the subtitle that starts with `block`, with the text of that block,
    // or returns the first fault in CS, JC, VP, TCI and TCO of `block`.
    #[tactic(auto, unfolding(crate::specs::Reading::subtitle_of_first_block))]
    pub(crate) fn begin(&mut self, block: &Tti) -> Result<(), StlFault>
        ensures ok { OnOk result (subtitle_of_first_block block.now ≡ Ok self.new) }
        ensures err { IfErr result (λ fault. subtitle_of_first_block block.now ≡ Err fault) }
        ensures room { OnOk result (length self.new.text ≤ 112) }
        ensures own { IfErr result (λ fault. is_block_fault fault ≡ true) }
    {
        if block.cs() != 0 {
            return Err(StlFault::Cumulative);
        }
        let jc = block.jc();
        if jc > 3 {
            return Err(StlFault::Justify);
        }
        let vp = block.vp();
        if vp < 1 || vp > 23 {
            return Err(StlFault::Row);
        }
        let tci = parse_time_code(block.tci())?;
        let tco = parse_time_code(block.tco())?;
        if tci.frame() >= tco.frame() {
            return Err(StlFault::EmptyTime);
        }
        self.sgn = block.sgn();
        self.sn = block.sn();
        self.tci = tci;
        self.tco = tco;
        self.vp = vp;
        self.jc = jc;
        self.text.clear();
        push_text(&mut self.text, block.tf());
        Ok(())
    }

    // Replaces the contents by the skipped subtitle that starts with `block`.
    pub(crate) fn begin_skipped(&mut self, block: &Tti)
        ensures { self.new ≡ record empty_subtitle { sgn = sgn block.now; sn = sn block.now } }
    {
        *self = Subtitle::empty();
        self.sgn = block.sgn();
        self.sn = block.sn();
    }

    // Appends the text of `block`, a later block of the subtitle.
    pub(crate) fn extend(&mut self, block: &Tti)
        requires { length self.old.text + 112 ≤ 1008 }
        ensures text { self.new ≡ record self.old {
          text = self.old.text ++ text_of_block
              block.now;
        } }
        ensures room { length self.new.text ≤ length self.old.text + 112 }
    {
        push_text(&mut self.text, block.tf());
    }

    // Returns whether `block` has the subtitle's SGN and SN.
    pub(crate) fn has_numbers_of(&self, block: &Tti) -> bool
        ensures { result ≡ ((sgn block.now == self.now.sgn) && (sn block.now == self.now.sn)) }
    {
        block.sgn() == self.sgn && block.sn() == self.sn
    }
}

// Returns the time code of the four bytes of TCI or TCO, or the fault `Time`.
fn parse_time_code(bytes: [u8; 4]) -> Result<TimeCode, StlFault>
    ensures valid_time { is_valid_time_field bytes ≡ is_ok result }
    ensures value { IfOk result (λ time. frame_from_bytes bytes ≡ time) }
    ensures fault { IfErr result (λ fault. fault ≡ Time) }
{
    TimeCode::from_bytes(bytes).ok_or(StlFault::Time)
}

// Returns whether a text contains no unused space (8F).
fn has_no_unused_byte(text: &[u8]) -> bool
    ensures { result ≡ has_no_unused_space text.now }
{
    for byte in text {
        if *byte == 0x8f {
            return false;
        }
    }
    true
}

// Appends the bytes of a text field before the first unused space to a text.
#[tactic(auto, using(crate::proofs::SubtitleLemmas::cleaned))]
fn push_text(text: &mut ArrayVec<u8, 1008>, field: &[u8])
    requires { length text.old.items + length field.now ≤ 1008 }
    ensures items { text.new.items ≡ text.old.items ++ bytes_before_unused_space field.now }
    ensures room { length text.new.items ≤ length text.old.items + length field.now }
    ensures clean { has_no_unused_space text.old.items ≡ true → has_no_unused_space text.new.items ≡
        true }
{
    let (used, _) = field.split_at(used_length(field));
    push_all(text, used);
}

// Returns the number of bytes of a text field before the first unused space.
#[tactic(auto, using(crate::proofs::SubtitleLemmas::used))]
fn used_length(field: &[u8]) -> usize
    ensures within { result ≤ length field.now }
    ensures used { take result field.now ≡ bytes_before_unused_space field.now }
{
    for at in 0..field.len() {
        if field[at] == 0x8f {
            return at;
        }
    }
    field.len()
}

fn push_all(text: &mut ArrayVec<u8, 1008>, bytes: &[u8])
    requires { length text.old.items + length bytes.now ≤ 1008 }
    ensures { text.new.items ≡ text.old.items ++ bytes.now }
{
    let added = text.try_extend_from_slice(bytes);
    prove!(added.is_ok());
}
