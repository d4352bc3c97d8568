//! A borrowed subtitle: either a `Subtitle`, or an element of a `StoredSubtitles`.

ghost use Rattle.std.specs.Prelude.{◌≡◌};
ghost use Rattle.stl_file.specs.Subtitle.{IsSubtitle};

use std::marker::Model;
use stl_file::{Subtitle, TimeCode};

/// The fields of a `Subtitle`, with its text borrowed.
#[derive(Drop)]
pub(crate) struct Record<'a> {
    pub(crate) sgn: u8,
    pub(crate) sn: u16,
    pub(crate) tci: TimeCode,
    pub(crate) tco: TimeCode,
    pub(crate) vp: u8,
    pub(crate) jc: u8,
    pub(crate) text: &'a [u8],
}

impl<'a> Model for Record<'a> {
    ghost use Rattle.stl_file.specs.Subtitle.{IsSubtitle, SubtitleValue};

    ghost Value = { SubtitleValue };

    ghost view = { λ r. record {
      sgn = r.sgn;
      sn = r.sn;
      tci = r.tci;
      tco = r.tco;
      vp = r.vp;
      jc = r.jc;
      text = r.text.now;
    } };

    ghost invariant = { λ r. IsSubtitle (record {
      sgn = r.sgn;
      sn = r.sn;
      tci = r.tci;
      tco = r.tco;
      vp = r.vp;
      jc = r.jc;
      text = r.text.now;
    }) };
}

impl<'a> Record<'a> {
    /// Borrows a `Subtitle`.
    pub(crate) fn of(subtitle: &'a Subtitle) -> Record<'a>
        ensures { result ≡ subtitle.now }
    {
        Record {
            sgn: subtitle.sgn(),
            sn: subtitle.sn(),
            tci: subtitle.tci(),
            tco: subtitle.tco(),
            vp: subtitle.vp(),
            jc: subtitle.jc(),
            text: subtitle.text(),
        }
    }

    /// Copies the borrowed subtitle to a `Subtitle`.
    pub(crate) fn to_subtitle(&self) -> Subtitle
        ensures { result ≡ self.now }
    {
        let made = Subtitle::new(
            self.sgn, self.sn, self.tci, self.tco, self.vp, self.jc, self.text,
        );
        match made {
            Some(subtitle) => subtitle,
            None => unreachable!(),
        }
    }

    /// Returns TCI, the time code of the first frame at which the subtitle is shown.
    pub(crate) fn tci(&self) -> TimeCode
        ensures value { result ≡ self.now.tci }
        ensures is { IsSubtitle self.now }
    {
        self.tci
    }

    /// Returns TCO, the time code of the first frame at which the subtitle is no longer shown.
    pub(crate) fn tco(&self) -> TimeCode
        ensures value { result ≡ self.now.tco }
        ensures is { IsSubtitle self.now }
    {
        self.tco
    }

    /// Returns VP, the vertical position: the row of the subtitle's first line, 1 to 23.
    pub(crate) fn vp(&self) -> u8
        ensures value { result ≡ self.now.vp }
        ensures is { IsSubtitle self.now }
    {
        self.vp
    }

    /// Returns JC, the justification code: 0 unchanged, 1 left, 2 centred, 3 right.
    pub(crate) fn jc(&self) -> u8
        ensures value { result ≡ self.now.jc }
        ensures is { IsSubtitle self.now }
    {
        self.jc
    }

    /// Returns the text of all blocks of the subtitle in the file's code, at most 1008 bytes.
    pub(crate) fn text(&self) -> &'a [u8]
        ensures value { result.now ≡ self.now.text }
        ensures is { IsSubtitle self.now }
    {
        self.text
    }
}
