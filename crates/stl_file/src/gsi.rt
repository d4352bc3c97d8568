//! GSI blocks (EBU Tech 3264), stored as their 1024 bytes.

ghost use Rattle.std.specs.Prelude.{◌≡◌, ◌+◌, ◌<◌, ◌≤◌, IfErr, IfOk, length, true};
ghost use Rattle.stl_file.specs.Fault.{is_file_format_fault};
ghost use Rattle.stl_file.specs.Gsi.{IsGsiFor, cct, dfc, dsc, field, five_digits, checked_gsi};
ghost use Rattle.stl_file.specs.Gsi.{with_counts};
ghost use Rattle.stl_file.specs.GsiFields.{cd, co, cpn, dsn, ecd, en, lc, mnc, mnr, oet, opt};
ghost use Rattle.stl_file.specs.GsiFields.{publisher, rd, rn, slr, spare, tcd, tcf, tcp, tcs};
ghost use Rattle.stl_file.specs.GsiFields.{tet, tn, tnb, tnd, tng, tns, tpt, uda};

use crate::fault::StlFault;
use std::marker::Model;

/// A GSI block, the first 1024 bytes of a subtitle file: general information on the file. The bytes
/// are not checked. The model is the list of the 1024 bytes.
///
/// The methods named after a field return its bytes unchanged.
#[derive(Clone, Copy)]
pub struct Gsi {
    bytes: [u8; 1024],
}

impl Model for Gsi {
    ghost use Rattle.std.specs.Prelude.{ℕ, List, ◌≡◌, length};

    ghost Value = { List ℕ };

    ghost view = { λ g. g.bytes };

    ghost invariant = { λ g. length g.bytes ≡ 1024 };

    ghost inverse = { λ b. record { bytes = b } };
}

/// The DFC for 25 frames per second.
const STL_25: [u8; 8] = *b"STL25.01";

/// The DFC for 30 frames per second.
const STL_30: [u8; 8] = *b"STL30.01";

/// The CCT for the Latin table.
const LATIN: [u8; 2] = *b"00";

/// Returns a number below 100,000 as five decimal digits in ASCII, as in TNB and TNS.
pub fn five_digits_of(n: u32) -> [u8; 5]
    requires { n < 100000 }
    ensures { result ≡ five_digits n }
{
    [
        b'0' + (n / 10000) as u8,
        b'0' + (n / 1000 % 10) as u8,
        b'0' + (n / 100 % 10) as u8,
        b'0' + (n / 10 % 10) as u8,
        b'0' + (n % 10) as u8,
    ]
}

impl Gsi {
    /// Creates a GSI block from any 1024 bytes.
    pub fn read(bytes: &[u8; 1024]) -> Gsi
        ensures { result ≡ bytes.now }
    {
        Gsi { bytes: *bytes }
    }

    /// Returns the bytes of the GSI block.
    pub fn bytes(&self) -> &[u8; 1024]
        ensures value { result.now ≡ self.now }
        ensures size { length self.now ≡ 1024 }
    {
        &self.bytes
    }

    /// Sets TNB and TNS, the numbers of TTI blocks and of subtitles, to five decimal digits each
    /// with leading zeros. All other bytes are unchanged.
    #[tactic(auto, using(crate::proofs::GsiLemmas::counts_replace_ten_bytes))]
    pub fn set_counts(&mut self, tnb: u32, tns: u32)
        requires blocks { tnb < 100000 }
        requires subtitles { tns < 100000 }
        ensures { self.new ≡ with_counts tnb tns self.old }
    {
        let blocks = five_digits_of(tnb);
        let subtitles = five_digits_of(tns);
        let counts = [
            blocks[0],
            blocks[1],
            blocks[2],
            blocks[3],
            blocks[4],
            subtitles[0],
            subtitles[1],
            subtitles[2],
            subtitles[3],
            subtitles[4],
        ];
        self.bytes[238..248].copy_from_slice(&counts);
    }

    // Returns the GSI block if it is accepted, or else its first fault. If `takes_open` is set,
    // open subtitles and an unspecified display are accepted too.
    #[tactic(auto, unfolding(crate::specs::Gsi::checked_gsi))]
    pub(crate) fn validate(self, takes_open: bool) -> Result<Gsi, StlFault>
        ensures exact { checked_gsi takes_open self ≡ result }
        ensures kind { IfErr result (λ fault. is_file_format_fault fault ≡ true) }
        ensures sound { IfOk result (λ g. (g ≡ self) × IsGsiFor takes_open g) }
    {
        let dfc = self.dfc();
        if dfc != STL_25.as_slice() && dfc != STL_30.as_slice() {
            return Err(StlFault::Format);
        }
        if dfc == STL_30.as_slice() {
            return Err(StlFault::Rate);
        }
        let dsc = self.dsc();
        let is_open = takes_open && (dsc == b'0' || dsc == b' ');
        if dsc != b'1' && dsc != b'2' && !is_open {
            return Err(StlFault::Display);
        }
        if self.cct() != LATIN.as_slice() {
            return Err(StlFault::Alphabet);
        }
        Ok(self)
    }

    fn field_bytes(&self, at: usize, len: usize) -> &[u8]
        requires { at + len ≤ 1024 }
        ensures { result.now ≡ field at len self.now }
    {
        let (_, following) = self.bytes.split_at(at);
        let (prefix, _) = following.split_at(len);
        prefix
    }

    /// Returns the GSI field CPN, the code page number.
    pub fn cpn(&self) -> &[u8]
        ensures { result.now ≡ cpn self.now }
    {
        self.field_bytes(0, 3)
    }

    /// Returns the GSI field DFC, the disk format code: `STL25.01` in a file that is accepted.
    pub fn dfc(&self) -> &[u8]
        ensures { result.now ≡ dfc self.now }
    {
        self.field_bytes(3, 8)
    }

    /// Returns the GSI field DSC, the display standard code: `1` or `2` in a file for Teletext.
    pub fn dsc(&self) -> u8
        ensures { result ≡ dsc self.now }
    {
        self.bytes[11]
    }

    /// Returns the GSI field CCT, the character code table: `00` in a file that is accepted.
    pub fn cct(&self) -> &[u8]
        ensures { result.now ≡ cct self.now }
    {
        self.field_bytes(12, 2)
    }

    /// Returns the GSI field LC, the language code.
    pub fn lc(&self) -> &[u8]
        ensures { result.now ≡ lc self.now }
    {
        self.field_bytes(14, 2)
    }

    /// Returns the GSI field OPT, the original programme title.
    pub fn opt(&self) -> &[u8]
        ensures { result.now ≡ opt self.now }
    {
        self.field_bytes(16, 32)
    }

    /// Returns the GSI field OET, the original episode title.
    pub fn oet(&self) -> &[u8]
        ensures { result.now ≡ oet self.now }
    {
        self.field_bytes(48, 32)
    }

    /// Returns the GSI field TPT, the translated programme title.
    pub fn tpt(&self) -> &[u8]
        ensures { result.now ≡ tpt self.now }
    {
        self.field_bytes(80, 32)
    }

    /// Returns the GSI field TET, the translated episode title.
    pub fn tet(&self) -> &[u8]
        ensures { result.now ≡ tet self.now }
    {
        self.field_bytes(112, 32)
    }

    /// Returns the GSI field TN, the translator's name.
    pub fn tn(&self) -> &[u8]
        ensures { result.now ≡ tn self.now }
    {
        self.field_bytes(144, 32)
    }

    /// Returns the GSI field TCD, the translator's contact details.
    pub fn tcd(&self) -> &[u8]
        ensures { result.now ≡ tcd self.now }
    {
        self.field_bytes(176, 32)
    }

    /// Returns the GSI field SLR, the subtitle list reference code.
    pub fn slr(&self) -> &[u8]
        ensures { result.now ≡ slr self.now }
    {
        self.field_bytes(208, 16)
    }

    /// Returns the GSI field CD, the creation date, as YYMMDD.
    pub fn cd(&self) -> &[u8]
        ensures { result.now ≡ cd self.now }
    {
        self.field_bytes(224, 6)
    }

    /// Returns the GSI field RD, the revision date, as YYMMDD.
    pub fn rd(&self) -> &[u8]
        ensures { result.now ≡ rd self.now }
    {
        self.field_bytes(230, 6)
    }

    /// Returns the GSI field RN, the revision number.
    pub fn rn(&self) -> &[u8]
        ensures { result.now ≡ rn self.now }
    {
        self.field_bytes(236, 2)
    }

    /// Returns the GSI field TNB, the number of TTI blocks. The value is not compared with the
    /// file.
    pub fn tnb(&self) -> &[u8]
        ensures { result.now ≡ tnb self.now }
    {
        self.field_bytes(238, 5)
    }

    /// Returns the GSI field TNS, the number of subtitles. The value is not compared with the file.
    pub fn tns(&self) -> &[u8]
        ensures { result.now ≡ tns self.now }
    {
        self.field_bytes(243, 5)
    }

    /// Returns the GSI field TNG, the number of subtitle groups.
    pub fn tng(&self) -> &[u8]
        ensures { result.now ≡ tng self.now }
    {
        self.field_bytes(248, 3)
    }

    /// Returns the GSI field MNC, the maximum number of characters in a row.
    pub fn mnc(&self) -> &[u8]
        ensures { result.now ≡ mnc self.now }
    {
        self.field_bytes(251, 2)
    }

    /// Returns the GSI field MNR, the maximum number of rows.
    pub fn mnr(&self) -> &[u8]
        ensures { result.now ≡ mnr self.now }
    {
        self.field_bytes(253, 2)
    }

    /// Returns the GSI field TCS, the time code status.
    pub fn tcs(&self) -> u8
        ensures { result ≡ tcs self.now }
    {
        self.bytes[255]
    }

    /// Returns the GSI field TCP, the time code of the programme's start.
    pub fn tcp(&self) -> &[u8]
        ensures { result.now ≡ tcp self.now }
    {
        self.field_bytes(256, 8)
    }

    /// Returns the GSI field TCF, the time code of the first in-cue.
    pub fn tcf(&self) -> &[u8]
        ensures { result.now ≡ tcf self.now }
    {
        self.field_bytes(264, 8)
    }

    /// Returns the GSI field TND, the number of disks.
    pub fn tnd(&self) -> u8
        ensures { result ≡ tnd self.now }
    {
        self.bytes[272]
    }

    /// Returns the GSI field DSN, the disk sequence number.
    pub fn dsn(&self) -> u8
        ensures { result ≡ dsn self.now }
    {
        self.bytes[273]
    }

    /// Returns the GSI field CO, the country of origin.
    pub fn co(&self) -> &[u8]
        ensures { result.now ≡ co self.now }
    {
        self.field_bytes(274, 3)
    }

    /// Returns the GSI field PUB, the publisher.
    pub fn publisher(&self) -> &[u8]
        ensures { result.now ≡ publisher self.now }
    {
        self.field_bytes(277, 32)
    }

    /// Returns the GSI field EN, the editor's name.
    pub fn en(&self) -> &[u8]
        ensures { result.now ≡ en self.now }
    {
        self.field_bytes(309, 32)
    }

    /// Returns the GSI field ECD, the editor's contact details.
    pub fn ecd(&self) -> &[u8]
        ensures { result.now ≡ ecd self.now }
    {
        self.field_bytes(341, 32)
    }

    /// Returns the spare bytes of the GSI block, 373 to 447.
    pub fn spare(&self) -> &[u8]
        ensures { result.now ≡ spare self.now }
    {
        self.field_bytes(373, 75)
    }

    /// Returns the GSI field UDA, the user-defined area.
    pub fn uda(&self) -> &[u8]
        ensures { result.now ≡ uda self.now }
    {
        self.field_bytes(448, 576)
    }
}
