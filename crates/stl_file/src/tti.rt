//! TTI blocks (EBU Tech 3264), stored as the bytes that were read.

ghost use Rattle.std.specs.Prelude.{◌≡◌, ◌+◌, ◌≤◌, length};
ghost use Rattle.stl_file.specs.Gsi.{field};
ghost use Rattle.stl_file.specs.Tti.{cf, cs, ebn, jc, sgn, sn, tci, tco, tf, vp};

use byteorder::{ByteOrder, LittleEndian};
use std::marker::Model;

/// A TTI block with arbitrary bytes. The model is the list of the block's 128 bytes.
#[derive(Clone, Copy)]
pub struct Tti {
    bytes: [u8; 128],
}

impl Model for Tti {
    ghost use Rattle.std.specs.Prelude.{ℕ, List, ◌≡◌, length};

    ghost Value = { List ℕ };

    ghost view = { λ t. t.bytes };

    ghost invariant = { λ t. length t.bytes ≡ 128 };

    ghost inverse = { λ b. record { bytes = b } };
}

impl Tti {
    /// Creates a TTI block from any 128 bytes.
    pub fn of_bytes(bytes: &[u8; 128]) -> Tti
        ensures { result ≡ bytes.now }
    {
        Tti { bytes: *bytes }
    }

    /// Returns the 128 bytes of the TTI block.
    pub fn block_bytes(&self) -> [u8; 128]
        ensures { result ≡ self.now }
    {
        self.bytes
    }

    /// Returns the TTI field SGN, the subtitle group number.
    pub fn sgn(&self) -> u8
        ensures { result ≡ sgn self.now }
    {
        self.bytes[0]
    }

    /// Returns the TTI field SN, the subtitle number, low byte first.
    pub fn sn(&self) -> u16
        ensures { result ≡ sn self.now }
    {
        let (_, number) = self.bytes.split_at(1);
        LittleEndian::read_u16(number)
    }

    /// Returns the TTI field EBN, the extension block number: FF for the last block of a subtitle,
    /// FE for user data.
    pub fn ebn(&self) -> u8
        ensures { result ≡ ebn self.now }
    {
        self.bytes[3]
    }

    /// Returns the TTI field CS, the cumulative status: 0 for a subtitle that is not part of a
    /// cumulative set.
    pub fn cs(&self) -> u8
        ensures { result ≡ cs self.now }
    {
        self.bytes[4]
    }

    /// Returns the TTI field TCI, the time code in: hours, minutes, seconds and frames.
    pub fn tci(&self) -> [u8; 4]
        ensures { result ≡ tci self.now }
    {
        self.time_at(5)
    }

    /// Returns the TTI field TCO, the time code out: hours, minutes, seconds and frames.
    pub fn tco(&self) -> [u8; 4]
        ensures { result ≡ tco self.now }
    {
        self.time_at(9)
    }

    fn time_at(&self, at: usize) -> [u8; 4]
        requires { at + 4 ≤ 128 }
        ensures { result ≡ field at 4 self.now }
    {
        let mut time = [0; 4];
        time.copy_from_slice(&self.bytes[at..at + 4]);
        time
    }

    /// Returns the TTI field VP, the vertical position: the row of the first line.
    pub fn vp(&self) -> u8
        ensures { result ≡ vp self.now }
    {
        self.bytes[13]
    }

    /// Returns the TTI field JC, the justification code: 0 unchanged, 1 left, 2 centred, 3 right.
    pub fn jc(&self) -> u8
        ensures { result ≡ jc self.now }
    {
        self.bytes[14]
    }

    /// Returns the TTI field CF, the comment flag: 0 subtitle, 1 comment.
    pub fn cf(&self) -> u8
        ensures { result ≡ cf self.now }
    {
        self.bytes[15]
    }

    /// Returns the TTI field TF, the text field: 112 bytes.
    pub fn tf(&self) -> &[u8]
        ensures value { result.now ≡ tf self.now }
        ensures size { length result.now ≡ 112 }
    {
        let (_, field) = self.bytes.split_at(16);
        field
    }
}
