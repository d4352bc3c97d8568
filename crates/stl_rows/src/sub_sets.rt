//! The table of the national options, one row each.
//!
//! The code table of level 1 (EN 300 706) has 13 places for a national option. The table has the
//! sub-sets of the default region, 0000, one for each value of C12 to C14 but 1 1 1, which is
//! reserved there, and the Latin sub-sets of other regions. A header does not name the region: C12
//! to C14 choose a sub-set within the region to which a receiver is set.

use crate::national::{National, NationalBits};

/// A character of a national option: its place in the code table, and its bytes in a text (EBU Tech
/// 3264, code table 00, which is Latin and has the bytes of ISO 6937).
#[derive(Clone, Copy, Debug)]
pub(crate) struct NationalCharacter {
    /// The code of the character's cell on a page.
    pub(crate) cell: u8,
    /// The diacritical mark before the byte of the character, if any.
    pub(crate) mark: Option<u8>,
    /// The byte of the character; after a diacritical mark, the byte of the letter.
    pub(crate) byte: u8,
}

/// A row of the table of national options.
#[derive(Clone, Copy, Debug)]
pub(crate) struct SubSet {
    /// The national option of the row.
    pub(crate) national: National,
    /// The name of the national option.
    pub(crate) word: &'static str,
    /// The control bits C12, C13 and C14 of the option's page headers.
    pub(crate) bits: NationalBits,
    /// The characters of the option, by their places in the code table. A place that is missing
    /// cannot be reached by any text.
    pub(crate) characters: &'static [NationalCharacter],
}

/// The table of national options, in the order of `National`. The prover computes the table and
/// compares it with the definition.
///
/// Both 24 and A4 are read as the dollar sign, since editions of the code table differ and files in
/// use have both. In a sub-set without a dollar sign, neither byte is accepted.
#[rattlefmt::skip]
pub(crate) const SUB_SETS: [SubSet; 13] = [
    SubSet {
        national: National::English,
        word: "english",
        bits: NationalBits { c12: false, c13: false, c14: false },
        characters: &[
            NationalCharacter { cell: 0x23, mark: None, byte: 0xA3 },       // £
            NationalCharacter { cell: 0x24, mark: None, byte: 0x24 },       // $
            NationalCharacter { cell: 0x24, mark: None, byte: 0xA4 },       // $
            NationalCharacter { cell: 0x40, mark: None, byte: 0x40 },       // @
            NationalCharacter { cell: 0x5F, mark: None, byte: 0x23 },       // #
        ],
    },
    SubSet {
        national: National::German,
        word: "german",
        bits: NationalBits { c12: false, c13: false, c14: true },
        characters: &[
            NationalCharacter { cell: 0x23, mark: None, byte: 0x23 },       // #
            NationalCharacter { cell: 0x24, mark: None, byte: 0x24 },       // $
            NationalCharacter { cell: 0x24, mark: None, byte: 0xA4 },       // $
            NationalCharacter { cell: 0x40, mark: None, byte: 0xA7 },       // §
            NationalCharacter { cell: 0x5B, mark: Some(0xC8), byte: 0x41 }, // Ä
            NationalCharacter { cell: 0x5C, mark: Some(0xC8), byte: 0x4F }, // Ö
            NationalCharacter { cell: 0x5D, mark: Some(0xC8), byte: 0x55 }, // Ü
            NationalCharacter { cell: 0x60, mark: None, byte: 0xB0 },       // °
            NationalCharacter { cell: 0x7B, mark: Some(0xC8), byte: 0x61 }, // ä
            NationalCharacter { cell: 0x7C, mark: Some(0xC8), byte: 0x6F }, // ö
            NationalCharacter { cell: 0x7D, mark: Some(0xC8), byte: 0x75 }, // ü
            NationalCharacter { cell: 0x7E, mark: None, byte: 0xFB },       // ß
        ],
    },
    SubSet {
        national: National::Swedish,
        word: "swedish",
        bits: NationalBits { c12: false, c13: true, c14: false },
        characters: &[
            NationalCharacter { cell: 0x23, mark: None, byte: 0x23 },       // #
            NationalCharacter { cell: 0x24, mark: None, byte: 0xA8 },       // ¤
            NationalCharacter { cell: 0x40, mark: Some(0xC2), byte: 0x45 }, // É
            NationalCharacter { cell: 0x5B, mark: Some(0xC8), byte: 0x41 }, // Ä
            NationalCharacter { cell: 0x5C, mark: Some(0xC8), byte: 0x4F }, // Ö
            NationalCharacter { cell: 0x5D, mark: Some(0xCA), byte: 0x41 }, // Å
            NationalCharacter { cell: 0x5E, mark: Some(0xC8), byte: 0x55 }, // Ü
            NationalCharacter { cell: 0x5F, mark: None, byte: 0x5F },       // _
            NationalCharacter { cell: 0x60, mark: Some(0xC2), byte: 0x65 }, // é
            NationalCharacter { cell: 0x7B, mark: Some(0xC8), byte: 0x61 }, // ä
            NationalCharacter { cell: 0x7C, mark: Some(0xC8), byte: 0x6F }, // ö
            NationalCharacter { cell: 0x7D, mark: Some(0xCA), byte: 0x61 }, // å
            NationalCharacter { cell: 0x7E, mark: Some(0xC8), byte: 0x75 }, // ü
        ],
    },
    SubSet {
        national: National::Italian,
        word: "italian",
        bits: NationalBits { c12: false, c13: true, c14: true },
        characters: &[
            NationalCharacter { cell: 0x23, mark: None, byte: 0xA3 },       // £
            NationalCharacter { cell: 0x24, mark: None, byte: 0x24 },       // $
            NationalCharacter { cell: 0x24, mark: None, byte: 0xA4 },       // $
            NationalCharacter { cell: 0x40, mark: Some(0xC2), byte: 0x65 }, // é
            NationalCharacter { cell: 0x5B, mark: None, byte: 0xB0 },       // °
            NationalCharacter { cell: 0x5C, mark: Some(0xCB), byte: 0x63 }, // ç
            NationalCharacter { cell: 0x5D, mark: None, byte: 0xAE },       // →
            NationalCharacter { cell: 0x5E, mark: None, byte: 0xAD },       // ↑
            NationalCharacter { cell: 0x5F, mark: None, byte: 0x23 },       // #
            NationalCharacter { cell: 0x60, mark: Some(0xC1), byte: 0x75 }, // ù
            NationalCharacter { cell: 0x7B, mark: Some(0xC1), byte: 0x61 }, // à
            NationalCharacter { cell: 0x7C, mark: Some(0xC1), byte: 0x6F }, // ò
            NationalCharacter { cell: 0x7D, mark: Some(0xC1), byte: 0x65 }, // è
            NationalCharacter { cell: 0x7E, mark: Some(0xC1), byte: 0x69 }, // ì
        ],
    },
    SubSet {
        national: National::French,
        word: "french",
        bits: NationalBits { c12: true, c13: false, c14: false },
        characters: &[
            NationalCharacter { cell: 0x23, mark: Some(0xC2), byte: 0x65 }, // é
            NationalCharacter { cell: 0x24, mark: Some(0xC8), byte: 0x69 }, // ï
            NationalCharacter { cell: 0x40, mark: Some(0xC1), byte: 0x61 }, // à
            NationalCharacter { cell: 0x5B, mark: Some(0xC8), byte: 0x65 }, // ë
            NationalCharacter { cell: 0x5C, mark: Some(0xC3), byte: 0x65 }, // ê
            NationalCharacter { cell: 0x5D, mark: Some(0xC1), byte: 0x75 }, // ù
            NationalCharacter { cell: 0x5E, mark: Some(0xC3), byte: 0x69 }, // î
            NationalCharacter { cell: 0x5F, mark: None, byte: 0x23 },       // #
            NationalCharacter { cell: 0x60, mark: Some(0xC1), byte: 0x65 }, // è
            NationalCharacter { cell: 0x7B, mark: Some(0xC3), byte: 0x61 }, // â
            NationalCharacter { cell: 0x7C, mark: Some(0xC3), byte: 0x6F }, // ô
            NationalCharacter { cell: 0x7D, mark: Some(0xC3), byte: 0x75 }, // û
            NationalCharacter { cell: 0x7E, mark: Some(0xCB), byte: 0x63 }, // ç
        ],
    },
    SubSet {
        national: National::Spanish,
        word: "spanish",
        bits: NationalBits { c12: true, c13: false, c14: true },
        characters: &[
            NationalCharacter { cell: 0x23, mark: Some(0xCB), byte: 0x63 }, // ç
            NationalCharacter { cell: 0x24, mark: None, byte: 0x24 },       // $
            NationalCharacter { cell: 0x24, mark: None, byte: 0xA4 },       // $
            NationalCharacter { cell: 0x40, mark: None, byte: 0xA1 },       // ¡
            NationalCharacter { cell: 0x5B, mark: Some(0xC2), byte: 0x61 }, // á
            NationalCharacter { cell: 0x5C, mark: Some(0xC2), byte: 0x65 }, // é
            NationalCharacter { cell: 0x5D, mark: Some(0xC2), byte: 0x69 }, // í
            NationalCharacter { cell: 0x5E, mark: Some(0xC2), byte: 0x6F }, // ó
            NationalCharacter { cell: 0x5F, mark: Some(0xC2), byte: 0x75 }, // ú
            NationalCharacter { cell: 0x60, mark: None, byte: 0xBF },       // ¿
            NationalCharacter { cell: 0x7B, mark: Some(0xC8), byte: 0x75 }, // ü
            NationalCharacter { cell: 0x7C, mark: Some(0xC4), byte: 0x6E }, // ñ
            NationalCharacter { cell: 0x7D, mark: Some(0xC1), byte: 0x65 }, // è
            NationalCharacter { cell: 0x7E, mark: Some(0xC1), byte: 0x61 }, // à
        ],
    },
    SubSet {
        national: National::Czech,
        word: "czech",
        bits: NationalBits { c12: true, c13: true, c14: false },
        characters: &[
            NationalCharacter { cell: 0x23, mark: None, byte: 0x23 },       // #
            NationalCharacter { cell: 0x24, mark: Some(0xCA), byte: 0x75 }, // ů
            NationalCharacter { cell: 0x40, mark: Some(0xCF), byte: 0x63 }, // č
            NationalCharacter { cell: 0x5B, mark: Some(0xCF), byte: 0x74 }, // ť
            NationalCharacter { cell: 0x5C, mark: Some(0xCF), byte: 0x7A }, // ž
            NationalCharacter { cell: 0x5D, mark: Some(0xC2), byte: 0x79 }, // ý
            NationalCharacter { cell: 0x5E, mark: Some(0xC2), byte: 0x69 }, // í
            NationalCharacter { cell: 0x5F, mark: Some(0xCF), byte: 0x72 }, // ř
            NationalCharacter { cell: 0x60, mark: Some(0xC2), byte: 0x65 }, // é
            NationalCharacter { cell: 0x7B, mark: Some(0xC2), byte: 0x61 }, // á
            NationalCharacter { cell: 0x7C, mark: Some(0xCF), byte: 0x65 }, // ě
            NationalCharacter { cell: 0x7D, mark: Some(0xC2), byte: 0x75 }, // ú
            NationalCharacter { cell: 0x7E, mark: Some(0xCF), byte: 0x73 }, // š
        ],
    },
    SubSet {
        national: National::Polish,
        word: "polish",
        bits: NationalBits { c12: false, c13: false, c14: false },
        characters: &[
            NationalCharacter { cell: 0x23, mark: None, byte: 0x23 },       // #
            NationalCharacter { cell: 0x24, mark: Some(0xC2), byte: 0x6E }, // ń
            NationalCharacter { cell: 0x40, mark: Some(0xCE), byte: 0x61 }, // ą
            NationalCharacter { cell: 0x5B, mark: Some(0xC7), byte: 0x5A }, // Ż
            NationalCharacter { cell: 0x5C, mark: Some(0xC2), byte: 0x53 }, // Ś
            NationalCharacter { cell: 0x5D, mark: None, byte: 0xE8 },       // Ł
            NationalCharacter { cell: 0x5E, mark: Some(0xC2), byte: 0x63 }, // ć
            NationalCharacter { cell: 0x5F, mark: Some(0xC2), byte: 0x6F }, // ó
            NationalCharacter { cell: 0x60, mark: Some(0xCE), byte: 0x65 }, // ę
            NationalCharacter { cell: 0x7B, mark: Some(0xC7), byte: 0x7A }, // ż
            NationalCharacter { cell: 0x7C, mark: Some(0xC2), byte: 0x73 }, // ś
            NationalCharacter { cell: 0x7D, mark: None, byte: 0xF8 },       // ł
            NationalCharacter { cell: 0x7E, mark: Some(0xC2), byte: 0x7A }, // ź
        ],
    },
    SubSet {
        national: National::Turkish,
        word: "turkish",
        bits: NationalBits { c12: true, c13: true, c14: false },
        characters: &[
            NationalCharacter { cell: 0x24, mark: Some(0xC6), byte: 0x67 }, // ğ
            NationalCharacter { cell: 0x40, mark: Some(0xC7), byte: 0x49 }, // İ
            NationalCharacter { cell: 0x5B, mark: Some(0xCB), byte: 0x53 }, // Ş
            NationalCharacter { cell: 0x5C, mark: Some(0xC8), byte: 0x4F }, // Ö
            NationalCharacter { cell: 0x5D, mark: Some(0xCB), byte: 0x43 }, // Ç
            NationalCharacter { cell: 0x5E, mark: Some(0xC8), byte: 0x55 }, // Ü
            NationalCharacter { cell: 0x5F, mark: Some(0xC6), byte: 0x47 }, // Ğ
            NationalCharacter { cell: 0x60, mark: None, byte: 0xF5 },       // ı
            NationalCharacter { cell: 0x7B, mark: Some(0xCB), byte: 0x73 }, // ş
            NationalCharacter { cell: 0x7C, mark: Some(0xC8), byte: 0x6F }, // ö
            NationalCharacter { cell: 0x7D, mark: Some(0xCB), byte: 0x63 }, // ç
            NationalCharacter { cell: 0x7E, mark: Some(0xC8), byte: 0x75 }, // ü
        ],
    },
    SubSet {
        national: National::Croatian,
        word: "croatian",
        bits: NationalBits { c12: true, c13: false, c14: true },
        characters: &[
            NationalCharacter { cell: 0x23, mark: None, byte: 0x23 },       // #
            NationalCharacter { cell: 0x24, mark: Some(0xC8), byte: 0x45 }, // Ë
            NationalCharacter { cell: 0x40, mark: Some(0xCF), byte: 0x43 }, // Č
            NationalCharacter { cell: 0x5B, mark: Some(0xC2), byte: 0x43 }, // Ć
            NationalCharacter { cell: 0x5C, mark: Some(0xCF), byte: 0x5A }, // Ž
            NationalCharacter { cell: 0x5D, mark: None, byte: 0xE2 },       // Đ
            NationalCharacter { cell: 0x5E, mark: Some(0xCF), byte: 0x53 }, // Š
            NationalCharacter { cell: 0x5F, mark: Some(0xC8), byte: 0x65 }, // ë
            NationalCharacter { cell: 0x60, mark: Some(0xCF), byte: 0x63 }, // č
            NationalCharacter { cell: 0x7B, mark: Some(0xC2), byte: 0x63 }, // ć
            NationalCharacter { cell: 0x7C, mark: Some(0xCF), byte: 0x7A }, // ž
            NationalCharacter { cell: 0x7D, mark: None, byte: 0xF2 },       // đ
            NationalCharacter { cell: 0x7E, mark: Some(0xCF), byte: 0x73 }, // š
        ],
    },
    SubSet {
        national: National::Romanian,
        word: "romanian",
        bits: NationalBits { c12: true, c13: true, c14: true },
        characters: &[
            NationalCharacter { cell: 0x23, mark: None, byte: 0x23 },       // #
            NationalCharacter { cell: 0x24, mark: None, byte: 0xA8 },       // ¤
            NationalCharacter { cell: 0x40, mark: Some(0xCB), byte: 0x54 }, // Ţ
            NationalCharacter { cell: 0x5B, mark: Some(0xC3), byte: 0x41 }, // Â
            NationalCharacter { cell: 0x5C, mark: Some(0xCB), byte: 0x53 }, // Ş
            NationalCharacter { cell: 0x5D, mark: Some(0xC6), byte: 0x41 }, // Ă
            NationalCharacter { cell: 0x5E, mark: Some(0xC3), byte: 0x49 }, // Î
            NationalCharacter { cell: 0x5F, mark: None, byte: 0xF5 },       // ı
            NationalCharacter { cell: 0x60, mark: Some(0xCB), byte: 0x74 }, // ţ
            NationalCharacter { cell: 0x7B, mark: Some(0xC3), byte: 0x61 }, // â
            NationalCharacter { cell: 0x7C, mark: Some(0xCB), byte: 0x73 }, // ş
            NationalCharacter { cell: 0x7D, mark: Some(0xC6), byte: 0x61 }, // ă
            NationalCharacter { cell: 0x7E, mark: Some(0xC3), byte: 0x69 }, // î
        ],
    },
    SubSet {
        national: National::Estonian,
        word: "estonian",
        bits: NationalBits { c12: false, c13: true, c14: false },
        characters: &[
            NationalCharacter { cell: 0x23, mark: None, byte: 0x23 },       // #
            NationalCharacter { cell: 0x24, mark: Some(0xC4), byte: 0x6F }, // õ
            NationalCharacter { cell: 0x40, mark: Some(0xCF), byte: 0x53 }, // Š
            NationalCharacter { cell: 0x5B, mark: Some(0xC8), byte: 0x41 }, // Ä
            NationalCharacter { cell: 0x5C, mark: Some(0xC8), byte: 0x4F }, // Ö
            NationalCharacter { cell: 0x5D, mark: Some(0xCF), byte: 0x5A }, // Ž
            NationalCharacter { cell: 0x5E, mark: Some(0xC8), byte: 0x55 }, // Ü
            NationalCharacter { cell: 0x5F, mark: Some(0xC4), byte: 0x4F }, // Õ
            NationalCharacter { cell: 0x60, mark: Some(0xCF), byte: 0x73 }, // š
            NationalCharacter { cell: 0x7B, mark: Some(0xC8), byte: 0x61 }, // ä
            NationalCharacter { cell: 0x7C, mark: Some(0xC8), byte: 0x6F }, // ö
            NationalCharacter { cell: 0x7D, mark: Some(0xCF), byte: 0x7A }, // ž
            NationalCharacter { cell: 0x7E, mark: Some(0xC8), byte: 0x75 }, // ü
        ],
    },
    SubSet {
        national: National::Lithuanian,
        word: "lithuanian",
        bits: NationalBits { c12: false, c13: true, c14: true },
        characters: &[
            NationalCharacter { cell: 0x23, mark: None, byte: 0x23 },       // #
            NationalCharacter { cell: 0x24, mark: None, byte: 0x24 },       // $
            NationalCharacter { cell: 0x24, mark: None, byte: 0xA4 },       // $
            NationalCharacter { cell: 0x40, mark: Some(0xCF), byte: 0x53 }, // Š
            NationalCharacter { cell: 0x5B, mark: Some(0xC7), byte: 0x65 }, // ė
            NationalCharacter { cell: 0x5C, mark: Some(0xCE), byte: 0x65 }, // ę
            NationalCharacter { cell: 0x5D, mark: Some(0xCF), byte: 0x5A }, // Ž
            NationalCharacter { cell: 0x5E, mark: Some(0xCF), byte: 0x63 }, // č
            NationalCharacter { cell: 0x5F, mark: Some(0xC5), byte: 0x75 }, // ū
            NationalCharacter { cell: 0x60, mark: Some(0xCF), byte: 0x73 }, // š
            NationalCharacter { cell: 0x7B, mark: Some(0xCE), byte: 0x61 }, // ą
            NationalCharacter { cell: 0x7C, mark: Some(0xCE), byte: 0x75 }, // ų
            NationalCharacter { cell: 0x7D, mark: Some(0xCF), byte: 0x7A }, // ž
            NationalCharacter { cell: 0x7E, mark: Some(0xCE), byte: 0x69 }, // į
        ],
    },
];
