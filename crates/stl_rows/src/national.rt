//! National options: the character sets of Teletext pages.

ghost use Rattle.std.specs.Prelude.{◌≡◌, ◌↔◌, Some, option_map};
ghost use Rattle.std.specs.List.{find};
ghost use Rattle.std.specs.Str.{bytes_eq};
ghost use Rattle.stl_rows.specs.declared.sub_sets.SubSet.{SubSet};
ghost use Rattle.stl_rows.specs.SubSets.{cell_of_character, is_encoded_by, named_option};
ghost use Rattle.stl_rows.specs.SubSets.{sub_set};

use crate::sub_sets::{NationalCharacter, SUB_SETS, SubSet};

/// A national option character sub-set of EN 300 706 (header bits C12 to C14), and with it the
/// character set for reading texts. Each option is named after one of its languages.
#[derive(Clone, Copy, Debug, PartialEq, Eq)]
pub enum National {
    /// The sub-set for English.
    English,
    /// The sub-set for German.
    German,
    /// The sub-set for Swedish, Finnish and Hungarian.
    Swedish,
    /// The sub-set for Italian.
    Italian,
    /// The sub-set for French.
    French,
    /// The sub-set for Portuguese and Spanish.
    Spanish,
    /// The sub-set for Czech and Slovak.
    Czech,
    /// The sub-set for Polish.
    Polish,
    /// The sub-set for Turkish.
    Turkish,
    /// The sub-set for Croatian, Slovenian and Serbian in Latin letters.
    Croatian,
    /// The sub-set for Romanian.
    Romanian,
    /// The sub-set for Estonian.
    Estonian,
    /// The sub-set for Lithuanian and Latvian.
    Lithuanian,
}

/// The control bits C12 to C14 of a page header, which select the page's national option character
/// sub-set.
#[derive(Clone, Copy, Debug, PartialEq, Eq)]
pub struct NationalBits {
    /// C12, the first bit of the national option.
    pub c12: bool,
    /// C13, the second bit of the national option.
    pub c13: bool,
    /// C14, the third bit of the national option.
    pub c14: bool,
}

impl National {
    /// Parses the name of a national option, which is that of its variant in lower case, such as
    /// `english`. Returns `None` for any other text.
    pub fn parse(text: &str) -> Option<National>
        ensures value { result ≡ named_option text.now }
        ensures words { (n : National) → (result ≡ Some n) ↔ (text.now ≡ (sub_set n).word) }
    {
        find_option(&SUB_SETS, text)
    }

    /// Returns C12, C13 and C14 for the page headers of this national option.
    #[tactic(auto, unfolding(crate::specs::SubSets::sub_set))]
    pub fn bits(self) -> NationalBits
        ensures { result ≡ (sub_set self).bits }
    {
        SUB_SETS[self as usize].bits
    }

    /// Returns the characters of the national option, by their places in the code table.
    #[tactic(auto, unfolding(crate::specs::SubSets::sub_set))]
    pub(crate) fn characters(self) -> &'static [NationalCharacter]
        ensures { result.now ≡ (sub_set self).characters }
    {
        SUB_SETS[self as usize].characters
    }
}

impl NationalCharacter {
    // Returns whether the character has this byte, and this diacritical mark or none.
    #[tactic(auto, unfolding(crate::specs::SubSets::is_encoded_by))]
    fn is_encoded_by(&self, mark: Option<u8>, byte: u8) -> bool
        ensures { result ≡ is_encoded_by mark byte self.now }
    {
        self.byte == byte && self.mark == mark
    }
}

// Returns the national option of the first row of the table whose name is `text`, or `None` if no
// row has this name.
fn find_option(rows: &[SubSet], text: &str) -> Option<National>
    ensures { result ≡ option_map (λ (r : SubSet). r.national)
        (find (λ (r : SubSet). bytes_eq r.word.now text.now) rows.now) }
{
    for row in rows {
        if row.word == text {
            return Some(row.national);
        }
    }
    None
}

/// Returns the cell of the character with this byte and this diacritical mark, or none. Returns
/// `None` if no character matches.
pub(crate) fn cell_of_character(
    characters: &[NationalCharacter],
    mark: Option<u8>,
    byte: u8,
) -> Option<u8>
    ensures { result ≡ cell_of_character characters.now mark byte }
{
    for character in characters {
        if character.is_encoded_by(mark, byte) {
            return Some(character.cell);
        }
    }
    None
}
