//! Parses the bits to flip: `P:B:K`, the numbers of the packet, of the byte, 0 to 41, and of the
//! bit, 1 to 8, each of one to ten decimal digits.
ghost use Rattle.std.specs.Prelude.{◌≡◌, ◌==◌, option_map, slice_get};
ghost use Rattle.std.specs.List.{slice_split};
ghost use Rattle.sub_words.specs.Texts.{colon, flip_of_text, is_same_byte};

use crate::lists::Item;
use crate::numbers::parse_number;
use sub_request::Flip;

impl Item for Flip {
    ghost parsed = { flip_of_text };

    ghost same = { is_same_byte };

    #[tactic(auto, unfolding(crate::specs::Texts::flip_of_text))]
    fn read(text: &str) -> Option<Flip> {
        let packet = parse_number(nth_field(text, 0)?)?;
        let byte = parse_number(nth_field(text, 1)?)?;
        let bit = parse_number(nth_field(text, 2)?)?;
        if nth_field(text, 3).is_some() || byte > 41 || bit < 1 || bit > 8 {
            return None;
        }
        let (byte, bit) = (byte as u8, bit as u8);
        Some(Flip { packet, byte, bit })
    }

    fn is_same(&self, other: &Flip) -> bool {
        self.packet == other.packet && self.byte == other.byte
    }
}

// Returns part `number` of a text that is split at its colons, counted from 0.
fn nth_field(text: &str, number: usize) -> Option<&str>
    ensures { option_map (λ x. x.now) result
        ≡ slice_get (slice_split (λ c. c == colon) text.now) number }
{
    text.split(':').nth(number)
}
