//! Parses the decimal numbers in options.
ghost use Rattle.std.specs.Prelude.{◌≡◌, ◌<◌, ◌^◌, ◌==◌, IfSome};
ghost use Rattle.std.specs.Char.{is_ascii_digit};
ghost use Rattle.std.specs.List.{list_all};
ghost use Rattle.sub_words.specs.Texts.{number_of_text};

use crate::lists::Item;

/// Parses a number: one to ten decimal digits, with leading zeros allowed.
///
/// Returns `None` for any other text.
#[tactic(auto, unfolding(crate::specs::Texts::number_of_text))]
pub fn parse_number(text: &str) -> Option<u64>
    ensures value { result ≡ number_of_text text.now }
    ensures small { IfSome result (λ n. n < 10 ^ 10) }
{
    let digits = text.as_bytes();
    if digits.len() < 1 || digits.len() > 10 || !are_digits(digits) {
        return None;
    }
    text.parse().ok()
}

fn are_digits(bytes: &[u8]) -> bool
    ensures { result ≡ list_all is_ascii_digit bytes.now }
{
    bytes.iter().all(|byte| byte.is_ascii_digit())
}

impl Item for u64 {
    ghost parsed = { number_of_text };

    ghost same = { λ a b. a == b };

    fn read(text: &str) -> Option<u64> {
        parse_number(text)
    }

    fn is_same(&self, other: &u64) -> bool {
        *self == *other
    }
}
