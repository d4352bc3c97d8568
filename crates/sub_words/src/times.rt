//! Parses the times of `listen` and of the options `--from` and `--to`, and the receiver of
//! `listen`.
ghost use Rattle.std.specs.Prelude.{◌≡◌, ◌+◌, ◌<◌, ◌≤◌, IfSome, length};
ghost use Rattle.stl_file.specs.TimeCode.{day};
ghost use Rattle.sub_words.specs.Texts.{frame_of_text, receiver_of_text, two_digits_at};

use stl_file::TimeCode;
use sub_request::ReceiverKind;

/// Parses the name of a receiver: `blank`, `keep`, `drop` or `anew`. Returns `None` for any other
/// text.
#[tactic(auto, unfolding(crate::specs::Texts::receiver_of_text))]
pub fn parse_receiver(text: &str) -> Option<ReceiverKind>
    ensures { result ≡ receiver_of_text text.now }
{
    match text {
        "blank" => Some(ReceiverKind::Blank),
        "keep" => Some(ReceiverKind::Keep),
        "drop" => Some(ReceiverKind::DropRow),
        "anew" => Some(ReceiverKind::BlankEachHeader),
        _ => None,
    }
}

/// Parses a frame of the day: `HH:MM:SS:FF`, two digits each, at 25 frames per second.
///
/// Returns `None` for any other text, and for an invalid time code.
#[tactic(auto, unfolding(crate::specs::Texts::frame_of_text))]
pub fn parse_time(text: &str) -> Option<u32>
    ensures value { result ≡ frame_of_text text.now }
    ensures day { IfSome result (λ frame. frame < day) }
{
    let text = text.as_bytes();
    if text.len() != 11 || text[2] != b':' || text[5] != b':' || text[8] != b':' {
        return None;
    }
    let hours = two_digits_at(text, 0)?;
    let minutes = two_digits_at(text, 3)?;
    let seconds = two_digits_at(text, 6)?;
    let frames = two_digits_at(text, 9)?;
    let time = TimeCode::new(hours, minutes, seconds, frames)?;
    Some(time.frame())
}

// Returns the value of two decimal digits at a place of a text, or `None` if either is no digit.
#[tactic(auto, unfolding(crate::specs::Texts::two_digits_at))]
fn two_digits_at(text: &[u8], place: usize) -> Option<u8>
    requires { place + 2 ≤ length text.now }
    ensures { result ≡ two_digits_at text.now place }
{
    let tens = text[place];
    let units = text[place + 1];
    if tens.is_ascii_digit() && units.is_ascii_digit() {
        Some(10 * (tens - b'0') + (units - b'0'))
    } else {
        None
    }
}
