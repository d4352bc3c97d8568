//! Parses the options that select PES packets: `--pid P`, `--packet-size S` and `--pes I-J`.
ghost use Rattle.std.specs.Prelude.{◌≡◌, ◌<◌, ◌^◌, IfSome, option_map};
ghost use Rattle.std.specs.Char.{is_ascii_hexdigit};
ghost use Rattle.std.specs.List.{list_all};
ghost use Rattle.sub_words.specs.PesTexts.{texts_around_dash, digits_after_0x};
ghost use Rattle.sub_words.specs.PesTexts.{number_of_hex_digits};
ghost use Rattle.sub_words.specs.PesTexts.{packet_size_of_text, pid_of_text, range_of_text};

use crate::numbers::parse_number;
use mpeg_ts::{PacketSize, Pid};
use ttx_pes::PesPacketRange;

/// Parses a PID: one to ten decimal digits, or `0x` and one to eight hexadecimal digits in either
/// case; 0 to 8190.
///
/// Returns `None` for any other text.
#[tactic(auto, unfolding(crate::specs::PesTexts::pid_of_text))]
pub fn parse_pid(text: &str) -> Option<Pid>
    ensures { result ≡ pid_of_text text.now }
{
    let number = match digits_after_0x(text) {
        Some(digits) => parse_hex_digits(digits)?,
        None => parse_number(text)?,
    };
    Pid::new(u16::try_from(number).ok()?)
}

// Returns the text after a leading `0x`, or `None` if the text does not begin with `0x`.
fn digits_after_0x(text: &str) -> Option<&str>
    ensures { option_map (λ x. x.now) result ≡ digits_after_0x text.now }
{
    text.strip_prefix("0x")
}

// Parses one to eight hexadecimal digits as a number. Returns `None` for any other text.
#[tactic(auto, unfolding(crate::specs::PesTexts::number_of_hex_digits))]
fn parse_hex_digits(text: &str) -> Option<u64>
    ensures value { result ≡ number_of_hex_digits text.now }
    ensures small { IfSome result (λ n. n < 2 ^ 32) }
{
    let digits = text.as_bytes();
    if digits.len() < 1 || digits.len() > 8 || !are_hex_digits(digits) {
        return None;
    }
    u64::from_str_radix(text, 16).ok()
}

fn are_hex_digits(bytes: &[u8]) -> bool
    ensures { result ≡ list_all is_ascii_hexdigit bytes.now }
{
    bytes.iter().all(|byte| byte.is_ascii_hexdigit())
}

/// Parses a packet size: `188`, `192` or `204`. Returns `None` for any other text.
#[tactic(auto, unfolding(crate::specs::PesTexts::packet_size_of_text))]
pub fn parse_packet_size(text: &str) -> Option<PacketSize>
    ensures { result ≡ packet_size_of_text text.now }
{
    match text {
        "188" => Some(PacketSize::Plain),
        "192" => Some(PacketSize::TimeStamped),
        "204" => Some(PacketSize::ErrorCorrected),
        _ => None,
    }
}

/// Parses a range of PES packets: `I-J`, the numbers of the first and of the last, each of one to
/// ten decimal digits and I at most J; or `I-`, to the end of the file.
///
/// Returns `None` for any other text.
#[tactic(auto, unfolding(crate::specs::PesTexts::range_of_text))]
pub fn parse_range(text: &str) -> Option<PesPacketRange>
    ensures { result ≡ range_of_text text.now }
{
    let (first, last) = texts_around_dash(text)?;
    let first = parse_number(first)?;
    if last.is_empty() {
        return PesPacketRange::new(first, None);
    }
    let last = parse_number(last)?;
    PesPacketRange::new(first, Some(last))
}

// Returns the texts before and after the first dash, or `None` if the text has no dash.
fn texts_around_dash(text: &str) -> Option<(&str, &str)>
    ensures { option_map (λ x. (x.0.now, x.1.now)) result ≡ texts_around_dash text.now }
{
    text.split_once('-')
}
