//! Parses the option `--layout`.

ghost use Rattle.std.specs.Prelude.{◌≡◌, ◌+◌, ◌<◌, ◌≤◌, ◌∷◌, [], ◌==◌, IfSome, length, option_map};
ghost use Rattle.std.specs.Prelude.{replicate};
ghost use Rattle.std.specs.Prelude.{false};
ghost use Rattle.std.specs.List.{slice_split};
ghost use Rattle.std.specs.Option.{option_map_or};
ghost use Rattle.std.specs.Str.{IsUtf8};
ghost use Rattle.stl_rows.specs.LayoutText.{before_codes_of_text, byte_of_digits};
ghost use Rattle.stl_rows.specs.LayoutText.{places_with_codes, split_at_mark};
ghost use Rattle.stl_rows.specs.LayoutText.{codes_of_text, decimal_digit, items_with_flag};
ghost use Rattle.stl_rows.specs.LayoutText.{hex_digit_value};
ghost use Rattle.stl_rows.specs.LayoutText.{items_with_all};
ghost use Rattle.stl_rows.specs.LayoutText.{items_with_item, layout_of_text, number_within};
ghost use Rattle.stl_rows.specs.LayoutText.{rows_of_text};
ghost use Rattle.stl_rows.specs.LayoutText.{items_with_number, strip_with_bytes, items_with_value};
ghost use Rattle.stl_rows.specs.Layout.{default_items, empty_places};

use crate::layout::{Attribute, Layout, LayoutItems};

// Returns the text before the first `mark`, and the text after it; the whole text and `None` if the
// text has no `mark`.
#[tactic(auto, unfolding(crate::specs::LayoutText::split_at_mark))]
fn split_at_mark(text: &str, mark: char) -> (&str, Option<&str>)
    requires { mark < 128 }
    ensures { (result.0.now, option_map (λ x. x.now) result.1) ≡ split_at_mark mark text.now }
{
    match text.split_once(mark) {
        Some((prefix, following)) => (prefix, Some(following)),
        None => (text, None),
    }
}

// Returns the value of a decimal digit in ASCII, or `None` for any other byte.
fn decimal_digit(byte: u8) -> Option<u8>
    ensures value { result ≡ decimal_digit byte }
    ensures small { IfSome result (λ n. n < 10) }
{
    match byte {
        b'0'..=b'9' => Some(byte - b'0'),
        _ => None,
    }
}

// Parses one or two decimal digits as a number from `least` to `most`. Returns `None` for any other
// text.
#[tactic(auto, unfolding(crate::specs::LayoutText::number_within))]
fn number_within(least: u8, most: u8, text: &[u8]) -> Option<u8>
    ensures { result ≡ number_within least most text.now }
{
    let number = match text.len() {
        1 => decimal_digit(text[0])?,
        2 => {
            let tens = decimal_digit(text[0])?;
            let units = decimal_digit(text[1])?;
            10 * tens + units
        }
        _ => return None,
    };
    if least <= number && number <= most {
        Some(number)
    } else {
        None
    }
}

// Parses the value of the layout item `row`: how many rows down, and how many rows up. Returns
// `None` if the value is not valid.
#[tactic(auto, unfolding(crate::specs::LayoutText::rows_of_text))]
fn rows_of_text(text: &[u8]) -> Option<(u8, u8)>
    ensures { result ≡ rows_of_text text.now }
{
    if !text.is_empty() && text[0] == b'-' {
        let (_, digits) = text.split_at(1);
        let rows_up = number_within(0, 22, digits)?;
        return Some((0, rows_up));
    }
    let rows_down = number_within(0, 22, text)?;
    Some((rows_down, 0))
}

// Returns the value of a hexadecimal digit in ASCII, upper or lower case, or `None` for any other
// byte.
#[tactic(auto, unfolding(crate::specs::LayoutText::hex_digit_value))]
fn hex_digit_value(byte: u8) -> Option<u8>
    ensures value { result ≡ hex_digit_value byte }
    ensures small { IfSome result (λ n. n < 16) }
{
    match byte {
        b'0'..=b'9' => Some(byte - b'0'),
        b'A'..=b'F' => Some(byte - b'A' + 10),
        b'a'..=b'f' => Some(byte - b'a' + 10),
        _ => None,
    }
}

// Returns the byte that two hexadecimal digits describe, or `None` if one of them is no such digit.
fn byte_of_digits(high: u8, low: u8) -> Option<u8>
    ensures { result ≡ byte_of_digits high low }
{
    let high = hex_digit_value(high)?;
    let low = hex_digit_value(low)?;
    Some(16 * high + low)
}

// Parses pairs of hexadecimal digits as spacing attributes, at most `N`. Returns `None` for any
// other text.
fn codes_of_text<const N: usize>(text: &[u8]) -> Option<[Option<Attribute>; N]>
    ensures { result ≡ codes_of_text N text.now }
{
    let mut places = [None; N];
    let mut filled = 0;
    let mut at = 0;
    while at < text.len() {
        if at + 1 == text.len() {
            return None;
        }
        let code = byte_of_digits(text[at], text[at + 1])?;
        let attribute = Attribute::of(code)?;
        if filled == N {
            return None;
        }
        places[filled] = Some(attribute);
        filled += 1;
        at += 2;
    }
    Some(places)
}

// Parses the value of the layout item `strip`: pairs of hexadecimal digits, 00 to 1F, without
// duplicates. Returns `None` for any other text.
fn stripped_of_text(text: &[u8]) -> Option<[bool; 32]>
    ensures { result ≡ strip_with_bytes (replicate 32 false) text.now }
{
    let mut strip = [false; 32];
    let mut at = 0;
    while at < text.len() {
        if at + 1 == text.len() {
            return None;
        }
        let code = byte_of_digits(text[at], text[at + 1])?;
        if code >= 32 || strip[code as usize] {
            return None;
        }
        strip[code as usize] = true;
        at += 2;
    }
    Some(strip)
}

// Parses the value of the layout item `before`: the codes before and after a line's own leading
// codes. Returns `None` if the value is not valid.
#[tactic(auto, unfolding(crate::specs::LayoutText::before_codes_of_text))]
fn before_codes_of_text(text: &str) -> Option<([Option<Attribute>; 6], [Option<Attribute>; 6])>
    ensures { result ≡ before_codes_of_text text.now }
{
    let (ahead, following) = split_at_mark(text, '*');
    let first = codes_of_text::<6>(ahead.as_bytes())?;
    let Some(following) = following else {
        return Some((first, [None; 6]));
    };
    let second = codes_of_text::<6>(following.as_bytes())?;
    if ahead.len() + following.len() <= 12 {
        Some((first, second))
    } else {
        None
    }
}

// Sets the layout item with this name, which takes no value, and returns the item's number; `None`
// if there is no such item.
#[tactic(auto, unfolding(crate::specs::LayoutText::items_with_flag))]
fn set_flag(items: &mut LayoutItems, name: &str) -> Option<usize>
    ensures value { option_map (λ n. (n, items.new)) result ≡ items_with_flag items.old name.now }
    ensures small { IfSome result (λ n. n < 15) }
{
    match name {
        "fit" => {
            items.fit = true;
            Some(0)
        }
        "white" => {
            items.white = true;
            Some(1)
        }
        "trim" => {
            items.trim = true;
            Some(2)
        }
        "text" => {
            items.text = true;
            Some(3)
        }
        "up" => {
            items.up = true;
            Some(4)
        }
        "double" => {
            items.double = true;
            Some(5)
        }
        "pack" => {
            items.pack = true;
            Some(6)
        }
        "last" => {
            items.last = true;
            Some(7)
        }
        _ => None,
    }
}

// Sets the layout item with this name to a decimal value, and returns the item's number; `None` if
// there is no such item or the value is not valid.
#[tactic(auto, unfolding(crate::specs::LayoutText::items_with_number))]
fn set_number(items: &mut LayoutItems, name: &str, value: &[u8]) -> Option<usize>
    ensures value { option_map (λ n. (n, items.new)) result
        ≡ items_with_number items.old name.now value.now }
    ensures small { IfSome result (λ n. n < 15) }
{
    match name {
        "left" => {
            items.left = number_within(0, 39, value)?;
            Some(11)
        }
        "right" => {
            items.right = number_within(0, 39, value)?;
            Some(12)
        }
        "free" => {
            items.free_jc = number_within(1, 3, value)?;
            Some(13)
        }
        "row" => {
            let (rows_down, rows_up) = rows_of_text(value)?;
            items.rows_down = rows_down;
            items.rows_up = rows_up;
            Some(14)
        }
        _ => None,
    }
}

// Sets the layout item with this name to a value, and returns the item's number; `None` if there is
// no item with this name and a value, or the value is not valid.
#[tactic(auto, unfolding(crate::specs::LayoutText::items_with_value))]
fn set_value(items: &mut LayoutItems, name: &str, value: &str) -> Option<usize>
    ensures value { option_map (λ n. (n, items.new)) result
        ≡ items_with_value items.old name.now value.now }
    ensures small { IfSome result (λ n. n < 15) }
{
    match name {
        "strip" => {
            items.strip = stripped_of_text(value.as_bytes())?;
            Some(8)
        }
        "before" => {
            let (ahead, following) = before_codes_of_text(value)?;
            items.ahead = ahead;
            items.following = following;
            Some(9)
        }
        "after" => {
            items.after = codes_of_text::<4>(value.as_bytes())?;
            Some(10)
        }
        _ => set_number(items, name, value.as_bytes()),
    }
}

// Sets the layout item that a text names, and returns the item's number; `None` if the item is not
// valid.
#[tactic(auto, unfolding(crate::specs::LayoutText::items_with_item))]
fn set_item(items: &mut LayoutItems, text: &str) -> Option<usize>
    ensures value { option_map (λ n. (n, items.new)) result ≡ items_with_item items.old text.now }
    ensures small { IfSome result (λ n. n < 15) }
{
    let (name, value) = split_at_mark(text, '=');
    match value {
        Some(value) => set_value(items, name, value),
        None => set_flag(items, name),
    }
}

// Returns the text before the first comma, and the text after it; the whole text and `None` if the
// text has no comma.
fn split_first_item(text: &str) -> (&str, Option<&str>)
    ensures texts { slice_split (λ c. c == 0x2C) text.now ≡ result.0.now
        ∷ option_map_or (λ more. slice_split (λ c. c == 0x2C) more.now) result.1 [] }
    ensures shorter { IfSome result.1 (λ more. length more.now < length text.now) }
    ensures rest_is_utf8 { IfSome result.1 (λ more. IsUtf8 more.now) }
{
    split_at_mark(text, ',')
}

// Parses the items of a layout, without duplicates. Returns `None` for any other text.
fn items_of_text(text: &str) -> Option<LayoutItems>
    ensures { items_with_all default_items (replicate 15 false) (slice_split (λ c. c == 0x2C)
        text.now)
        ≡ result }
{
    let mut items = LayoutItems::new();
    let mut received = [false; 15];
    let mut rest = text;
    'texts: loop {
        let (item, following) = split_first_item(rest);
        let number = set_item(&mut items, item)?;
        if received[number] {
            return None;
        }
        received[number] = true;
        match following {
            Some(more) => rest = more,
            None => return Some(items),
        }
    }
}

impl Layout {
    /// Parses a layout: one or more items, separated by commas, without duplicates. Returns `None`
    /// for any other text.
    ///
    /// The items are `strip=HEX`, `before=HEX` or `before=HEX*HEX`, `after=HEX`, `fit`, `white`,
    /// `trim`, `text`, `up`, `left=N`, `right=N`, `free=N`, `double`, `pack`, `last`, and `row=N`
    /// or `row=-N`.
    #[tactic(auto, unfolding(crate::specs::LayoutText::layout_of_text))]
    pub fn parse(text: &str) -> Option<Layout>
        ensures { result ≡ layout_of_text text.now }
    {
        let items = items_of_text(text)?;
        Some(Layout { items: Some(items) })
    }
}
