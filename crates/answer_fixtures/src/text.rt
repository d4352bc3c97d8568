//! Functions for the lines of a text, and for the status that the last line implies.

use sub_answer::Status;

/// Returns the first `count` lines of a text.
pub fn first_lines(text: &[u8], count: usize) -> &[u8] {
    let mut left = count;
    for (place, byte) in text.iter().enumerate() {
        if left == 0 {
            return text.get(..place).unwrap_or(text);
        }
        if *byte == b'\n' {
            left -= 1;
        }
    }
    text
}

/// Returns the status that the last line of a text implies. The status depends on the first word of
/// the line, or on its end if the line counts faults.
pub fn status_of(text: &[u8]) -> Status {
    let mut line = text;
    for (place, byte) in text.iter().enumerate() {
        let rest = text.get(place.saturating_add(1)..).unwrap_or(&[]);
        if *byte == b'\n' && !rest.is_empty() {
            line = rest;
        }
    }
    if line.starts_with(b"refused ") || line.ends_with(b" faults\n") {
        Status::Refused
    } else if line.starts_with(b"fault ") || line.starts_with(b"usage ") {
        Status::Fault
    } else {
        Status::Done
    }
}

/// Returns whether a text is `prefix` followed by `end`.
pub(crate) fn is_concatenation(text: &[u8], prefix: &[u8], end: &[u8]) -> bool {
    text.len() == prefix.len() + end.len() && text.starts_with(prefix) && text.ends_with(end)
}

/// Returns the text at the start of a buffer, without the zeros after it.
pub(crate) fn text_without_zeros(buffer: &[u8]) -> &[u8] {
    for (place, byte) in buffer.iter().enumerate() {
        if *byte == 0 {
            return buffer.get(..place).unwrap_or(buffer);
        }
    }
    buffer
}

/// Returns the text from its first line that is not a `trusted` line.
pub(crate) fn text_after_trusted_lines(text: &[u8]) -> &[u8] {
    let mut reported = text;
    for (place, byte) in text.iter().enumerate() {
        if !reported.starts_with(b"trusted ") {
            return reported;
        }
        if *byte == b'\n' {
            reported = text.get(place.saturating_add(1)..).unwrap_or(&[]);
        }
    }
    reported
}
