//! Determines whether a group of pictures can be decoded without the group before it, from the
//! first bytes of the picture at its random access point.
ghost use Rattle.std.specs.Prelude.{◌≤◌, length};

/// The stream_type values (ISO/IEC 13818-1, table 2-34) of MPEG-1, MPEG-2, H.264 and HEVC.
const MPEG_1: u8 = 0x01;

const MPEG_2: u8 = 0x02;

const H_264: u8 = 0x1B;

const HEVC: u8 = 0x24;

/// The form of a group of pictures: whether it can be decoded without the group before.
#[derive(Clone, Copy, PartialEq, Eq)]
pub enum Form {
    /// All pictures of the group can be decoded without the group before.
    Closed,
    /// Pictures that are shown before the random access point may need the group before.
    Open,
    /// The form of the group is unknown.
    Unknown,
}

/// Reads the bytes of a picture up to those that determine the form of its group.
#[derive(Clone, Copy, Drop)]
pub struct FormReader {
    kind: u8,
    // The last eight bytes of the picture that were read until the form was determined; FF in place
    // of bytes that were not read.
    window: [u8; 8],
    // The form of the group, once it is determined, perhaps as unknown.
    form: Option<Form>,
}

impl FormReader {
    /// Creates the state before the first byte of a picture with this stream_type; 0 if the
    /// stream_type is unknown.
    pub fn new(kind: u8) -> FormReader {
        FormReader {
            kind,
            window: [0xFF; 8],
            form: form_of_stream_type(kind),
        }
    }

    /// Returns the form of the group.
    pub fn form(&self) -> Form {
        match self.form {
            Some(form) => form,
            None => Form::Unknown,
        }
    }

    /// Reads more bytes of the picture.
    pub fn read(&mut self, bytes: &[u8]) {
        for byte in bytes {
            *self = reader_after(self, *byte);
        }
    }
}

// Returns the form of a group if stream_type alone determines it. H.264 has no field for closed
// groups, so its groups count as open.
fn form_of_stream_type(kind: u8) -> Option<Form> {
    match kind {
        MPEG_1 | MPEG_2 | HEVC => None,
        H_264 => Some(Form::Open),
        _ => Some(Form::Unknown),
    }
}

// Returns the reader after one more byte. Once the form is determined, the reader does not change.
fn reader_after(reader: &FormReader, byte: u8) -> FormReader {
    if reader.form.is_some() {
        return *reader;
    }
    let last = &reader.window;
    let window = [
        last[1], last[2], last[3], last[4], last[5], last[6], last[7], byte,
    ];
    FormReader {
        kind: reader.kind,
        window,
        form: form_at_start_code(reader.kind, &window),
    }
}

// Returns the form that the last eight bytes of the picture determine, if any.
fn form_at_start_code(kind: u8, window: &[u8; 8]) -> Option<Form> {
    if kind == HEVC {
        form_of_nal_unit(&[window[4], window[5], window[6], window[7]])
    } else {
        form_of_gop(window)
    }
}

// Returns whether the bytes begin with start_code_prefix.
fn has_prefix(bytes: &[u8]) -> bool
    requires { 4 ≤ length bytes.now }
{
    bytes[0] == 0 && bytes[1] == 0 && bytes[2] == 1
}

// Returns the form of a group of MPEG-1 or MPEG-2 pictures (ISO/IEC 13818-2, 6.2.2.6), from
// group_start_code 00 00 01 B8, time_code (25 bits), and closed_gop. If a picture begins without a
// group header (picture_start_code 00 00 01 00), the form is unknown.
fn form_of_gop(bytes: &[u8; 8]) -> Option<Form> {
    if !has_prefix(bytes) {
        return None;
    }
    if bytes[3] == 0xB8 {
        return Some(if bytes[7] / 0x40 % 2 == 1 {
            Form::Closed
        } else {
            Form::Open
        });
    }
    if bytes[3] == 0 {
        return Some(Form::Unknown);
    }
    None
}

// Returns the form of a group of HEVC pictures (ISO/IEC 23008-2, 7.3.1.2), from the first slice: 00
// 00 01, forbidden_zero_bit, and nal_unit_type (6 bits), a number below 32.
fn form_of_nal_unit(bytes: &[u8; 4]) -> Option<Form> {
    if !has_prefix(bytes) {
        return None;
    }
    let kind = bytes[3] / 2 % 0x40;
    if kind >= 32 {
        return None;
    }
    Some(form_of_slice_type(kind))
}

// Returns the form of a group by the nal_unit_type of its first slice. BLA_W_RADL, BLA_N_LP,
// IDR_W_RADL and IDR_N_LP (17 to 20) have no leading pictures that need the group before; BLA_W_LP
// (16) and CRA_NUT (21) may have such pictures.
fn form_of_slice_type(kind: u8) -> Form {
    if kind >= 17 && kind <= 20 {
        Form::Closed
    } else if kind == 16 || kind == 21 {
        Form::Open
    } else {
        Form::Unknown
    }
}
