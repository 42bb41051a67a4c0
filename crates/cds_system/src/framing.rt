//! Tells when a message is whole, without reading it: by the empty line after its head, and by CONTENT-LENGTH or chunks (RFC
//! 9112). What a reader refuses counts as whole too, as soon as the reader knows it. So nobody waits for more bytes of it.

use cds_base::read_u32;

/// The most bytes of a head, and of a trailer.
const HEAD_LIMIT: usize = 16_384;

/// The most bytes of a line with the size of a chunk.
const LINE_LIMIT: usize = 4_096;

/// The most bytes of a body.
const BODY_LIMIT: usize = 67_108_864;

/// The most digits of the size of a chunk.
const MOST_DIGITS: usize = 16;

/// Whether a message is a request or a reply.
#[derive(Clone, Copy, PartialEq, Eq)]
pub enum Kind {
    Request,
    Reply,
}

/// The place in the lines of a head or a trailer: after empty lines alone, inside a line, at the start of a later line, or after
/// a CR there.
#[derive(Clone, Copy)]
enum Place {
    Before,
    Inside,
    Fresh,
    Return,
}

/// A line with the size of a chunk, of which `length` bytes came so far.
#[derive(Clone, Copy)]
struct SizeLine {
    length: usize,
    digits: usize,
    size: usize,
    after: After,
}

/// What may come next in such a line: digits too, white space or what follows it, any byte of an extension, or the LF.
#[derive(Clone, Copy)]
enum After {
    Digits,
    Space,
    Extension,
    Return,
}

/// What comes next of a message.
#[derive(Clone, Copy)]
enum Stage {
    /// The lines of its head.
    Head { place: Place },
    /// Bytes up to this place.
    Counted { end: usize },
    /// All bytes up to the end of the stream.
    ToEnd,
    /// A line with the size of a chunk.
    Line { line: SizeLine },
    /// The last `left` bytes of a chunk.
    Data { left: usize },
    /// The CR and the LF after a chunk, or the LF alone.
    Close { is_half: bool },
    /// The lines of its trailer, of which `length` bytes came so far.
    Trailer { place: Place, length: usize },
    /// Nothing.
    Whole,
}

/// Follows the bytes of one message.
#[derive(Clone, Copy)]
pub struct Framing {
    kind: Kind,
    stage: Stage,
    at: usize,
    body: usize,
}

/// What the fields of a head say of the body.
#[derive(Clone, Copy)]
struct Fields {
    lengths: usize,
    length: Option<u32>,
    codings: usize,
    is_chunked: bool,
}

impl Framing {
    /// Makes the framing of a message of which nothing came yet.
    pub fn new(kind: Kind) -> Self {
        Framing {
            kind,
            stage: Stage::Head {
                place: Place::Before,
            },
            at: 0,
            body: 0,
        }
    }

    /// Looks at the bytes of the message that are new. `all` is all that came of it so far. Returns whether the message is whole.
    pub fn take(&mut self, all: &[u8]) -> bool {
        let (_, new) = all.split_at(self.at.min(all.len()));
        for byte in new {
            if self.is_settled() {
                break;
            }
            self.at = self.at.saturating_add(1);
            self.stage = self.next(*byte, all);
        }
        self.is_whole(all.len())
    }

    /// Returns whether the message ends with the stream and no byte of its body came yet.
    pub fn is_bare(&self, length: usize) -> bool {
        match self.stage {
            Stage::ToEnd => self.at == length,
            _ => false,
        }
    }

    /// Returns whether the bytes to come need not be looked at.
    fn is_settled(&self) -> bool {
        matches!(
            self.stage,
            Stage::Counted { .. } | Stage::ToEnd | Stage::Whole
        )
    }

    /// Returns whether the message is whole if `length` bytes came.
    fn is_whole(&self, length: usize) -> bool {
        match self.stage {
            Stage::Counted { end } => end <= length,
            Stage::Whole => true,
            _ => false,
        }
    }

    /// Returns what comes after one more byte.
    fn next(&mut self, byte: u8, all: &[u8]) -> Stage {
        match self.stage {
            Stage::Head { place } => self.after_head_byte(next_place(place, byte), all),
            Stage::Line { line } => self.after_line_byte(line, byte),
            Stage::Data { left } => after_data(left),
            Stage::Close { is_half } => after_close(is_half, byte),
            Stage::Trailer { place, length } => {
                after_trailer_byte(next_place(place, byte), length.saturating_add(1))
            }
            stage => stage,
        }
    }

    /// Returns what comes after a byte of the head, which leads to this place or ends it.
    fn after_head_byte(&self, place: Option<Place>, all: &[u8]) -> Stage {
        match place {
            Some(_) if self.at >= HEAD_LIMIT => Stage::Whole,
            Some(place) => Stage::Head { place },
            None => {
                let (head, _) = all.split_at(self.at.min(all.len()));
                self.after_head(fields_of(head))
            }
        }
    }

    /// Returns what comes after a head with these fields.
    fn after_head(&self, fields: Fields) -> Stage {
        match (fields.lengths, fields.codings, self.kind) {
            (0, 0, Kind::Reply) => Stage::ToEnd,
            (1, 0, _) => self.counted(fields.length),
            (0, 1, _) if fields.is_chunked => Stage::Line { line: new_line() },
            _ => Stage::Whole,
        }
    }

    /// Returns what comes after a head that gives this length.
    fn counted(&self, length: Option<u32>) -> Stage {
        match length {
            Some(length) if length as usize <= BODY_LIMIT => Stage::Counted {
                end: self.at.saturating_add(length as usize),
            },
            _ => Stage::Whole,
        }
    }

    /// Returns what comes after a byte of a line with the size of a chunk.
    fn after_line_byte(&mut self, line: SizeLine, byte: u8) -> Stage {
        if byte == b'\n' {
            return self.after_line(line);
        }
        match grown(line, byte) {
            Some(line) if line.length < LINE_LIMIT => Stage::Line { line },
            _ => Stage::Whole,
        }
    }

    /// Returns what comes after a whole line with the size of a chunk.
    fn after_line(&mut self, line: SizeLine) -> Stage {
        self.body = self.body.saturating_add(line.size);
        if line.digits == 0 || self.body > BODY_LIMIT {
            Stage::Whole
        } else if line.size == 0 {
            Stage::Trailer {
                place: Place::Fresh,
                length: 0,
            }
        } else {
            Stage::Data { left: line.size }
        }
    }
}

/// Returns the place after one more byte, or `None` if the byte ends the empty line.
fn next_place(place: Place, byte: u8) -> Option<Place> {
    match (place, byte) {
        (Place::Before, b'\r' | b'\n') => Some(Place::Before),
        (Place::Inside, b'\n') => Some(Place::Fresh),
        (Place::Fresh, b'\r') => Some(Place::Return),
        (Place::Fresh | Place::Return, b'\n') => None,
        _ => Some(Place::Inside),
    }
}

/// Returns what comes after the next byte of a chunk of which `left` bytes are left.
fn after_data(left: usize) -> Stage {
    if left > 1 {
        Stage::Data {
            left: left.saturating_sub(1),
        }
    } else {
        Stage::Close { is_half: false }
    }
}

/// Returns what comes after a byte of the CR and LF after a chunk.
fn after_close(is_half: bool, byte: u8) -> Stage {
    match (is_half, byte) {
        (false, b'\r') => Stage::Close { is_half: true },
        (true, b'\n') => Stage::Line { line: new_line() },
        _ => Stage::Whole,
    }
}

/// Returns what comes after a byte of a trailer, which leads to this place or ends it.
fn after_trailer_byte(place: Option<Place>, length: usize) -> Stage {
    match place {
        Some(place) if length < HEAD_LIMIT => Stage::Trailer { place, length },
        _ => Stage::Whole,
    }
}

/// Returns a line with the size of a chunk, of which nothing came yet.
fn new_line() -> SizeLine {
    SizeLine {
        length: 0,
        digits: 0,
        size: 0,
        after: After::Digits,
    }
}

/// Returns a line with one more byte, or `None` if no such line goes on so.
fn grown(line: SizeLine, byte: u8) -> Option<SizeLine> {
    let longer = SizeLine {
        length: line.length.saturating_add(1),
        ..line
    };
    match (line.after, byte) {
        (After::Digits, _) if byte.is_ascii_hexdigit() => with_digit(longer, byte),
        (After::Digits | After::Space, b' ' | b'\t') => Some(with_after(longer, After::Space)),
        (After::Digits | After::Space, b';') => Some(with_after(longer, After::Extension)),
        (After::Return, _) => None,
        (_, b'\r') => Some(with_after(longer, After::Return)),
        (After::Extension, _) => Some(longer),
        _ => None,
    }
}

/// Returns a line after which this may come.
fn with_after(line: SizeLine, after: After) -> SizeLine {
    SizeLine { after, ..line }
}

/// Returns a line with one more hexadecimal digit.
fn with_digit(line: SizeLine, byte: u8) -> Option<SizeLine> {
    let digit = char::from(byte).to_digit(16)?;
    if line.digits >= MOST_DIGITS {
        return None;
    }
    Some(SizeLine {
        digits: line.digits.saturating_add(1),
        size: line.size.saturating_mul(16).saturating_add(digit as usize),
        ..line
    })
}

/// Returns what the fields of a head say of the body.
fn fields_of(head: &[u8]) -> Fields {
    let mut fields = Fields {
        lengths: 0,
        length: None,
        codings: 0,
        is_chunked: false,
    };
    for line in head.split(|byte| *byte == b'\n') {
        fields = with_line(fields, line);
    }
    fields
}

/// Returns these fields and that of one more line.
fn with_line(fields: Fields, line: &[u8]) -> Fields {
    match line.iter().position(|byte| *byte == b':') {
        Some(at) => {
            let (name, value) = line.split_at(at);
            with_field(fields, name, trimmed(value))
        }
        None => fields,
    }
}

/// Returns the value that stands after a colon, without the white space around it.
fn trimmed(value: &[u8]) -> &[u8] {
    value.strip_prefix(b":").unwrap_or(value).trim_ascii()
}

/// Returns these fields and one more.
fn with_field(fields: Fields, name: &[u8], value: &[u8]) -> Fields {
    if name.eq_ignore_ascii_case(b"content-length") {
        Fields {
            lengths: fields.lengths.saturating_add(1),
            length: read_u32(value),
            ..fields
        }
    } else if name.eq_ignore_ascii_case(b"transfer-encoding") {
        Fields {
            codings: fields.codings.saturating_add(1),
            is_chunked: value.eq_ignore_ascii_case(b"chunked"),
            ..fields
        }
    } else {
        fields
    }
}
