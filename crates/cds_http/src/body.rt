//! Reads the body of a message as its bytes come.

ghost use Rattle.std.specs.Prelude.{ℕ, ◌<◌, ◌≤◌, Bool, List, length};
ghost use Rattle.cds_http.specs.Known.{Known};
ghost use Rattle.cds_http.specs.Lines.{EndsThere};
ghost use Rattle.cds_http.specs.Chunks.{IsSizeLine, BodyKnown, line_limit};
ghost use Rattle.cds_http.specs.Steps.{Goes, UsesSome, UsesAll, Fits, Turns, SizeRead, TrailerRead, StillKnown, Adds, Lengthens};

use crate::HttpError;
use crate::framing::{BODY_LIMIT, Framing};
use crate::head::{FIELD_LIMIT, HEAD_LIMIT};
use crate::lines::{Collected, Front, LinePlace, collect, new_front};
use cds_base::Bytes;
use httparse::Status;
use httparse::spans::{EMPTY_HEADER_SPAN, parse_headers};
use std::alloc::Global;

/// The most bytes of a chunk line, with its CR LF.
const LINE_LIMIT: usize = 4_096;

/// What comes next of a body.
///
/// - `Counted`: `left` more bytes of the body.
/// - `ToEnd`: all bytes to the end of the connection.
/// - `Line`: a chunk line, of which `front` came.
/// - `Data`: `left` more bytes of a chunk, then CR LF.
/// - `Close`: the LF of that CR LF.
/// - `Trailer`: a trailer, of which `front` came.
#[derive(Drop)]
pub(crate) enum Part {
    Counted { left: usize },
    ToEnd,
    Line { front: Front },
    Data { left: usize },
    Close,
    Trailer { front: Front },
}

/// The bytes of a body so far, and what comes next.
#[derive(Drop)]
pub(crate) struct Body {
    pub bytes: Bytes,
    pub part: Part,
}

/// What a piece brought. `used` of its bytes were used.
#[derive(Drop)]
pub(crate) enum Progress {
    More { body: Body, used: usize },
    Whole { body: Bytes, used: usize },
}

/// Returns a body before any byte of it came.
pub(crate) fn new_body(alloc: Global, framing: Framing) -> Body
    ensures fits { Fits result }
    ensures known { (ended : Bool) (bytes : List ℕ) (known : Known (List ℕ)) → StillKnown ended result bytes known → BodyKnown ended framing bytes known }
{
    let part = match framing {
        Framing::Counted { length } => Part::Counted { left: length },
        Framing::Chunked => Part::Line {
            front: new_front(alloc, LinePlace::InLine),
        },
        Framing::ToEnd => Part::ToEnd,
    };
    Body {
        bytes: Bytes::new(alloc),
        part,
    }
}

/// Takes bytes of a body whose length is known.
fn take_counted(bytes: Bytes, left: usize, piece: &[u8]) -> Result<Progress, HttpError>
    ensures goes { Goes record { bytes = bytes; part = Part.Counted left } piece.now result }
    ensures uses { UsesSome piece.now result }
{
    let mut body = bytes;
    if left <= piece.len() {
        let (front, _) = piece.split_at(left);
        if body.extend(front).is_err() {
            return Err(HttpError::Mem);
        }
        return Ok(Progress::Whole { body, used: left });
    }
    if body.extend(piece).is_err() {
        return Err(HttpError::Mem);
    }
    let part = Part::Counted {
        left: left - piece.len(),
    };
    Ok(Progress::More {
        body: Body { bytes: body, part },
        used: piece.len(),
    })
}

/// Takes bytes of a body that ends with the connection.
fn take_open(bytes: Bytes, piece: &[u8]) -> Result<Progress, HttpError>
    ensures goes { Goes record { bytes = bytes; part = Part.ToEnd } piece.now result }
    ensures uses { UsesSome piece.now result }
{
    let mut body = bytes;
    if piece.len() > BODY_LIMIT || body.len() > BODY_LIMIT - piece.len() {
        return Err(HttpError::TooLong);
    }
    if body.extend(piece).is_err() {
        return Err(HttpError::Mem);
    }
    Ok(Progress::More {
        body: Body {
            bytes: body,
            part: Part::ToEnd,
        },
        used: piece.len(),
    })
}

/// Returns the size in a whole chunk line.
fn read_size(line: &[u8]) -> Result<u64, HttpError>
    ensures { EndsThere LinePlace.InLine line.now → SizeRead line.now result }
{
    match httparse::parse_chunk_size(line) {
        Ok(Status::Complete((_, size))) => Ok(size),
        _ => Err(HttpError::BadChunk),
    }
}

/// Returns the body after a chunk line that gives this size.
fn after_size(alloc: Global, bytes: Bytes, size: u64) -> Result<Body, HttpError>
    ensures { (line : List ℕ) → IsSizeLine line size → EndsThere LinePlace.InLine line → length line ≤ line_limit → Turns bytes line result }
{
    if size == 0 {
        let part = Part::Trailer {
            front: new_front(alloc, LinePlace::Fresh),
        };
        return Ok(Body { bytes, part });
    }
    if size > BODY_LIMIT as u64 || bytes.len() > BODY_LIMIT - size as usize {
        return Err(HttpError::TooLong);
    }
    let part = Part::Data {
        left: size as usize,
    };
    Ok(Body { bytes, part })
}

/// Takes a whole chunk line after these bytes of a body.
fn end_line(alloc: Global, bytes: Bytes, line: &[u8]) -> Result<Body, HttpError>
    ensures { EndsThere LinePlace.InLine line.now → length line.now ≤ line_limit → Turns bytes line.now result }
{
    match read_size(line) {
        Ok(size) => after_size(alloc, bytes, size),
        Err(refusal) => Err(refusal),
    }
}

/// Takes bytes of a chunk line.
fn take_line(alloc: Global, bytes: Bytes, front: Front, piece: &[u8]) -> Result<Progress, HttpError>
    ensures goes { Fits record { bytes = bytes; part = Part.Line front } → Goes record { bytes = bytes; part = Part.Line front } piece.now result }
    ensures uses { UsesSome piece.now result }
{
    match collect(front, LINE_LIMIT, HttpError::BadChunk, piece) {
        Ok(Collected::Whole { text, used }) => {
            match end_line(alloc, bytes, text.as_slice()) {
                Ok(body) => Ok(Progress::More { body, used }),
                Err(refusal) => Err(refusal),
            }
        }
        Ok(Collected::Going { front }) => Ok(Progress::More {
            body: Body {
                bytes,
                part: Part::Line { front },
            },
            used: piece.len(),
        }),
        Err(refusal) => Err(refusal),
    }
}

/// Takes bytes of a chunk.
fn take_data(bytes: Bytes, left: usize, piece: &[u8]) -> Result<Progress, HttpError>
    requires { 0 < left }
    ensures goes { Goes record { bytes = bytes; part = Part.Data left } piece.now result }
    ensures uses { UsesSome piece.now result }
{
    let mut body = bytes;
    let used = left.min(piece.len());
    let (front, _) = piece.split_at(used);
    if body.extend(front).is_err() {
        return Err(HttpError::Mem);
    }
    let part = Part::Data { left: left - used };
    Ok(Progress::More {
        body: Body { bytes: body, part },
        used,
    })
}

/// Takes the CR after the bytes of a chunk.
fn take_return(bytes: Bytes, piece: &[u8]) -> Result<Progress, HttpError>
    ensures goes { Goes record { bytes = bytes; part = Part.Data 0 } piece.now result }
    ensures uses { UsesSome piece.now result }
{
    if piece.len() == 0 {
        let part = Part::Data { left: 0 };
        return Ok(Progress::More {
            body: Body { bytes, part },
            used: 0,
        });
    }
    if piece[0] != b'\r' {
        return Err(HttpError::BadChunk);
    }
    Ok(Progress::More {
        body: Body {
            bytes,
            part: Part::Close,
        },
        used: 1,
    })
}

/// Takes the LF after that CR.
fn take_close(alloc: Global, bytes: Bytes, piece: &[u8]) -> Result<Progress, HttpError>
    ensures goes { Goes record { bytes = bytes; part = Part.Close } piece.now result }
    ensures uses { UsesSome piece.now result }
{
    if piece.len() == 0 {
        return Ok(Progress::More {
            body: Body {
                bytes,
                part: Part::Close,
            },
            used: 0,
        });
    }
    if piece[0] != b'\n' {
        return Err(HttpError::BadChunk);
    }
    let part = Part::Line {
        front: new_front(alloc, LinePlace::InLine),
    };
    Ok(Progress::More {
        body: Body { bytes, part },
        used: 1,
    })
}

/// Returns whether a text is a trailer. The end of the trailer is the end of the text.
fn is_trailer(text: &[u8]) -> bool
    ensures { EndsThere LinePlace.Fresh text.now → TrailerRead text.now result }
{
    let mut headers = [EMPTY_HEADER_SPAN; FIELD_LIMIT];
    match parse_headers(text, &mut headers) {
        Ok(Status::Complete(_)) => true,
        _ => false,
    }
}

/// Takes bytes of a trailer.
fn take_trailer(bytes: Bytes, front: Front, piece: &[u8]) -> Result<Progress, HttpError>
    ensures goes { Fits record { bytes = bytes; part = Part.Trailer front } → Goes record { bytes = bytes; part = Part.Trailer front } piece.now result }
    ensures uses { UsesSome piece.now result }
{
    match collect(front, HEAD_LIMIT, HttpError::BadChunk, piece) {
        Ok(Collected::Whole { text, used }) => {
            if is_trailer(text.as_slice()) {
                Ok(Progress::Whole { body: bytes, used })
            } else {
                Err(HttpError::BadChunk)
            }
        }
        Ok(Collected::Going { front }) => Ok(Progress::More {
            body: Body {
                bytes,
                part: Part::Trailer { front },
            },
            used: piece.len(),
        }),
        Err(refusal) => Err(refusal),
    }
}

/// Adds a piece in place if more bytes are left than it has. Returns whether it did.
fn add(bytes: &mut Bytes, left: &mut usize, piece: &[u8]) -> Result<bool, HttpError>
    ensures { Adds bytes.old left.old piece.now result bytes.new left.new }
{
    if piece.len() >= *left {
        return Ok(false);
    }
    if bytes.extend(piece).is_err() {
        return Err(HttpError::Mem);
    }
    *left -= piece.len();
    Ok(true)
}

/// Adds a piece in place if it ends inside the bytes of a body or of a chunk. Returns whether it did.
pub(crate) fn lengthen(body: &mut Body, piece: &[u8]) -> Result<bool, HttpError>
    ensures { Lengthens body.old piece.now result body.new }
{
    match &mut body.part {
        Part::Counted { left } => add(&mut body.bytes, left, piece),
        Part::Data { left } => add(&mut body.bytes, left, piece),
        _ => Ok(false),
    }
}

/// Takes the next part of a body from the start of these bytes.
fn go_on(alloc: Global, body: Body, piece: &[u8]) -> Result<Progress, HttpError>
    ensures goes { Fits body → Goes body piece.now result }
    ensures uses { UsesSome piece.now result }
{
    let Body { bytes, part } = body;
    match part {
        Part::Counted { left } => take_counted(bytes, left, piece),
        Part::ToEnd => take_open(bytes, piece),
        Part::Line { front } => take_line(alloc, bytes, front, piece),
        Part::Data { left } => {
            if left == 0 {
                take_return(bytes, piece)
            } else {
                take_data(bytes, left, piece)
            }
        }
        Part::Close => take_close(alloc, bytes, piece),
        Part::Trailer { front } => take_trailer(bytes, front, piece),
    }
}

/// Takes these bytes of a body, up to its end.
pub(crate) fn take_body(alloc: Global, body: Body, piece: &[u8]) -> Result<Progress, HttpError>
    ensures goes { Fits body → Goes body piece.now result }
    ensures uses { UsesAll piece.now result }
{
    let mut here = body;
    let mut at = 0;
    loop {
        let (_, rest) = piece.split_at(at);
        match go_on(alloc, here, rest) {
            Ok(Progress::More { body, used }) => {
                here = body;
                at += used;
                if at == piece.len() {
                    return Ok(Progress::More {
                        body: here,
                        used: at,
                    });
                }
            }
            Ok(Progress::Whole { body, used }) => {
                return Ok(Progress::Whole {
                    body,
                    used: at + used,
                });
            }
            Err(refusal) => return Err(refusal),
        }
    }
}
