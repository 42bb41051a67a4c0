//! Finds the end of a head, of a trailer and of a chunk line.

ghost use Rattle.std.specs.Prelude.{◌≡◌, ◌≤◌, ◌<◌, ◌==◌, ℕ, true, [], length, drop, slice_index};
ghost use Rattle.cds_http.specs.declared.lines.LinePlace.{LinePlace};
ghost use Rattle.cds_http.specs.Lines.{next_place, further, scanned, IsWithin, IsFront, EndsCollected, KeepsCollected, Collects, UsesFront, AddsFront};

use crate::HttpError;
use cds_base::Bytes;
use memchr::memchr;
use std::alloc::Global;

/// The most bytes of a piece that may be looked at twice.
const SHORT: usize = 64;

/// The place that bytes of a head or a trailer lead to.
///
/// - `Before`: only empty lines came so far.
/// - `Inside`: inside a line.
/// - `Fresh`: at the start of a line, after a line that is not empty. A trailer begins here.
/// - `Return`: after a CR at the start of such a line.
/// - `InLine`: inside a chunk line, which ends with its LF.
#[derive(Clone, Copy)]
pub(crate) enum LinePlace {
    Before,
    Inside,
    Fresh,
    Return,
    InLine,
}

/// The end of a head or a trailer, or the place that its bytes lead to.
#[derive(Clone, Copy)]
pub(crate) enum Scan {
    Ended { at: usize },
    Open { place: LinePlace },
}

/// Returns the place after one more byte, or `None` if the byte ends the empty line or the chunk line.
fn next_place(place: LinePlace, byte: u8) -> Option<LinePlace>
    ensures { result ≡ next_place place byte }
{
    match place {
        LinePlace::Before => {
            if byte == b'\n' || byte == b'\r' {
                Some(LinePlace::Before)
            } else {
                Some(LinePlace::Inside)
            }
        }
        LinePlace::Inside => {
            if byte == b'\n' {
                Some(LinePlace::Fresh)
            } else {
                Some(LinePlace::Inside)
            }
        }
        LinePlace::Fresh => {
            if byte == b'\n' {
                None
            } else if byte == b'\r' {
                Some(LinePlace::Return)
            } else {
                Some(LinePlace::Inside)
            }
        }
        LinePlace::Return => {
            if byte == b'\n' {
                None
            } else {
                Some(LinePlace::Inside)
            }
        }
        LinePlace::InLine => {
            if byte == b'\n' {
                None
            } else {
                Some(LinePlace::InLine)
            }
        }
    }
}

/// Returns the number of bytes before the first LF.
fn before_lf(bytes: &[u8]) -> usize
    ensures within { result ≤ length bytes.now }
    ensures clean { (k : ℕ) → k < result → ¬ ((slice_index bytes.now k == 10) ≡ true) }
{
    match memchr(b'\n', bytes) {
        Some(at) => at,
        None => bytes.len(),
    }
}

/// Returns how many bytes of a line leave its place as it is.
fn stay(place: LinePlace, bytes: &[u8]) -> usize
    ensures within { result ≤ length bytes.now }
    ensures stays { scanned place bytes.now ≡ further result (scanned place (drop result bytes.now)) }
{
    match place {
        LinePlace::Inside => before_lf(bytes),
        LinePlace::InLine => before_lf(bytes),
        _ => 0,
    }
}

/// Looks for the end of a head or a trailer in the bytes that come after a place in it.
pub(crate) fn scan_lines(place: LinePlace, bytes: &[u8]) -> Scan
    ensures scanned { result ≡ scanned place bytes.now }
    ensures within { IsWithin bytes.now result }
{
    let mut here = place;
    let mut at = 0;
    while at < bytes.len() {
        let (_, rest) = bytes.split_at(at);
        at += stay(here, rest);
        if at == bytes.len() {
            return Scan::Open { place: here };
        }
        match next_place(here, bytes[at]) {
            Some(next) => {
                here = next;
                at += 1;
            }
            None => return Scan::Ended { at: at + 1 },
        }
    }
    Scan::Open { place: here }
}

/// The bytes that came of a head, a trailer or a chunk line without its end, and the place that they lead to.
#[derive(Drop)]
pub(crate) struct Front {
    pub text: Bytes,
    pub place: LinePlace,
}

/// What a piece adds: the whole text, with `used` bytes of the piece, or more of the text without its end.
#[derive(Drop)]
pub(crate) enum Collected {
    Whole { text: Bytes, used: usize },
    Going { front: Front },
}

/// Returns an empty prefix of what begins at this place.
pub(crate) fn new_front(alloc: Global, start: LinePlace) -> Front
    ensures text { result.text ≡ [] }
    ensures place { result.place ≡ start }
{
    Front {
        text: Bytes::new(alloc),
        place: start,
    }
}

/// Ends a text with its last bytes, if it is not longer than the limit.
fn end_front(
    text: Bytes,
    limit: usize,
    refusal: HttpError,
    piece: &[u8],
    used: usize,
) -> Result<Collected, HttpError>
    requires { used ≤ length piece.now }
    ensures { EndsCollected text limit refusal piece.now used result }
{
    if text.len() > limit || used > limit - text.len() {
        return Err(refusal);
    }
    let (last, _) = piece.split_at(used);
    let mut whole = text;
    if whole.extend(last).is_err() {
        return Err(HttpError::Mem);
    }
    Ok(Collected::Whole { text: whole, used })
}

/// Continues a text with this piece, if it may still be longer.
fn keep_front(
    text: Bytes,
    place: LinePlace,
    limit: usize,
    refusal: HttpError,
    piece: &[u8],
) -> Result<Collected, HttpError>
    ensures { KeepsCollected text place limit refusal piece.now result }
{
    if text.len() >= limit || piece.len() >= limit - text.len() {
        return Err(refusal);
    }
    let mut longer = text;
    if longer.extend(piece).is_err() {
        return Err(HttpError::Mem);
    }
    let front = Front {
        text: longer,
        place,
    };
    Ok(Collected::Going { front })
}

/// Adds a piece, up to the end of the text. More bytes than the limit are refused, and so are `limit` bytes without an
/// end.
pub(crate) fn collect(
    front: Front,
    limit: usize,
    refusal: HttpError,
    piece: &[u8],
) -> Result<Collected, HttpError>
    ensures collects { (start : LinePlace) → IsFront start limit front → Collects start limit refusal front.text piece.now result }
    ensures uses { UsesFront limit piece.now result }
{
    let Front { text, place } = front;
    match scan_lines(place, piece) {
        Scan::Ended { at } => end_front(text, limit, refusal, piece, at),
        Scan::Open { place } => keep_front(text, place, limit, refusal, piece),
    }
}

/// Adds a short piece in place if it has no end in it and the text stays below the limit. Returns whether it did.
pub(crate) fn add_front(front: &mut Front, limit: usize, piece: &[u8]) -> Result<bool, HttpError>
    ensures { AddsFront front.old limit piece.now result front.new }
{
    if piece.len() > SHORT || front.text.len() >= limit || piece.len() >= limit - front.text.len() {
        return Ok(false);
    }
    match scan_lines(front.place, piece) {
        Scan::Ended { .. } => Ok(false),
        Scan::Open { place } => {
            if front.text.extend(piece).is_err() {
                return Err(HttpError::Mem);
            }
            front.place = place;
            Ok(true)
        }
    }
}
