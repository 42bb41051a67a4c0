//! Reads the range that a RANGE field asks for.

ghost use Rattle.std.specs.Prelude.{◌≡◌, ◌<◌, length, option_map, position, IfSome};
ghost use Rattle.std.specs.List.{list_all};
ghost use Rattle.std.specs.Char.{is_digit};
ghost use Rattle.cds_base.specs.Number.{is_number_in};
ghost use Rattle.cds_media.specs.Ranges.{closed_range, is_dash, number_of, one_range, range_by, range_in};

use cds_base::read_u64;

/// A range of bytes, as it is asked for. Places count from 0.
#[derive(Clone, Copy)]
pub(crate) enum ByteRange {
    /// From the place `first` up to and including the place `last`.
    Closed { first: u64, last: u64 },
    /// From the place `first` to the end.
    Open { first: u64 },
    /// The last `count` bytes.
    Suffix { count: u64 },
}

/// Returns the range that a RANGE asks for: `bytes=A-B`, `bytes=A-` or `bytes=-N`. `None` comes for any other text.
pub(crate) fn read_range(text: &[u8]) -> Option<ByteRange>
    ensures { result ≡ range_in text.now }
{
    if !text.starts_with(b"bytes=") {
        return None;
    }
    let (_, rest) = text.split_at(6);
    one_range(rest)
}

/// Returns the range that stands around the first dash.
fn one_range(text: &[u8]) -> Option<ByteRange>
    ensures { result ≡ one_range text.now }
{
    match dash(text) {
        Some(at) => {
            let (before, rest) = text.split_at(at);
            let (_, after) = rest.split_at(1);
            range_by(before, after)
        }
        None => None,
    }
}

/// Returns the place of the first dash.
fn dash(text: &[u8]) -> Option<usize>
    ensures exact { result ≡ position is_dash text.now }
    ensures inside { IfSome result (λ at. at < length text.now) }
{
    text.iter().position(|byte| *byte == b'-')
}

/// Returns the range by what stands before the dash and after it.
fn range_by(before: &[u8], after: &[u8]) -> Option<ByteRange>
    ensures { result ≡ range_by before.now after.now }
{
    if before.is_empty() {
        return suffix_range(read_number(after));
    }
    if after.is_empty() {
        return open_range(read_number(before));
    }
    closed_range(read_number(before), read_number(after))
}

/// Returns the range of the last bytes, if their number was read.
fn suffix_range(count: Option<u64>) -> Option<ByteRange>
    ensures { result ≡ option_map ByteRange.Suffix count }
{
    match count {
        Some(count) => Some(ByteRange::Suffix { count }),
        None => None,
    }
}

/// Returns the range from a place to the end, if the place was read.
fn open_range(first: Option<u64>) -> Option<ByteRange>
    ensures { result ≡ option_map ByteRange.Open first }
{
    match first {
        Some(first) => Some(ByteRange::Open { first }),
        None => None,
    }
}

/// Returns the range from one place to another, if both were read.
fn closed_range(first: Option<u64>, last: Option<u64>) -> Option<ByteRange>
    ensures { result ≡ closed_range first last }
{
    match (first, last) {
        (Some(first), Some(last)) => Some(ByteRange::Closed { first, last }),
        _ => None,
    }
}

/// Returns the number that decimal digits count as: one past 64 bits counts as the greatest. `None` comes if they are none.
fn read_number(digits: &[u8]) -> Option<u64>
    ensures { result ≡ number_of digits.now }
{
    if !is_number(digits) {
        return None;
    }
    match read_u64(digits) {
        Some(number) => Some(number),
        None => Some(u64::MAX),
    }
}

/// Returns whether there is at least one byte and all are digits.
fn is_number(bytes: &[u8]) -> bool
    ensures { result ≡ is_number_in 10 bytes.now }
{
    bytes.len() > 0 && all_digits(bytes)
}

/// Returns whether all bytes are digits.
fn all_digits(bytes: &[u8]) -> bool
    ensures { result ≡ list_all (λ byte. is_digit byte 10) bytes.now }
{
    bytes.iter().all(|byte| char::from(*byte).is_digit(10))
}
