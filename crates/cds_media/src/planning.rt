//! Decides what is planned of a file for a request.

ghost use Rattle.std.specs.Prelude.{◌≡◌, ◌+◌, ◌-◌, min, codes, option_and_then, option_map};
ghost use Rattle.cds_media.specs.Plans.{FitsIn, cut, cut_closed, cut_open, cut_suffix, is_get, only_value, plan_of, range_of};
ghost use Rattle.cds_media.specs.Ranges.{range_in};
ghost use Rattle.http_header.specs.HeaderMap.{get_all};

use crate::range::{ByteRange, read_range};
use crate::slice::Plan;
use cds_http::{Message, Start};
use http_header::HeaderMap;

/// Returns what is planned of a file of this size for a request.
///
/// - A range counts only if the method is GET, and RANGE comes once as `bytes=A-B`, `bytes=A-` or `bytes=-N`. A number past 64 bits
///   counts as the greatest. IF-RANGE is not looked at.
/// - If no range counts, or B is below A, the whole file is planned.
/// - For any other range, `Plan::None` comes exactly if A is at the end of the file or past it, or N is 0.
/// - If N is above 0 and the file is empty, the whole file is planned.
pub fn plan(message: &Message, size: u64) -> Plan
    ensures plan { result ≡ plan_of size message.now }
    ensures fits { FitsIn size result }
{
    match range_of(message) {
        Some(range) => cut(size, range),
        None => Plan::Whole,
    }
}

/// Returns the range that a message asks for.
fn range_of(message: &Message) -> Option<ByteRange>
    ensures { result ≡ range_of message.now }
{
    if !is_get(&message.start) {
        return None;
    }
    range_named(only_range(&message.fields))
}

/// Returns the range in a RANGE that may be missing.
fn range_named(text: Option<&[u8]>) -> Option<ByteRange>
    ensures { result ≡ option_and_then range_in (option_map (λ x. x.now) text.entry) }
{
    match text {
        Some(text) => read_range(text),
        None => None,
    }
}

/// Returns whether a message is a request with the method GET.
fn is_get(start: &Start) -> bool
    ensures { result ≡ is_get start.now }
{
    match start {
        Start::Request { method, .. } => method.as_str() == "GET",
        Start::Reply { .. } => false,
    }
}

/// Returns the RANGE that comes exactly once.
fn only_range(fields: &HeaderMap) -> Option<&[u8]>
    ensures { option_map (λ value. value.now) result ≡ only_value (get_all fields.now (codes "range")) }
{
    let mut values = fields.get_all("range").into_iter();
    match values.next() {
        None => None,
        Some(value) => {
            if values.next().is_some() {
                return None;
            }
            Some(value.as_bytes())
        }
    }
}

/// Returns what a range cuts out of a file of this size.
fn cut(size: u64, range: ByteRange) -> Plan
    ensures plan { result ≡ cut size range }
    ensures fits { FitsIn size result }
{
    match range {
        ByteRange::Closed { first, last } => cut_closed(size, first, last),
        ByteRange::Open { first } => cut_open(size, first),
        ByteRange::Suffix { count } => cut_suffix(size, count),
    }
}

/// Returns the part from one place up to and including another.
fn cut_closed(size: u64, first: u64, last: u64) -> Plan
    ensures plan { result ≡ cut_closed size first last }
    ensures fits { FitsIn size result }
{
    if last < first {
        return Plan::Whole;
    }
    if first < size {
        return Plan::Part {
            from: first,
            to: end_after(last, size),
        };
    }
    Plan::None
}

/// Returns the place after `last`, or the end of the file if that comes first.
fn end_after(last: u64, size: u64) -> u64
    ensures { result ≡ min (last + 1) size }
{
    if last < size { last + 1 } else { size }
}

/// Returns the part from a place to the end.
fn cut_open(size: u64, first: u64) -> Plan
    ensures plan { result ≡ cut_open size first }
    ensures fits { FitsIn size result }
{
    if first < size {
        return Plan::Part {
            from: first,
            to: size,
        };
    }
    Plan::None
}

/// Returns the part with the last bytes.
fn cut_suffix(size: u64, count: u64) -> Plan
    ensures plan { result ≡ cut_suffix size count }
    ensures fits { FitsIn size result }
{
    if count == 0 {
        return Plan::None;
    }
    if size == 0 {
        return Plan::Whole;
    }
    Plan::Part {
        from: start_before(size, count),
        to: size,
    }
}

/// Returns the place of the first of the last bytes.
fn start_before(size: u64, count: u64) -> u64
    ensures { result ≡ size - count }
{
    if count < size { size - count } else { 0 }
}
