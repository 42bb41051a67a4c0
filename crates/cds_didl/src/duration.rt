//! How the text that says how long a resource plays is read.

ghost use Rattle.std.specs.Prelude.{◌≡◌, ◌==◌, ◌*◌, ◌+◌, ◌^◌, ◌<◌, ◌≤◌, IfSome, length, option_map, take, position};
ghost use Rattle.std.specs.List.{list_all};
ghost use Rattle.cds_base.specs.Number.{number_below};
ghost use Rattle.std.specs.Char.{is_ascii_digit};
ghost use Rattle.cds_didl.specs.Duration.{cut_at, where_below, sixtieth, scaled, thousandths, with_point, without_point, seconds_read, duration_read};

use cds_base::{read_u32, read_u64};

/// A text in two: what stands before a byte, and what stands after it.
#[derive(Clone, Copy)]
struct Cut<'a> {
    front: &'a [u8],
    back: &'a [u8],
}

/// Returns the place of the first such byte.
fn place_of(byte: u8, text: &[u8]) -> Option<usize>
    ensures exact { result ≡ position (λ b. b == byte) text.now }
    ensures inside { IfSome result (λ at. at < length text.now) }
{
    text.iter().position(|b| *b == byte)
}

/// Cuts a text at the first such byte. Returns what stands before it and after it.
fn cut_at(byte: u8, text: &[u8]) -> Option<Cut<'_>>
    ensures { option_map (λ cut. (cut.front.now, cut.back.now)) result ≡ cut_at byte text.now }
{
    match place_of(byte, text) {
        Some(at) => Some(Cut {
            front: text.split_at(at).0,
            back: text.split_at(at + 1).1,
        }),
        None => None,
    }
}

/// Returns the number that a text from `00` to `59` is.
fn sixtieth(text: &[u8]) -> Option<u64>
    ensures exact { result ≡ sixtieth text.now }
    ensures small { IfSome result (λ number. number < 60) }
{
    if text.len() != 2 {
        return None;
    }
    below_sixty(text)
}

/// Returns the number that the digits are, if it is below 60.
fn below_sixty(text: &[u8]) -> Option<u64>
    ensures exact { result ≡ number_below 60 text.now }
    ensures small { IfSome result (λ number. number < 60) }
{
    match read_u64(text) {
        Some(number) if number < 60 => Some(number),
        _ => None,
    }
}

/// Returns whether all bytes are digits.
fn are_digits(text: &[u8]) -> bool
    ensures { result ≡ list_all is_ascii_digit text.now }
{
    text.iter().all(|byte| byte.is_ascii_digit())
}

/// Returns the first three bytes, or all if there are fewer.
fn first_three(text: &[u8]) -> &[u8]
    ensures { result.now ≡ take 3 text.now }
{
    text.split_at(text.len().min(3)).0
}

/// Returns the thousandths that this many digits after a point are. `value` is their number.
fn scaled(digits: usize, value: u32) -> u64
    requires { digits ≤ 3 }
    ensures exact { result ≡ scaled digits value }
    ensures small { result < 2 ^ 42 }
{
    match digits {
        0 => u64::from(value) * 1000,
        1 => u64::from(value) * 100,
        2 => u64::from(value) * 10,
        _ => u64::from(value),
    }
}

/// Returns the thousandths that digits after a point are.
fn thousandths(text: &[u8]) -> Option<u64>
    ensures exact { result ≡ thousandths text.now }
    ensures small { IfSome result (λ number. number < 2 ^ 42) }
{
    if !are_digits(text) {
        return None;
    }
    let front = first_three(text);
    match read_u32(front) {
        Some(value) => Some(scaled(front.len(), value)),
        None => None,
    }
}

/// Returns the milliseconds of seconds with a point.
#[tactic(auto, unfolding(crate::specs::Duration::with_point))]
fn with_point(front: &[u8], back: &[u8]) -> Option<u64>
    ensures exact { result ≡ with_point (front.now, back.now) }
    ensures small { IfSome result (λ number. number < 2 ^ 43) }
{
    let seconds = sixtieth(front)?;
    let thousand = thousandths(back)?;
    Some(seconds * 1000 + thousand)
}

/// Returns the milliseconds of seconds without a point.
#[tactic(auto, unfolding(crate::specs::Duration::without_point))]
fn without_point(text: &[u8]) -> Option<u64>
    ensures exact { result ≡ without_point text.now }
    ensures small { IfSome result (λ number. number < 2 ^ 43) }
{
    let seconds = sixtieth(text)?;
    Some(seconds * 1000)
}

/// Returns the milliseconds of seconds.
fn seconds_read(text: &[u8]) -> Option<u64>
    ensures exact { result ≡ seconds_read text.now }
    ensures small { IfSome result (λ number. number < 2 ^ 43) }
{
    match cut_at(b'.', text) {
        Some(cut) => with_point(cut.front, cut.back),
        None => without_point(text),
    }
}

/// Returns hours and milliseconds together, if they are below 2^64 milliseconds.
fn total(hours: u64, milliseconds: u64) -> Option<u64>
    ensures { result ≡ where_below (2 ^ 64) (hours * 3600000 + milliseconds) }
{
    hours.checked_mul(3_600_000)?.checked_add(milliseconds)
}

/// Returns the milliseconds that a duration is, such as `0:03:25.500`. It has digits, `:`, `00` to `59`, `:` and `00` to `59`.
/// Then a `.` and digits may come, of which three count. Returns `None` for any other text, and for 2^64 milliseconds or more.
#[tactic(auto, unfolding(crate::specs::Duration::duration_read))]
pub fn duration_read(text: &[u8]) -> Option<u64>
    ensures { result ≡ duration_read text.now }
{
    let first = cut_at(b':', text)?;
    let second = cut_at(b':', first.back)?;
    let hours = read_u64(first.front)?;
    let minutes = sixtieth(second.front)?;
    let milliseconds = seconds_read(second.back)?;
    total(hours, minutes * 60_000 + milliseconds)
}
