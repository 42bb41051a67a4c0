//! How far bytes go on with what is open, one like the other.

ghost use Rattle.std.specs.Prelude.{◌≡◌, ◌∷◌, length, take_while, IfSome};
ghost use Rattle.cds_markup.specs.Runs.{is_plain_in_name, is_written, is_line_blank, is_plain, begins_plain_name, begins_blank, PartAt, NameAt, ValueAt, AttrAt};

use crate::qualified_name::begins_name;
use cds_base::letters_run;

/// What a run is of.
#[derive(Clone, Copy)]
pub enum Plain {
    /// Letters that stand for themselves wherever letters stand.
    Letters,
    /// Bytes that go on with any name.
    InName,
    /// Bytes that go on with any name, and colons.
    Written,
    /// White space without carriage returns.
    Blanks,
}

/// Returns whether the byte goes on with any name.
fn is_plain_in_name(b: u8) -> bool
    ensures { result ≡ is_plain_in_name b }
{
    matches!(b, b'a'..=b'z' | b'A'..=b'Z' | b'0'..=b'9' | b'_' | b'-' | b'.')
}

/// Counts the first bytes that go on with any name.
fn name_run(bytes: &[u8]) -> usize
    ensures { result ≡ length (take_while is_plain_in_name bytes.now) }
{
    bytes.iter().take_while(|b| is_plain_in_name(**b)).count()
}

/// Returns whether the byte goes on with any name, or is a colon.
fn is_written(b: u8) -> bool
    ensures { result ≡ is_written b }
{
    is_plain_in_name(b) || b == b':'
}

/// Counts the first bytes that go on with any name or are colons.
fn written_run(bytes: &[u8]) -> usize
    ensures { result ≡ length (take_while is_written bytes.now) }
{
    bytes.iter().take_while(|b| is_written(**b)).count()
}

/// Returns whether the byte is white space and no carriage return.
pub fn is_line_blank(b: u8) -> bool
    ensures { result ≡ is_line_blank b }
{
    b == b' ' || b == b'\t' || b == b'\n'
}

/// Counts the first bytes that are white space without carriage returns.
fn blanks_run(bytes: &[u8]) -> usize
    ensures { result ≡ length (take_while is_line_blank bytes.now) }
{
    bytes.iter().take_while(|b| is_line_blank(**b)).count()
}

impl Plain {
    /// Counts the first bytes that are of this kind.
    pub fn run(self, bytes: &[u8]) -> usize
        ensures { result ≡ length (take_while (is_plain self) bytes.now) }
    {
        match self {
            Plain::Letters => letters_run(bytes),
            Plain::InName => name_run(bytes),
            Plain::Written => written_run(bytes),
            Plain::Blanks => blanks_run(bytes),
        }
    }
}

/// Returns whether the byte begins any name.
fn begins_plain_name(b: u8) -> bool
    ensures { result ≡ begins_plain_name b }
{
    b < 0x80 && begins_name(char::from(b))
}

/// Returns whether the bytes begin with white space that is no carriage return.
pub fn begins_blank(bytes: &[u8]) -> bool
    ensures { result ≡ begins_blank bytes.now }
{
    match bytes.first() {
        Some(b) => is_line_blank(*b),
        None => false,
    }
}

/// Returns the name without a colon that the bytes begin with, in ASCII, and what is after it.
fn part_at(bytes: &[u8]) -> Option<(&[u8], &[u8])>
    ensures { IfSome result (λ found. PartAt found.0.now found.1.now bytes.now) }
{
    match bytes.split_first() {
        Some((first, _rest)) => {
            if begins_plain_name(*first) {
                Some(bytes.split_at(Plain::InName.run(bytes)))
            } else {
                None
            }
        }
        None => None,
    }
}

/// Returns what is after this byte, if the bytes begin with it.
pub fn behind(bytes: &[u8], b: u8) -> Option<&[u8]>
    ensures { IfSome result (λ rest. bytes.now ≡ b ∷ rest.now) }
{
    match bytes.split_first() {
        Some((first, rest)) => { if *first == b { Some(rest) } else { None } }
        None => None,
    }
}

/// Returns the name that the bytes begin with, in ASCII. Its values are the prefix, which is empty for none, the local name, and
/// what is after the name.
pub fn name_at(bytes: &[u8]) -> Option<(&[u8], &[u8], &[u8])>
    ensures { IfSome result (λ found. NameAt found.0.now found.1.now found.2.now bytes.now) }
{
    let Some((first, others)) = part_at(bytes) else {
        return None;
    };
    let Some(text) = behind(others, b':') else {
        return Some((bytes.split_at(0).0, first, others));
    };
    match part_at(text) {
        Some((second, rest)) => Some((first, second, rest)),
        None => None,
    }
}

/// Returns the letters in double quotes that the bytes begin with, and what is after them. Each letter stands for itself.
fn value_at(bytes: &[u8]) -> Option<(&[u8], &[u8])>
    ensures { IfSome result (λ found. ValueAt found.0.now found.1.now bytes.now) }
{
    let Some(text) = behind(bytes, b'"') else {
        return None;
    };
    let (value, others) = text.split_at(letters_run(text));
    match behind(others, b'"') {
        Some(rest) => Some((value, rest)),
        None => None,
    }
}

/// Returns the attribute that the bytes begin with: the two parts of its name, its value, and what is after it. It has to be a
/// name as `name_at` finds it, an equals sign, and a value as `value_at` finds it.
pub fn attr_at(bytes: &[u8]) -> Option<(&[u8], &[u8], &[u8], &[u8])>
    ensures { IfSome result (λ found. AttrAt found.0.now found.1.now found.2.now found.3.now bytes.now) }
{
    let Some((prefix, local, others)) = name_at(bytes) else {
        return None;
    };
    let Some(others) = behind(others, b'=') else {
        return None;
    };
    match value_at(others) {
        Some((value, rest)) => Some((prefix, local, value, rest)),
        None => None,
    }
}
