//! Comparisons of texts in which the case of ASCII letters does not count.

ghost use Rattle.std.specs.Prelude.{◌≡◌, ◌++◌, ◌∷◌, [], codes};
ghost use Rattle.std.specs.Char.{to_ascii_lowercase};
ghost use Rattle.cds_criteria.specs.Meaning.{folded, text_order, begins_with, has_part, has_folded, is_derived};
ghost use Rattle.cds_criteria.specs.Folds.{first_is};

use std::cmp::Ordering;

/// Compares two texts by their bytes.
pub(crate) fn text_order(a: &[u8], b: &[u8]) -> Ordering
    ensures { result ≡ text_order a.now b.now }
{
    for (at, x) in a.iter().enumerate() {
        match b.get(at) {
            None => return Ordering::Greater,
            Some(y) => match x.to_ascii_lowercase().cmp(&y.to_ascii_lowercase()) {
                Ordering::Less => return Ordering::Less,
                Ordering::Greater => return Ordering::Greater,
                Ordering::Equal => {}
            },
        }
    }
    if a.len() < b.len() {
        Ordering::Less
    } else {
        Ordering::Equal
    }
}

/// Returns whether a text begins with a byte.
fn first_is(byte: u8, text: &[u8]) -> bool
    ensures { result ≡ first_is (to_ascii_lowercase byte) (folded text.now) }
{
    match text {
        [] => false,
        [first, ..] => byte.to_ascii_lowercase() == first.to_ascii_lowercase(),
    }
}

/// Returns whether a text begins with another.
fn begins_with(part: &[u8], text: &[u8]) -> bool
    ensures { result ≡ begins_with (folded part.now) (folded text.now) }
{
    let mut rest = text;
    for byte in part {
        if !first_is(*byte, rest) {
            return false;
        }
        rest = rest.split_at(1).1;
    }
    true
}

/// Returns whether a text has a byte in lower case and then another text as a part. It looks further only where the byte stands.
fn has_after(first: u8, others: &[u8], text: &[u8]) -> bool
    ensures { result ≡ has_part (first ∷ folded others.now) (folded text.now) }
{
    for (at, byte) in text.iter().enumerate() {
        if byte.to_ascii_lowercase() == first && begins_with(others, text.split_at(at + 1).1) {
            return true;
        }
    }
    false
}

/// Returns whether a text has another as a part.
pub(crate) fn has_folded(value: &[u8], text: &[u8]) -> bool
    ensures { result ≡ has_folded value.now text.now }
{
    match value {
        [] => true,
        [first, others @ ..] => has_after(first.to_ascii_lowercase(), others, text),
    }
}

/// Returns whether a text begins with another and a `.` after it.
fn begins_with_dot(value: &[u8], text: &[u8]) -> bool
    ensures { result ≡ begins_with (folded value.now ++ codes ".") (folded text.now) }
{
    if begins_with(value, text) {
        first_is(b'.', text.split_at(value.len()).1)
    } else {
        false
    }
}

/// Returns whether a text is the class that a value names, or one derived from it.
pub(crate) fn is_derived(value: &[u8], text: &[u8]) -> bool
    ensures { result ≡ is_derived value.now text.now }
{
    text_order(text, value).is_eq() || begins_with_dot(value, text)
}
