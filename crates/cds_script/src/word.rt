//! What the words of a line stand for.

ghost use Rattle.std.specs.Prelude.{◌≡◌, ◌<◌, ◌++◌, [], ◌∷◌, Some, None, length, map, option_map, IfOk, IfSome, MatchOption};
ghost use Rattle.cds_script.specs.Word.{is_plain_byte, digit_value, byte_before, escaped_byte, decoded, word_said, words_said};

use cds_base::{Mem, Sequence};
use std::alloc::Global;

/// The bytes that a word stands for.
pub(crate) type Word = Sequence<u8>;

/// Returns the words that the parts of a line are, if each is one.
pub(crate) fn words_in(alloc: Global, parts: &[&[u8]]) -> Result<Option<Sequence<Word>>, Mem>
    ensures { IfOk result (λ words. words ≡ words_said (map (λ p. p.now) parts.now)) }
{
    let mut words = Sequence::new(alloc);
    for part in parts {
        match word_in(alloc, part)? {
            None => return Ok(None),
            Some(word) => words.push(word)?,
        }
    }
    Ok(Some(words))
}

/// Returns the word that a part of a line is, if it is one.
fn word_in(alloc: Global, part: &[u8]) -> Result<Option<Word>, Mem>
    ensures { IfOk result (λ word. word ≡ word_said part.now) }
{
    if part.is_empty() {
        return Ok(None);
    }
    decode(alloc, part)
}

/// Returns the bytes that a part of a line stands for, if it stands for any.
fn decode(alloc: Global, part: &[u8]) -> Result<Option<Word>, Mem>
    ensures { IfOk result (λ word. word ≡ decoded part.now) }
{
    let mut word = Sequence::new(alloc);
    let mut rest = part;
    while !rest.is_empty() {
        match first_byte(rest) {
            None => return Ok(None),
            Some((byte, after)) => {
                word.push(byte)?;
                rest = after;
            }
        }
    }
    Ok(Some(word))
}

/// Returns the byte that the beginning of a part stands for, and what comes after it.
fn first_byte(part: &[u8]) -> Option<(u8, &[u8])>
    requires { 0 < length part.now }
    ensures meaning { MatchOption result (decoded part.now ≡ None) (λ first. decoded part.now ≡ byte_before (Some first.0) (decoded first.1.now)) }
    ensures shorter { IfSome result (λ first. length first.1.now < length part.now) }
{
    match part {
        [b'%', high, low, after @ ..] => match escaped(*high, *low) {
            Some(byte) => Some((byte, after)),
            None => None,
        },
        [byte, after @ ..] => if is_plain(*byte) {
            Some((*byte, after))
        } else {
            None
        },
        [] => None,
    }
}

/// Returns whether a byte of a part stands for itself.
fn is_plain(byte: u8) -> bool
    ensures { result ≡ is_plain_byte byte }
{
    33 <= byte && byte <= 126 && byte != b'%'
}

/// Returns the byte that two upper-case hexadecimal digits stand for.
fn escaped(high: u8, low: u8) -> Option<u8>
    ensures { result ≡ escaped_byte (digit_value high) (digit_value low) }
{
    match (digit(high), digit(low)) {
        (Some(high), Some(low)) => Some(16 * high + low),
        _ => None,
    }
}

/// Returns the value of an upper-case hexadecimal digit.
fn digit(byte: u8) -> Option<u8>
    ensures exact { result ≡ digit_value byte }
    ensures below { IfSome result (λ value. value < 16) }
{
    match byte {
        b'0'..=b'9' => Some(byte - b'0'),
        b'A'..=b'F' => Some(byte - b'A' + 10),
        _ => None,
    }
}
