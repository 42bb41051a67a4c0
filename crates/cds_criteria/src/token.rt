//! The tokens of search criteria.

ghost use Rattle.std.specs.Prelude.{◌≡◌, ◌≤◌, false, length, IfOk};
ghost use Rattle.std.specs.List.{prefix_len};
ghost use Rattle.std.specs.Str.{bytes_eq};
ghost use Rattle.cds_criteria.specs.Criteria.{is_space, is_mark, is_word_byte};
ghost use Rattle.cds_criteria.specs.Tokens.{word_prefix, other_word_token, word_token, word_found, sign_found, not_found, value_found, longer, other_mark_found, mark_found, found, token_at};
ghost use Rattle.cds_criteria.specs.ValueSteps.{value_step};

use crate::{Operator, Property};
use cds_base::{Bytes, Mem};
use std::alloc::Global;

/// A token of search criteria.
#[derive(Drop)]
pub(crate) enum Token {
    /// `*`
    Star,
    /// `(`
    Open,
    /// `)`
    Close,
    /// `and`
    AndWord,
    /// `or`
    OrWord,
    /// `exists`
    Existence,
    /// `true` or `false`
    Truth(bool),
    Name(Property),
    Sign(Operator),
    /// A value, without its quotes and escapes.
    Value(Bytes),
    /// A word that is not listed, or a value with a `\` before another byte than `"` and `\`: it can stand nowhere.
    Stray,
    /// A `!` that ends the text.
    CutSign,
    /// A value without its last `"`.
    CutValue,
}

/// A token that begins a text, and how many bytes it has there.
#[derive(Drop)]
pub(crate) struct Found {
    pub token: Token,
    pub size: usize,
}

/// Returns whether a byte is white space.
pub(crate) fn is_space(b: u8) -> bool
    ensures { result ≡ is_space b }
{
    b == b' ' || b == b'\t' || b == b'\n' || b == b'\r'
}

/// Returns whether a byte begins a token of its own or ends a word.
fn is_mark(b: u8) -> bool
    ensures { result ≡ is_mark b }
{
    b == b'"'
        || b == b'('
        || b == b')'
        || b == b'*'
        || b == b'!'
        || b == b'<'
        || b == b'='
        || b == b'>'
}

/// Returns whether a byte belongs to a word.
fn is_word_byte(b: u8) -> bool
    ensures { result ≡ is_word_byte b }
{
    if is_space(b) { false } else { !is_mark(b) }
}

/// Returns whether a word has these bytes.
fn is_text(word: &[u8], text: &str) -> bool
    ensures { result ≡ bytes_eq word.now text.now }
{
    word == text.as_bytes()
}

/// Returns the token that a word is, if it is no property.
fn other_word_token(word: &[u8]) -> Token
    ensures { result ≡ other_word_token word.now }
{
    if is_text(word, "contains") {
        Token::Sign(Operator::Contains)
    } else if is_text(word, "doesNotContain") {
        Token::Sign(Operator::DoesNotContain)
    } else if is_text(word, "derivedfrom") {
        Token::Sign(Operator::DerivedFrom)
    } else if is_text(word, "and") {
        Token::AndWord
    } else if is_text(word, "or") {
        Token::OrWord
    } else if is_text(word, "exists") {
        Token::Existence
    } else if is_text(word, "true") {
        Token::Truth(true)
    } else if is_text(word, "false") {
        Token::Truth(false)
    } else {
        Token::Stray
    }
}

/// Returns the token that a word is.
fn word_token(word: &[u8]) -> Token
    ensures { result ≡ word_token word.now }
{
    if is_text(word, "@id") {
        Token::Name(Property::Id)
    } else if is_text(word, "@parentID") {
        Token::Name(Property::ParentId)
    } else if is_text(word, "dc:title") {
        Token::Name(Property::Title)
    } else if is_text(word, "upnp:class") {
        Token::Name(Property::Class)
    } else if is_text(word, "upnp:artist") {
        Token::Name(Property::Artist)
    } else if is_text(word, "upnp:album") {
        Token::Name(Property::Album)
    } else if is_text(word, "upnp:genre") {
        Token::Name(Property::Genre)
    } else if is_text(word, "upnp:originalTrackNumber") {
        Token::Name(Property::TrackNumber)
    } else if is_text(word, "upnp:objectUpdateID") {
        Token::Name(Property::ObjectUpdate)
    } else if is_text(word, "upnp:containerUpdateID") {
        Token::Name(Property::ContainerUpdate)
    } else if is_text(word, "res@size") {
        Token::Name(Property::Size)
    } else if is_text(word, "res@duration") {
        Token::Name(Property::Duration)
    } else {
        other_word_token(word)
    }
}

/// Counts the bytes of the word that begins a text.
fn word_length(text: &[u8]) -> usize
    ensures exact { result ≡ prefix_len is_word_byte text.now }
    ensures within { result ≤ length text.now }
{
    text.iter().take_while(|byte| is_word_byte(**byte)).count()
}

/// Returns the word that begins a text.
fn word_prefix(text: &[u8]) -> &[u8]
    ensures { result.now ≡ word_prefix text.now }
{
    text.split_at(word_length(text)).0
}

/// Returns the word as a token, with its size.
fn word_found(word: &[u8]) -> Found
    ensures { result ≡ word_found word.now }
{
    Found {
        token: word_token(word),
        size: word.len(),
    }
}

/// Returns the operator before a text, which is another one if `=` follows.
fn sign_found(alone: Operator, equal: Operator, text: &[u8]) -> Found
    ensures { result ≡ sign_found (Token.Sign alone) (Token.Sign equal) text.now }
{
    match text {
        [] => make_found(Token::Sign(alone), 1),
        [next, ..] => {
            if *next == b'=' {
                make_found(Token::Sign(equal), 2)
            } else {
                make_found(Token::Sign(alone), 1)
            }
        }
    }
}

/// Returns what a `!` before a text is.
fn not_found(text: &[u8]) -> Found
    ensures { result ≡ not_found text.now }
{
    match text {
        [] => make_found(Token::CutSign, 1),
        [next, ..] => {
            if *next == b'=' {
                make_found(Token::Sign(Operator::Differs), 2)
            } else {
                make_found(Token::Stray, 1)
            }
        }
    }
}

/// What a byte is in a value.
#[derive(Clone, Copy)]
enum ValueStep {
    /// It is the last `"`.
    Ends,
    /// It cannot stand after a `\`.
    Strays,
    /// It is a `\`.
    Escapes,
    /// It belongs to the value.
    Grows,
}

/// Returns what a byte is in a value, by whether a `\` stands before it.
fn value_step(escaped: bool, b: u8) -> ValueStep
    ensures { result ≡ value_step escaped b }
{
    if escaped {
        if b == b'"' || b == b'\\' {
            ValueStep::Grows
        } else {
            ValueStep::Strays
        }
    } else if b == b'"' {
        ValueStep::Ends
    } else if b == b'\\' {
        ValueStep::Escapes
    } else {
        ValueStep::Grows
    }
}

/// Makes a token with its size.
fn make_found(token: Token, size: usize) -> Found
    ensures { result ≡ found token size }
{
    Found { token, size }
}

/// Reads a value after its first `"`. The size does not count that byte.
fn value_found(alloc: Global, text: &[u8]) -> Result<Found, Mem>
    ensures exact { IfOk result (λ it. it ≡ value_found false text.now) }
    ensures within { IfOk result (λ it. it.size ≤ length text.now) }
{
    let mut value = Bytes::new(alloc);
    let mut escaped = false;
    for (size, byte) in text.iter().enumerate() {
        match value_step(escaped, *byte) {
            ValueStep::Ends => return Ok(make_found(Token::Value(value), size + 1)),
            ValueStep::Strays => return Ok(make_found(Token::Stray, size)),
            ValueStep::Escapes => escaped = true,
            ValueStep::Grows => {
                value.push(*byte)?;
                escaped = false;
            }
        }
    }
    Ok(make_found(Token::CutValue, text.len()))
}

/// Returns the token that a value is, after its first `"`.
fn whole_value(alloc: Global, text: &[u8]) -> Result<Found, Mem>
    ensures { IfOk result (λ it. it ≡ longer (value_found false text.now)) }
{
    let after = value_found(alloc, text)?;
    Ok(make_found(after.token, after.size + 1))
}

/// Returns the token that a mark begins, which is no quote.
fn other_mark_found(mark: u8, text: &[u8]) -> Found
    ensures { result ≡ other_mark_found mark text.now }
{
    match mark {
        b'(' => make_found(Token::Open, 1),
        b')' => make_found(Token::Close, 1),
        b'*' => make_found(Token::Star, 1),
        b'=' => make_found(Token::Sign(Operator::Equals), 1),
        b'<' => sign_found(Operator::Below, Operator::AtMost, text),
        b'>' => sign_found(Operator::Above, Operator::AtLeast, text),
        b'!' => not_found(text),
        _ => make_found(Token::Stray, 1),
    }
}

/// Returns the token that a mark begins.
fn mark_found(alloc: Global, mark: u8, text: &[u8]) -> Result<Found, Mem>
    ensures { IfOk result (λ it. it ≡ mark_found mark text.now) }
{
    if mark == b'"' {
        whole_value(alloc, text)
    } else {
        Ok(other_mark_found(mark, text))
    }
}

/// Returns the token that begins a text, which must begin with a byte that is no white space.
pub(crate) fn token_at(alloc: Global, text: &[u8]) -> Result<Found, Mem>
    ensures { IfOk result (λ it. it ≡ token_at text.now) }
{
    match text {
        [] => Ok(make_found(Token::Stray, 0)),
        [first, after @ ..] => {
            if is_word_byte(*first) {
                Ok(word_found(word_prefix(text)))
            } else {
                mark_found(alloc, *first, after)
            }
        }
    }
}
