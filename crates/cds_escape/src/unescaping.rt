//! Reading of texts with references.

ghost use Rattle.std.specs.Prelude.{◌≡◌, ◌++◌, ◌∷◌, ◌<◌, ◌≤◌, ⊤, length, List, ℕ, IfOk, IfErr, MatchOption, MatchResult, string_bytes};
ghost use Rattle.std.specs.Option.{option_and_then};
ghost use Rattle.cds_base.specs.Escape.{escaped};
ghost use Rattle.cds_base.specs.Reference.{IsReference, BeginsNoReference, named, numbered, code_of, where_allowed};
ghost use Rattle.cds_base.specs.Number.{number_in};
ghost use Rattle.cds_escape.specs.Unescape.{Piece, IsPiece, Says, IsBadReference, IsBadCharacter, IsFault, IsFaultHere, IsOrMem};
ghost use Rattle.cds_base.specs.Characters.{AreAllowed};

use cds_base::{is_allowed, read_digits};
use std::alloc::{AllocError, Global};
use std::convert::From;
use std::error::Error;
use std::fmt;

/// Why a text cannot be unescaped. Places are in bytes, counted from 0.
#[derive(Clone, Copy, Debug, PartialEq, Eq, Drop)]
pub enum TextError {
    /// The `&` at the place begins no reference to an allowed character.
    BadReference { at: usize },
    /// The character at the place is `<`, or one that a document may not have.
    BadCharacter { at: usize },
    /// Memory ran out.
    Mem,
}

impl fmt::Display for TextError {
    fn fmt<W: fmt::Write>(&self, f: &mut fmt::Formatter<W>) -> fmt::Result {
        match self {
            TextError::BadReference { at } => write!(f, "no reference begins at {at}"),
            TextError::BadCharacter { at } => write!(f, "no such character may stand at {at}"),
            TextError::Mem => write!(f, "out of memory"),
        }
    }
}

impl Error for TextError {}

impl From<AllocError> for TextError {
    ghost use Rattle.cds_escape.specs.declared.unescaping.TextError.{TextError};

    ghost from_gives = { λ _ r. r ≡ TextError.Mem };

    fn from(_e: AllocError) -> TextError {
        TextError::Mem
    }
}

/// Returns the text with each reference replaced by the character that it names. References are `&amp;`, `&lt;`, `&gt;`,
/// `&quot;`, `&apos;`, `&#` decimal digits `;` and `&#x` hexadecimal digits `;`. All name characters that a document may have
/// (XML 1.0). The first `&` that begins no such reference is a `BadReference`. The first `<`, or other character that no document
/// may have, is a `BadCharacter`. The earlier of the two decides.
pub fn unescape(alloc: Global, text: &str) -> Result<String, TextError>
    ensures read { IfOk result (λ value. Says text.now (string_bytes value)) }
    ensures refused { IfErr result (IsFault text.now) }
    ensures exact { (value : List ℕ) → Says text.now value → MatchResult result (λ read. string_bytes read ≡ value) (λ fault. fault ≡ TextError.Mem) }
    ensures exact_reference { (at : ℕ) → IsBadReference text.now at → MatchResult result (λ _. ⊥) (IsOrMem (TextError.BadReference at)) }
    ensures exact_character { (at : ℕ) → IsBadCharacter text.now at → MatchResult result (λ _. ⊥) (IsOrMem (TextError.BadCharacter at)) }
    ensures inverse { (plain : List ℕ) → AreAllowed plain → text.now ≡ escaped plain → MatchResult result
        (λ read. string_bytes read ≡ plain) (λ fault. fault ≡ TextError.Mem) }
{
    let mut read = String::new(alloc);
    let mut rest = text;
    while !rest.is_empty() {
        let at = text.len() - rest.len();
        let (says, after) = match first_piece(rest, at) {
            Ok(piece) => piece,
            Err(fault) => return Err(fault),
        };
        read.push(says)?;
        rest = after;
    }
    Ok(read)
}

/// Returns what the first piece of the text says, and what follows it. The text stands at the place `at`.
fn first_piece(text: &str, at: usize) -> Result<(char, &str), TextError>
    requires { 0 < length text.now }
    ensures ok { IfOk result (λ read. (written : List ℕ) × (text.now ≡ written ++ read.1.now) × IsPiece (record { written = written; says = read.0 })) }
    ensures err { IfErr result (IsFaultHere text.now at) }
{
    let mut rest = text.chars();
    match rest.next() {
        Some('&') => match reference(rest.as_str()) {
            Some((says, after)) => Ok((says, after)),
            None => Err(TextError::BadReference { at }),
        },
        Some(c) if c != '<' && is_allowed(c) => Ok((c, rest.as_str())),
        _ => Err(TextError::BadCharacter { at }),
    }
}

/// Returns what a reference says, and what follows its `;`. Its `&` is before the text.
fn reference(text: &str) -> Option<(char, &str)>
    ensures { MatchOption result (BeginsNoReference (38 ∷ text.now))
        (λ read. (written : List ℕ) × (38 ∷ text.now ≡ written ++ read.1.now) × IsReference written read.0) }
{
    let (name, after) = text.split_once(';')?;
    let says = named(name)?;
    Some((says, after))
}

/// Returns the allowed character that stands between `&` and `;`.
fn named(name: &str) -> Option<char>
    ensures { result ≡ named name.now }
{
    match name {
        "amp" => Some('&'),
        "lt" => Some('<'),
        "gt" => Some('>'),
        "quot" => Some('"'),
        "apos" => Some('\''),
        _ => numbered(name.as_bytes()),
    }
}

/// Returns the allowed character whose number stands after a `#`.
fn numbered(name: &[u8]) -> Option<char>
    ensures { result ≡ option_and_then where_allowed (numbered name.now) }
{
    match name {
        [b'#', b'x', digits @ ..] => allowed_in(16, digits),
        [b'#', digits @ ..] => allowed_in(10, digits),
        _ => None,
    }
}

/// Returns the allowed character whose number the digits are, to this base.
#[tactic(auto, using(crate::proofs::References::allowed_below))]
fn allowed_in(base: u32, digits: &[u8]) -> Option<char>
    requires low { 2 ≤ base }
    requires high { base ≤ 36 }
    ensures { result ≡ option_and_then where_allowed (number_in base digits.now) }
{
    match read_digits(base, digits) {
        Some(number) => allowed(number),
        None => None,
    }
}

/// Returns the allowed character with this number.
fn allowed(number: u64) -> Option<char>
    ensures { result ≡ where_allowed number }
{
    let code = u32::try_from(number).ok()?;
    let c = char::from_u32(code)?;
    if is_allowed(c) { Some(c) } else { None }
}
