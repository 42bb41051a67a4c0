//! How the character that bytes begin with is read (UTF-8, XML 1.0 on characters).

ghost use Rattle.std.specs.Prelude.{◌≡◌, true, ◌==◌, ◌≤◌, ◌<◌, ◌&&◌, List, ℕ, length, IfSome};
ghost use Rattle.cds_base.specs.Characters.{is_allowed};
ghost use Rattle.cds_markup.specs.Utf8.{byte_at, begins_character, tail_at, two_bytes_at, three_bytes_at, four_bytes_at, behind_first, second_low, second_high, third_high, any_at};
ghost use Rattle.cds_markup.specs.Steps.{ReadSo, DecodesSo};

use std::marker::Model;

/// What bytes begin with.
#[derive(Clone, Copy, PartialEq, Eq)]
pub enum Decoded {
    /// An allowed character.
    Whole(char),
    /// The first bytes of an allowed character, whose other bytes are to come.
    More,
    /// No allowed character.
    Broken,
}

/// The bytes that are left.
#[derive(Drop)]
struct BytesRest<'a> {
    left: &'a [u8],
}

impl<'a> Model for BytesRest<'a> {
    ghost use Rattle.std.specs.Prelude.{ℕ, List};

    ghost Value = { List ℕ };

    ghost view = { λ p. p.left.now };
}

/// Returns whether the byte begins an allowed character.
fn begins_character(b: u8) -> bool
    ensures value { result ≡ begins_character b }
    ensures lead { result ≡ true → 128 ≤ b → 192 ≤ b }
{
    if b < 0x80 {
        b >= 0x20 || b == b'\t' || b == b'\n' || b == b'\r'
    } else {
        b >= 0xC2 && b <= 0xF4
    }
}

impl<'a> BytesRest<'a> {
    /// Returns these bytes, all of them left.
    fn new(bytes: &'a [u8]) -> Self
        ensures { result ≡ bytes.now }
    {
        BytesRest { left: bytes }
    }

    /// Returns whether no byte is left.
    fn is_empty(&self) -> bool
        ensures { result ≡ (length self.now == 0) }
    {
        self.left.is_empty()
    }

    /// Reads one byte, if it begins an allowed character.
    fn first(&mut self) -> Option<u8>
        ensures step { ReadSo (byte_at begins_character self.old) result self.new }
        ensures lead { IfSome result (λ b. 128 ≤ b → 192 ≤ b) }
    {
        match self.left.split_first() {
            Some((first, rest)) => {
                if !begins_character(*first) {
                    return None;
                }
                self.left = rest;
                Some(*first)
            }
            None => None,
        }
    }

    /// Reads one byte, if it is in this range.
    fn tail(&mut self, low: u8, high: u8) -> Option<u8>
        ensures { ReadSo (tail_at low high self.old) result self.new }
    {
        match self.left.split_first() {
            Some((first, rest)) => {
                if *first < low || high < *first {
                    return None;
                }
                self.left = rest;
                Some(*first)
            }
            None => None,
        }
    }

    /// Reads the rest of a character of two bytes, after the first. Returns its code point.
    fn two_bytes(&mut self, first: u8) -> Option<u32>
        requires { 192 ≤ first }
        ensures { ReadSo (two_bytes_at first self.old) result self.new }
    {
        let second = self.tail(0x80, 0xBF)?;
        Some((u32::from(first) - 0xC0) * 0x40 + (u32::from(second) - 0x80))
    }

    /// Reads the rest of a character of three bytes, after the first. Returns its code point. Surrogates, U+FFFE and U+FFFF are
    /// refused.
    fn three_bytes(&mut self, first: u8) -> Option<u32>
        requires { 224 ≤ first }
        ensures { ReadSo (three_bytes_at first self.old) result self.new }
    {
        let second = self.tail(low_of_second(first), high_of_second(first))?;
        let third = self.tail(0x80, high_of_third(first, second))?;
        Some(
            (u32::from(first) - 0xE0) * 0x1000
                + (u32::from(second) - 0x80) * 0x40
                + (u32::from(third) - 0x80),
        )
    }

    /// Reads the rest of a character of four bytes, after the first. Returns its code point.
    fn four_bytes(&mut self, first: u8) -> Option<u32>
        requires { 240 ≤ first }
        ensures { ReadSo (four_bytes_at first self.old) result self.new }
    {
        let second = self.tail(low_of_second(first), high_of_second(first))?;
        let third = self.tail(0x80, 0xBF)?;
        let fourth = self.tail(0x80, 0xBF)?;
        Some(
            (u32::from(first) - 0xF0) * 0x4_0000
                + (u32::from(second) - 0x80) * 0x1000
                + (u32::from(third) - 0x80) * 0x40
                + (u32::from(fourth) - 0x80),
        )
    }

    /// Reads the rest of a character, after its first byte. Returns its code point.
    fn behind_first(&mut self, first: u8) -> Option<u32>
        requires { 128 ≤ first → 192 ≤ first }
        ensures { ReadSo (behind_first first self.old) result self.new }
    {
        if first < 0x80 {
            Some(u32::from(first))
        } else if first < 0xE0 {
            self.two_bytes(first)
        } else if first < 0xF0 {
            self.three_bytes(first)
        } else {
            self.four_bytes(first)
        }
    }

    /// Reads an allowed character (XML 1.0 on characters). Returns its code point.
    #[tactic(auto, unfolding(crate::specs::Utf8::any_at))]
    fn any(&mut self) -> Option<u32>
        ensures { ReadSo (any_at self.old) result self.new }
    {
        let first = self.first()?;
        self.behind_first(first)
    }
}

/// Returns the least byte that may follow this first byte of a character.
fn low_of_second(first: u8) -> u8
    ensures { result ≡ second_low first }
{
    match first {
        0xE0 => 0xA0,
        0xF0 => 0x90,
        _ => 0x80,
    }
}

/// Returns the greatest byte that may follow this first byte of a character.
fn high_of_second(first: u8) -> u8
    ensures { result ≡ second_high first }
{
    match first {
        0xED => 0x9F,
        0xF4 => 0x8F,
        _ => 0xBF,
    }
}

/// Returns the greatest byte that may follow these first two bytes of a character of three.
fn high_of_third(first: u8, second: u8) -> u8
    ensures { result ≡ third_high first second }
{
    if first == 0xEF && second == 0xBF {
        0xBD
    } else {
        0xBF
    }
}

/// Returns the character with this allowed code point.
#[tactic(auto, using(crate::proofs::Decoded::allowed_inside))]
fn char_of(code: u32) -> char
    requires { is_allowed code ≡ true }
    ensures { result ≡ code }
{
    match char::from_u32(code) {
        Some(c) => c,
        None => unreachable!(),
    }
}

/// Returns what the bytes begin with.
#[tactic(auto, using(crate::proofs::Decoded::read_allowed, crate::proofs::Decoded::read_whole, crate::proofs::Decoded::read_more, crate::proofs::Decoded::read_broken))]
pub fn decode(bytes: &[u8]) -> Decoded
    ensures { DecodesSo (any_at bytes.now) result }
{
    let mut coming = BytesRest::new(bytes);
    match coming.any() {
        Some(code) => Decoded::Whole(char_of(code)),
        None => {
            if coming.is_empty() {
                Decoded::More
            } else {
                Decoded::Broken
            }
        }
    }
}
