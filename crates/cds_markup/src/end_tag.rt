//! How the name in an end tag is compared with the name of the open element.

ghost use Rattle.std.specs.Prelude.{◌≡◌, ◌<◌, ◌+◌, ◌^◌, IfSome, drop, slice_get, encode_utf8};
ghost use Rattle.cds_markup.specs.Grammar.{name_bytes};
ghost use Rattle.cds_markup.specs.Steps.{StandsSo, StandsUpTo, is_over};

use crate::tag::QName;

/// Returns the byte at a place of the name as it is written.
#[tactic(auto, using(crate::proofs::Decoded::name_plain, crate::proofs::Decoded::name_front, crate::proofs::Decoded::name_colon, crate::proofs::Decoded::name_back, crate::proofs::Decoded::get_room))]
pub fn byte_of_name(name: &QName, at: usize) -> Option<u8>
    ensures value { result ≡ slice_get (name_bytes name.now) at }
    ensures room { IfSome result (λ b. at + 1 < 2 ^ 64) }
{
    let prefix = name.prefix.as_str().as_bytes();
    let local = name.local.as_str().as_bytes();
    if prefix.is_empty() {
        return local.get(at).copied();
    }
    if at < prefix.len() {
        return prefix.get(at).copied();
    }
    if at == prefix.len() {
        return Some(b':');
    }
    local.get(at - prefix.len() - 1).copied()
}

/// Returns whether the name as it is written ends at or before this place.
#[tactic(auto, using(crate::proofs::Decoded::none_over, crate::proofs::Decoded::some_over))]
pub fn is_over(name: &QName, at: usize) -> bool
    ensures { result ≡ is_over (drop at (name_bytes name.now)) }
{
    match byte_of_name(name, at) {
        Some(_) => false,
        None => true,
    }
}

/// Returns the place after these bytes, if they stand at this place of the name as it is written.
#[tactic(auto, using(crate::proofs::Decoded::stands_on, crate::proofs::Decoded::stands_other, crate::proofs::Decoded::stands_none))]
pub fn name_goes_on(name: &QName, at: usize, bytes: &[u8]) -> Option<usize>
    ensures { StandsSo (name_bytes name.now) at bytes.now result }
{
    let mut at = at;
    let mut left = bytes;
    while let Some((first, rest)) = left.split_first() {
        match byte_of_name(name, at) {
            Some(byte) => {
                if byte != *first {
                    return None;
                }
                at += 1;
            }
            None => return None,
        }
        left = rest;
    }
    Some(at)
}

/// Returns the place after the first of these bytes that stand at this place of the name as it is written.
#[tactic(auto, using(crate::proofs::Decoded::stands_here))]
pub fn place_behind(name: &QName, at: usize, bytes: &[u8]) -> usize
    ensures { StandsUpTo (name_bytes name.now) at bytes.now result }
{
    let mut at = at;
    let mut left = bytes;
    while let Some((first, rest)) = left.split_first() {
        match byte_of_name(name, at) {
            Some(byte) => {
                if byte != *first {
                    return at;
                }
                at += 1;
            }
            None => return at,
        }
        left = rest;
    }
    at
}

/// Returns the place after the character, if it stands at this place of the name as it is written.
pub fn name_has(name: &QName, at: usize, c: char) -> Option<usize>
    ensures { StandsSo (name_bytes name.now) at (encode_utf8 c) result }
{
    let mut bytes = [0; 4];
    let text = c.encode_utf8(&mut bytes);
    name_goes_on(name, at, text.as_bytes())
}
