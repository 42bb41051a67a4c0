//! How far some bytes can be passed over at once: 32 at a time, and the last few one by one.

ghost use Rattle.std.specs.Prelude.{◌≡◌, ℕ, ◌≤◌, Bool, not, length, position};
ghost use Rattle.std.specs.List.{prefix_len};
ghost use Rattle.cds_base.specs.Characters.{is_forbidden};
ghost use Rattle.cds_base.specs.Escape.{is_replaced, plain_run_of};
ghost use Rattle.cds_base.specs.Runs.{stands_for_itself, letters_run_of, first_set};

use std::simd::prelude::*;

/// The number of bytes that are looked at together.
const LANES: usize = 32;

/// Returns the length of the longest prefix without a byte that `escape` replaces.
pub fn plain_run(bytes: &[u8]) -> usize
    ensures { result ≡ plain_run_of bytes.now }
{
    run::<Plain>(bytes)
}

/// Returns the length of the longest prefix of bytes that stand for themselves wherever letters stand in a document. They are
/// ASCII from the space on without the characters of markup, `&`, `<`, `>`, the quotes, `]` and `-` (XML 1.0 on character data,
/// attribute values, comments and sections).
pub fn letters_run(bytes: &[u8]) -> usize
    ensures { result ≡ letters_run_of bytes.now }
{
    run::<Letters>(bytes)
}

/// Returns the place of the first byte below 0x20 other than a tab, line feed or carriage return, and `None` exactly if there is
/// none. No document may have such a byte (XML 1.0 on characters).
pub fn first_forbidden(bytes: &[u8]) -> Option<usize>
    ensures { result ≡ position is_forbidden bytes.now }
{
    bytes.iter().position(|byte| is_forbidden(*byte))
}

/// A class of bytes.
trait Class {
    // Whether a byte is in it.
    ghost is_in: { ℕ → Bool };

    fn has(byte: u8) -> bool
        ensures { result ≡ is_in byte };

    /// Returns how many of these bytes stand before the first that is not in the class.
    fn front(lanes: u8x32) -> usize
        ensures { result ≡ prefix_len is_in lanes };
}

/// Returns the length of the longest prefix of bytes of a class.
#[tactic(auto, using(crate::proofs::Lanes::loaded))]
fn run<C: Class>(bytes: &[u8]) -> usize
    ensures { result ≡ prefix_len C.is_in bytes.now }
{
    let mut at = 0;
    while bytes.len() - at >= LANES {
        let front = C::front(u8x32::from_slice(&bytes[at..]));
        if front < LANES {
            return at + front;
        }
        at += LANES;
    }
    let (_, left) = bytes.split_at(at);
    at + short_run::<C>(left)
}

/// Returns the same, looking at one byte at a time.
fn short_run<C: Class>(bytes: &[u8]) -> usize
    ensures value { result ≡ prefix_len C.is_in bytes.now }
    ensures bound { result ≤ length bytes.now }
{
    bytes.iter().take_while(|byte| C::has(**byte)).count()
}

/// The bytes that `escape` leaves as they are.
struct Plain;

impl Class for Plain {
    ghost is_in = { λ byte. not (is_replaced byte) };

    fn has(byte: u8) -> bool {
        !matches!(
            byte,
            b'&' | b'<' | b'>' | b'"' | b'\'' | b'\t' | b'\n' | b'\r'
        )
    }

    fn front(lanes: u8x32) -> usize {
        let others = lanes.simd_eq(u8x32::splat(b'&'))
            | lanes.simd_eq(u8x32::splat(b'<'))
            | lanes.simd_eq(u8x32::splat(b'>'))
            | lanes.simd_eq(u8x32::splat(b'"'))
            | lanes.simd_eq(u8x32::splat(b'\''))
            | lanes.simd_eq(u8x32::splat(b'\t'))
            | lanes.simd_eq(u8x32::splat(b'\n'))
            | lanes.simd_eq(u8x32::splat(b'\r'));
        first_set(others.to_bitmask())
    }
}

/// The bytes that stand for themselves wherever letters stand in a document.
struct Letters;

impl Class for Letters {
    ghost is_in = { stands_for_itself };

    fn has(byte: u8) -> bool {
        matches!(byte, b' '..=0x7f)
            && !matches!(byte, b'&' | b'<' | b'>' | b'"' | b'\'' | b']' | b'-')
    }

    fn front(lanes: u8x32) -> usize {
        let others = (lanes - u8x32::splat(b' ')).simd_ge(u8x32::splat(0x60))
            | lanes.simd_eq(u8x32::splat(b'&'))
            | lanes.simd_eq(u8x32::splat(b'<'))
            | lanes.simd_eq(u8x32::splat(b'>'))
            | lanes.simd_eq(u8x32::splat(b'"'))
            | lanes.simd_eq(u8x32::splat(b'\''))
            | lanes.simd_eq(u8x32::splat(b']'))
            | lanes.simd_eq(u8x32::splat(b'-'));
        first_set(others.to_bitmask())
    }
}

/// Returns the place of the lowest bit that is set, and `LANES` if none is.
fn first_set(bits: u64) -> usize
    ensures { result ≡ first_set bits }
{
    if bits == 0 {
        LANES
    } else {
        bits.trailing_zeros() as usize
    }
}

fn is_forbidden(byte: u8) -> bool
    ensures { result ≡ is_forbidden byte }
{
    byte < 0x20 && byte != b'\t' && byte != b'\n' && byte != b'\r'
}
