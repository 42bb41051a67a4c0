//! Bytes and numbers of a source, read at their places.

ghost use Rattle.std.specs.Prelude.{◌≡◌, ◌+◌, ◌*◌, ◌<◌, ◌≤◌, ◌^◌, length, IfOk};
ghost use Rattle.cds_outside.specs.Outside.{Told};
ghost use Rattle.cds_flac.specs.Step.{taken, big_number, little_number};
ghost use Rattle.cds_flac.specs.Agree.{Agrees, Fills, Passes, FaultRose, Took};

use crate::FlacError;
use cds_base::Bytes;
use cds_outside::Source;
use std::alloc::Global;
use std::convert::From;

/// The number of bytes that are held at a time of what is passed over or not known to be there.
const PIECE: usize = 4096;

/// Fills `into` with the next bytes, which begin at `at`.
pub fn fill<S: Source>(source: &mut S, at: usize, into: &mut [u8]) -> Result<(), FlacError>
    requires { at + length into.old ≤ 67108872 }
    ensures told { Told (S.told source.old).left (λ bytes. Fills (taken at (length into.old) bytes) into.new result (S.told source.new).left) }
    ensures took { Took result (λ _. length into.old) at (S.told source.old).moved (S.told source.new).moved }
    ensures fault { FaultRose result (S.told source.old).faults (S.told source.new).faults }
    ensures never_falls { (S.told source.old).faults ≤ (S.told source.new).faults }
{
    let mut got = 0;
    while got < into.len() {
        let count = source.read(&mut into[got..])?;
        if count == 0 {
            return Err(FlacError::Truncated { at: at + got });
        }
        got += count;
    }
    Ok(())
}

/// Passes over the next `n` bytes, which begin at `at`.
pub fn pass_over<S: Source>(source: &mut S, at: usize, n: usize) -> Result<(), FlacError>
    requires { at + n ≤ 67108872 }
    ensures told { Told (S.told source.old).left (λ bytes. Passes (taken at n bytes) result (S.told source.new).left) }
    ensures took { Took result (λ _. n) at (S.told source.old).moved (S.told source.new).moved }
    ensures fault { FaultRose result (S.told source.old).faults (S.told source.new).faults }
    ensures never_falls { (S.told source.old).faults ≤ (S.told source.new).faults }
{
    let mut piece = [0u8; PIECE];
    let mut passed = 0;
    while passed < n {
        let want = (n - passed).min(PIECE);
        let count = source.read(&mut piece[..want])?;
        if count == 0 {
            return Err(FlacError::Truncated { at: at + passed });
        }
        passed += count;
    }
    Ok(())
}

/// Reads the next `n` bytes, which begin at `at`. Memory grows with the bytes that come, and not with `n`.
pub fn read_text<S: Source>(
    alloc: Global,
    source: &mut S,
    at: usize,
    n: usize,
) -> Result<Bytes, FlacError>
    requires { at + n ≤ 67108872 }
    ensures told { Told (S.told source.old).left (λ bytes. Agrees (taken at n bytes) result (S.told source.new).left) }
    ensures size { IfOk result (λ text. length text ≡ n) }
    ensures took { Took result (λ text. length text) at (S.told source.old).moved (S.told source.new).moved }
    ensures fault { FaultRose result (S.told source.old).faults (S.told source.new).faults }
    ensures never_falls { (S.told source.old).faults ≤ (S.told source.new).faults }
{
    let mut text = Bytes::new(alloc);
    let mut piece = [0u8; PIECE];
    while text.len() < n {
        let want = (n - text.len()).min(PIECE);
        let count = source.read(&mut piece[..want])?;
        if count == 0 {
            return Err(FlacError::Truncated {
                at: at + text.len(),
            });
        }
        text.extend(&piece[..count])?;
    }
    Ok(text)
}

/// Reads the byte at `at`.
pub fn read_byte<S: Source>(source: &mut S, at: usize) -> Result<u8, FlacError>
    requires { at + 1 ≤ 67108872 }
    ensures told { Told (S.told source.old).left (λ bytes. Agrees (big_number at 1 bytes) result (S.told source.new).left) }
    ensures took { Took result (λ _. 1) at (S.told source.old).moved (S.told source.new).moved }
    ensures fault { FaultRose result (S.told source.old).faults (S.told source.new).faults }
    ensures never_falls { (S.told source.old).faults ≤ (S.told source.new).faults }
{
    let mut one = [0u8; 1];
    fill(source, at, &mut one)?;
    Ok(one[0])
}

/// Reads the number of three bytes at `at`, the highest first.
pub fn read_length<S: Source>(source: &mut S, at: usize) -> Result<usize, FlacError>
    requires { at + 3 ≤ 67108872 }
    ensures told { Told (S.told source.old).left (λ bytes. Agrees (big_number at 3 bytes) result (S.told source.new).left) }
    ensures small { IfOk result (λ n. n < 2 ^ 24) }
    ensures took { Took result (λ _. 3) at (S.told source.old).moved (S.told source.new).moved }
    ensures fault { FaultRose result (S.told source.old).faults (S.told source.new).faults }
    ensures never_falls { (S.told source.old).faults ≤ (S.told source.new).faults }
{
    let mut three = [0u8; 3];
    fill(source, at, &mut three)?;
    Ok(joined(three[0], three[1], three[2]))
}

/// Returns the number of three bytes.
fn joined(high: u8, middle: u8, low: u8) -> usize
    ensures value { result ≡ high * 65536 + middle * 256 + low }
    ensures small { result < 2 ^ 24 }
{
    usize::from(high) * 0x1_0000 + usize::from(middle) * 0x100 + usize::from(low)
}

/// Reads the number of four bytes at `at`, the lowest first.
pub fn read_count<S: Source>(source: &mut S, at: usize) -> Result<usize, FlacError>
    requires { at + 4 ≤ 67108872 }
    ensures told { Told (S.told source.old).left (λ bytes. Agrees (little_number at bytes) result (S.told source.new).left) }
    ensures small { IfOk result (λ n. n < 2 ^ 32) }
    ensures took { Took result (λ _. 4) at (S.told source.old).moved (S.told source.new).moved }
    ensures fault { FaultRose result (S.told source.old).faults (S.told source.new).faults }
    ensures never_falls { (S.told source.old).faults ≤ (S.told source.new).faults }
{
    let mut four = [0u8; 4];
    fill(source, at, &mut four)?;
    Ok(u32::from_le_bytes(four) as usize)
}
