//! The metadata blocks of a FLAC file: their headers and their bodies (RFC 9639).

ghost use Rattle.std.specs.Prelude.{◌≡◌, ◌==◌, ◌+◌, ◌%◌, ◌<◌, ◌≤◌, ◌^◌, nat_le, false, IfOk};
ghost use Rattle.cds_base.specs.declared.limits.TheConstants.{INPUT_LIMIT};
ghost use Rattle.cds_outside.specs.Outside.{Told};
ghost use Rattle.cds_flac.specs.Agree.{Agrees, FaultRose, Took};
ghost use Rattle.cds_flac.specs.Reading.{header_at, block_body, further_blocks, is_first_comment, is_last, kind_of};

use crate::comments::read_comment_block;
use crate::input::{pass_over, read_byte, read_length};
use crate::{Comments, FlacError};
use cds_base::INPUT_LIMIT;
use cds_outside::Source;
use std::alloc::Global;

/// The type that a file may not have (RFC 9639 on metadata block types).
const FORBIDDEN: u8 = 127;

/// The place at which the second block begins: after the marker and STREAMINFO with its header.
const SECOND_BLOCK: usize = 42;

/// A metadata block's header.
#[derive(Clone, Copy, Debug)]
pub struct Header {
    /// Whether the block is the last.
    pub last: bool,
    /// The block's type.
    pub kind: u8,
    /// The length of the block's body in bytes.
    pub length: usize,
}

/// Returns whether a block whose header begins with this byte is the last.
pub fn is_last_head(head: u8) -> bool
    ensures { result ≡ is_last head }
{
    head >= 0x80
}

/// Returns the type of a block whose header begins with this byte.
pub fn kind_of_head(head: u8) -> u8
    ensures value { result ≡ kind_of head }
    ensures small { result < 128 }
{
    head % 0x80
}

/// Reads the comments of the blocks after STREAMINFO. If that was the last, there are none.
pub fn read_further_blocks<S: Source>(
    alloc: Global,
    source: &mut S,
    last: bool,
) -> Result<Option<Comments>, FlacError>
    ensures told { Told (S.told source.old).left (λ bytes. Agrees (further_blocks last 42 bytes) result (S.told source.new).left) }
    ensures took { Took result (λ _. 67108826) 42 (S.told source.old).moved (S.told source.new).moved }
    ensures fault { FaultRose result (S.told source.old).faults (S.told source.new).faults }
    ensures never_falls { (S.told source.old).faults ≤ (S.told source.new).faults }
{
    if last {
        return Ok(None);
    }
    let found = read_blocks(alloc, source)?;
    Ok(found)
}

/// Reads the comments of the blocks after STREAMINFO, to the end of the last one.
fn read_blocks<S: Source>(alloc: Global, source: &mut S) -> Result<Option<Comments>, FlacError>
    ensures told { Told (S.told source.old).left (λ bytes. Agrees (further_blocks false 42 bytes) result (S.told source.new).left) }
    ensures took { Took result (λ _. 67108826) 42 (S.told source.old).moved (S.told source.new).moved }
    ensures fault { FaultRose result (S.told source.old).faults (S.told source.new).faults }
    ensures never_falls { (S.told source.old).faults ≤ (S.told source.new).faults }
{
    let mut found = None;
    let mut place = SECOND_BLOCK;
    loop {
        let header = read_header(source, place)?;
        found = read_body(alloc, source, header.kind, found, place + 4, header.length)?;
        if header.last {
            return Ok(found);
        }
        place += 4 + header.length;
    }
}

/// Reads the header of the block at `at`.
fn read_header<S: Source>(source: &mut S, at: usize) -> Result<Header, FlacError>
    requires { at ≤ 67108868 }
    ensures told { Told (S.told source.old).left (λ bytes. Agrees (header_at at bytes) result (S.told source.new).left) }
    ensures within { IfOk result (λ header. at + header.length ≤ INPUT_LIMIT) }
    ensures short { IfOk result (λ header. header.length < 2 ^ 24) }
    ensures took { Took result (λ _. 4) at (S.told source.old).moved (S.told source.new).moved }
    ensures fault { FaultRose result (S.told source.old).faults (S.told source.new).faults }
    ensures never_falls { (S.told source.old).faults ≤ (S.told source.new).faults }
{
    let head = read_byte(source, at)?;
    let kind = kind_of_head(head);
    if kind == FORBIDDEN {
        return Err(FlacError::Forbidden { at });
    }
    let length = read_length(source, at + 1)?;
    if INPUT_LIMIT < at + length {
        return Err(FlacError::TooLong);
    }
    Ok(Header {
        last: is_last_head(head),
        kind,
        length,
    })
}

/// Reads the body of the first VORBIS_COMMENT block, and passes over that of every other block.
fn read_body<S: Source>(
    alloc: Global,
    source: &mut S,
    kind: u8,
    found: Option<Comments>,
    at: usize,
    length: usize,
) -> Result<Option<Comments>, FlacError>
    requires near { at + length ≤ 67108868 }
    requires short { length < 2 ^ 24 }
    ensures told { Told (S.told source.old).left (λ bytes. Agrees (block_body kind found at length bytes) result (S.told source.new).left) }
    ensures took { Took result (λ _. length) at (S.told source.old).moved (S.told source.new).moved }
    ensures fault { FaultRose result (S.told source.old).faults (S.told source.new).faults }
    ensures never_falls { (S.told source.old).faults ≤ (S.told source.new).faults }
{
    if counts(kind, &found) {
        let comments = read_comment_block(alloc, source, at, at + length)?;
        Ok(Some(comments))
    } else {
        pass_over(source, at, length)?;
        Ok(found)
    }
}

/// Returns whether a block of this type is the first VORBIS_COMMENT block.
fn counts(kind: u8, found: &Option<Comments>) -> bool
    ensures { result ≡ is_first_comment kind found.now }
{
    kind == 4 && found.is_none()
}
