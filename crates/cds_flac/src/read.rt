//! The reader of the metadata: the marker, STREAMINFO and the blocks after it (RFC 9639).

ghost use Rattle.std.specs.Prelude.{◌≡◌, ◌<◌, ◌≤◌, ◌^◌, IfOk};
ghost use Rattle.cds_outside.specs.Outside.{Told};
ghost use Rattle.cds_flac.specs.Agree.{Agrees, FaultRose, Took};
ghost use Rattle.cds_flac.specs.Form.{BeginsWith, ReadsWhatBegins};
ghost use Rattle.cds_flac.specs.Numbers.{sound_bits};
ghost use Rattle.cds_flac.specs.Refused.{RefusedAs, RefusesWhatIs};
ghost use Rattle.cds_flac.specs.Step.{Step};
ghost use Rattle.cds_flac.specs.Reading.{info_of, metadata, stream_head, sound_at, marker_at};

use crate::block::{is_last_head, kind_of_head, read_further_blocks};
use crate::input::{fill, read_byte, read_length};
use crate::{Comments, FlacError, FlacInfo};
use cds_outside::Source;
use std::alloc::Global;

/// Reads the metadata at the beginning of a FLAC file (RFC 9639): the marker and the metadata blocks, and nothing after the last
/// of them. Comments are those of the first VORBIS_COMMENT block. The first fault in reading order is answered, with no byte
/// taken after what it is known by. For `BadComment` this is at most the greatest length of a block after its place. `ReadFault`
/// comes only if the count of faults rose.
pub fn read_flac<S: Source>(alloc: Global, source: &mut S) -> Result<FlacInfo, FlacError>
    ensures told { Told (S.told source.old).left (λ bytes. Agrees (metadata bytes) result (S.told source.new).left) }
    ensures form { IfOk result (λ info. Told (S.told source.old).left (λ bytes. BeginsWith bytes info (S.told source.new).left)) }
    ensures all { Told (S.told source.old).left (λ bytes. ReadsWhatBegins bytes result) }
    ensures refused { Told (S.told source.old).left (λ bytes. RefusedAs bytes result) }
    ensures all_refused { Told (S.told source.old).left (λ bytes. RefusesWhatIs bytes result) }
    ensures rate { IfOk result (λ info. info.rate < 2 ^ 20) }
    ensures channels { IfOk result (λ info. (1 ≤ info.channels) × (info.channels ≤ 8)) }
    ensures bits { IfOk result (λ info. (1 ≤ info.bits) × (info.bits ≤ 32)) }
    ensures samples { IfOk result (λ info. info.samples < 2 ^ 36) }
    ensures took { Took result (λ _. 67108868) 0 (S.told source.old).moved (S.told source.new).moved }
    ensures fault { FaultRose result (S.told source.old).faults (S.told source.new).faults }
    ensures never_falls { (S.told source.old).faults ≤ (S.told source.new).faults }
{
    let info = read_metadata(alloc, source)?;
    Ok(info)
}

/// Reads the marker and the blocks, one after another.
fn read_metadata<S: Source>(alloc: Global, source: &mut S) -> Result<FlacInfo, FlacError>
    ensures told { Told (S.told source.old).left (λ bytes. Agrees (metadata bytes) result (S.told source.new).left) }
    ensures rate { IfOk result (λ info. info.rate < 2 ^ 20) }
    ensures channels { IfOk result (λ info. (1 ≤ info.channels) × (info.channels ≤ 8)) }
    ensures bits { IfOk result (λ info. (1 ≤ info.bits) × (info.bits ≤ 32)) }
    ensures samples { IfOk result (λ info. info.samples < 2 ^ 36) }
    ensures took { Took result (λ _. 67108868) 0 (S.told source.old).moved (S.told source.new).moved }
    ensures fault { FaultRose result (S.told source.old).faults (S.told source.new).faults }
    ensures never_falls { (S.told source.old).faults ≤ (S.told source.new).faults }
{
    read_marker(source)?;
    let head = read_stream_head(source)?;
    let bits = read_sound(source)?;
    let found = read_further_blocks(alloc, source, is_last_head(head))?;
    Ok(make_info(alloc, bits, found))
}

/// Reads the marker `fLaC`.
fn read_marker<S: Source>(source: &mut S) -> Result<(), FlacError>
    ensures told { Told (S.told source.old).left (λ bytes. Agrees (marker_at bytes) result (S.told source.new).left) }
    ensures took { Took result (λ _. 4) 0 (S.told source.old).moved (S.told source.new).moved }
    ensures fault { FaultRose result (S.told source.old).faults (S.told source.new).faults }
    ensures never_falls { (S.told source.old).faults ≤ (S.told source.new).faults }
{
    let mut four = [0u8; 4];
    fill(source, 0, &mut four)?;
    if four.as_slice() != b"fLaC".as_slice() {
        return Err(FlacError::NotFlac);
    }
    Ok(())
}

/// Reads the header of STREAMINFO, which is the first block, and returns its first byte.
fn read_stream_head<S: Source>(source: &mut S) -> Result<u8, FlacError>
    ensures told { Told (S.told source.old).left (λ bytes. Agrees (stream_head bytes) result (S.told source.new).left) }
    ensures took { Took result (λ _. 4) 4 (S.told source.old).moved (S.told source.new).moved }
    ensures fault { FaultRose result (S.told source.old).faults (S.told source.new).faults }
    ensures never_falls { (S.told source.old).faults ≤ (S.told source.new).faults }
{
    let head = read_byte(source, 4)?;
    let kind = kind_of_head(head);
    if kind == 127 {
        return Err(FlacError::Forbidden { at: 4 });
    }
    if kind != 0 {
        return Err(FlacError::NoStreamInfo);
    }
    let length = read_length(source, 5)?;
    if length != 34 {
        return Err(FlacError::BadStreamInfo);
    }
    Ok(head)
}

/// Reads the 64 bits of STREAMINFO's body that describe the sound.
fn read_sound<S: Source>(source: &mut S) -> Result<u64, FlacError>
    ensures told { Told (S.told source.old).left (λ bytes. Agrees (sound_at bytes) result (S.told source.new).left) }
    ensures took { Took result (λ _. 34) 8 (S.told source.old).moved (S.told source.new).moved }
    ensures fault { FaultRose result (S.told source.old).faults (S.told source.new).faults }
    ensures never_falls { (S.told source.old).faults ≤ (S.told source.new).faults }
{
    let mut body = [0u8; 34];
    fill(source, 8, &mut body)?;
    Ok(u64::from_be_bytes([
        body[10], body[11], body[12], body[13], body[14], body[15], body[16], body[17],
    ]))
}

/// Returns what the bits and the comments say.
fn make_info(alloc: Global, bits: u64, found: Option<Comments>) -> FlacInfo
    ensures value { result ≡ info_of bits found }
    ensures rate { result.rate < 2 ^ 20 }
    ensures channels { (1 ≤ result.channels) × (result.channels ≤ 8) }
    ensures bits { (1 ≤ result.bits) × (result.bits ≤ 32) }
    ensures samples { result.samples < 2 ^ 36 }
{
    let comments = match found {
        Some(comments) => comments,
        None => Comments::new(alloc),
    };
    FlacInfo {
        rate: (bits >> 44) as u32,
        channels: ((bits >> 41) % 8) as u8 + 1,
        bits: ((bits >> 36) % 32) as u8 + 1,
        samples: bits % (1 << 36),
        comments,
    }
}
