//! Bytes that are escaped while they are appended. They are taken in pieces, and each piece is escaped in a buffer on the stack.

ghost use Rattle.std.specs.Prelude.{◌≡◌, ◌+◌, ◌*◌, ◌++◌, ◌≤◌, length, take, drop, slice_index, vec_len, vec_capacity, IfOk};
ghost use Rattle.cds_base.specs.Escape.{escaped, escaped_byte};

use cds_base::Mem;
use std::simd::prelude::*;

/// The number of bytes whose lengths are added up at once.
const LANES: usize = 32;

/// The number of bytes that are escaped at once.
const PIECE: usize = 256;

/// The room of the buffer: at most 6 bytes stand for each byte of a piece, and 8 are written for the last one.
const ROOM: usize = 6 * PIECE + 2;

/// An entry of 8 bytes for each byte: what stands for it, dots, and how many bytes stand for it.
static ENTRIES: [u8; 2048] = *b"\
    \x00......\x01\x01......\x01\x02......\x01\x03......\x01\x04......\x01\x05......\x01\x06......\x01\x07......\x01\
    \x08......\x01&#9;...\x04&#10;..\x05\x0b......\x01\x0c......\x01&#13;..\x05\x0e......\x01\x0f......\x01\
    \x10......\x01\x11......\x01\x12......\x01\x13......\x01\x14......\x01\x15......\x01\x16......\x01\x17......\x01\
    \x18......\x01\x19......\x01\x1a......\x01\x1b......\x01\x1c......\x01\x1d......\x01\x1e......\x01\x1f......\x01\
    \x20......\x01!......\x01&quot;.\x06#......\x01$......\x01%......\x01&amp;..\x05&apos;.\x06\
    (......\x01)......\x01*......\x01+......\x01,......\x01-......\x01.......\x01/......\x01\
    0......\x011......\x012......\x013......\x014......\x015......\x016......\x017......\x01\
    8......\x019......\x01:......\x01;......\x01&lt;...\x04=......\x01&gt;...\x04?......\x01\
    @......\x01A......\x01B......\x01C......\x01D......\x01E......\x01F......\x01G......\x01\
    H......\x01I......\x01J......\x01K......\x01L......\x01M......\x01N......\x01O......\x01\
    P......\x01Q......\x01R......\x01S......\x01T......\x01U......\x01V......\x01W......\x01\
    X......\x01Y......\x01Z......\x01[......\x01\\......\x01]......\x01^......\x01_......\x01\
    `......\x01a......\x01b......\x01c......\x01d......\x01e......\x01f......\x01g......\x01\
    h......\x01i......\x01j......\x01k......\x01l......\x01m......\x01n......\x01o......\x01\
    p......\x01q......\x01r......\x01s......\x01t......\x01u......\x01v......\x01w......\x01\
    x......\x01y......\x01z......\x01{......\x01|......\x01}......\x01~......\x01\x7f......\x01\
    \x80......\x01\x81......\x01\x82......\x01\x83......\x01\x84......\x01\x85......\x01\x86......\x01\x87......\x01\
    \x88......\x01\x89......\x01\x8a......\x01\x8b......\x01\x8c......\x01\x8d......\x01\x8e......\x01\x8f......\x01\
    \x90......\x01\x91......\x01\x92......\x01\x93......\x01\x94......\x01\x95......\x01\x96......\x01\x97......\x01\
    \x98......\x01\x99......\x01\x9a......\x01\x9b......\x01\x9c......\x01\x9d......\x01\x9e......\x01\x9f......\x01\
    \xa0......\x01\xa1......\x01\xa2......\x01\xa3......\x01\xa4......\x01\xa5......\x01\xa6......\x01\xa7......\x01\
    \xa8......\x01\xa9......\x01\xaa......\x01\xab......\x01\xac......\x01\xad......\x01\xae......\x01\xaf......\x01\
    \xb0......\x01\xb1......\x01\xb2......\x01\xb3......\x01\xb4......\x01\xb5......\x01\xb6......\x01\xb7......\x01\
    \xb8......\x01\xb9......\x01\xba......\x01\xbb......\x01\xbc......\x01\xbd......\x01\xbe......\x01\xbf......\x01\
    \xc0......\x01\xc1......\x01\xc2......\x01\xc3......\x01\xc4......\x01\xc5......\x01\xc6......\x01\xc7......\x01\
    \xc8......\x01\xc9......\x01\xca......\x01\xcb......\x01\xcc......\x01\xcd......\x01\xce......\x01\xcf......\x01\
    \xd0......\x01\xd1......\x01\xd2......\x01\xd3......\x01\xd4......\x01\xd5......\x01\xd6......\x01\xd7......\x01\
    \xd8......\x01\xd9......\x01\xda......\x01\xdb......\x01\xdc......\x01\xdd......\x01\xde......\x01\xdf......\x01\
    \xe0......\x01\xe1......\x01\xe2......\x01\xe3......\x01\xe4......\x01\xe5......\x01\xe6......\x01\xe7......\x01\
    \xe8......\x01\xe9......\x01\xea......\x01\xeb......\x01\xec......\x01\xed......\x01\xee......\x01\xef......\x01\
    \xf0......\x01\xf1......\x01\xf2......\x01\xf3......\x01\xf4......\x01\xf5......\x01\xf6......\x01\xf7......\x01\
    \xf8......\x01\xf9......\x01\xfa......\x01\xfb......\x01\xfc......\x01\xfd......\x01\xfe......\x01\xff......\x01";

/// Returns the length of what stands for a byte, less 1. It has no branch, so that many bytes are added up at once.
fn escaped_more(byte: u8) -> u8
    ensures size { 1 + result ≡ length (escaped_byte byte) }
    ensures most { result ≤ 5 }
{
    u8::from((byte == b'<') | (byte == b'>') | (byte == b'\t')) * 3
        + u8::from((byte == b'&') | (byte == b'\n') | (byte == b'\r')) * 4
        + u8::from((byte == b'"') | (byte == b'\'')) * 5
}

/// Returns how many bytes more a few bytes have when they are escaped. It is part of its caller, so that the compiler knows how
/// many they are and adds them up in lanes.
#[inline(always)]
fn more_in(bytes: &[u8]) -> u8
    requires few { length bytes.now ≤ LANES }
    ensures size { length bytes.now + result ≡ length (escaped bytes.now) }
    ensures most { result ≤ 5 * length bytes.now }
{
    let mut more: u8 = 0;
    for byte in bytes {
        more += escaped_more(*byte);
    }
    more
}

/// Returns how many bytes a text has when it is escaped (XML 1.0). `Mem` comes if the text is longer than a sixth of
/// `usize::MAX`.
pub fn escaped_length(text: &[u8]) -> Result<usize, Mem>
    ensures { IfOk result (λ size. size ≡ length (escaped text.now)) }
{
    if usize::MAX / 6 < text.len() {
        return Err(Mem);
    }
    let mut more: usize = 0;
    let mut rest = text;
    while let Some((front, behind)) = rest.split_first_chunk::<LANES>() {
        more += usize::from(more_in(front));
        rest = behind;
    }
    Ok(text.len() + more + usize::from(more_in(rest)))
}

/// Returns the entry of a byte, and what comes after it.
fn entry_of(byte: u8) -> &'static [u8]
    ensures long { 8 ≤ length result.now }
    ensures bytes { take (slice_index result.now 7) result.now ≡ escaped_byte byte }
    ensures most { slice_index result.now 7 ≤ 6 }
{
    &ENTRIES[8 * usize::from(byte)..]
}

/// Writes 8 bytes at a place of the buffer.
fn put_entry(entry: u8x8, at: usize, buffer: &mut [u8; ROOM])
    requires room { at + 8 ≤ ROOM }
    ensures { buffer.new ≡ take at buffer.old ++ (entry ++ drop (at + 8) buffer.old) }
{
    entry.copy_to_slice(&mut buffer[at..]);
}

/// Writes what stands for a byte at a place of the buffer, and returns the place after it. The whole entry is written, which needs
/// no branch. What stands from the returned place on means nothing.
fn put_byte(byte: u8, at: usize, buffer: &mut [u8; ROOM]) -> usize
    requires room { at + 8 ≤ ROOM }
    ensures bytes { take result buffer.new ≡ take at buffer.old ++ escaped_byte byte }
    ensures moved { result ≤ at + 6 }
{
    let entry = entry_of(byte);
    put_entry(u8x8::from_slice(entry), at, buffer);
    at + usize::from(entry[7])
}

/// Escapes a piece into the buffer, and returns how many bytes it has then.
fn escape_piece(piece: &[u8], buffer: &mut [u8; ROOM]) -> usize
    requires few { length piece.now ≤ PIECE }
    ensures bytes { take result buffer.new ≡ escaped piece.now }
    ensures most { result ≤ ROOM }
{
    let mut at = 0;
    for byte in piece {
        at = put_byte(*byte, at, buffer);
    }
    at
}

/// Appends a piece, escaped. There must be room for it.
fn put_piece(piece: &[u8], buffer: &mut [u8; ROOM], out: &mut Vec<u8>)
    requires few { length piece.now ≤ PIECE }
    requires room { vec_len out.old + length (escaped piece.now) ≤ vec_capacity out.old }
    ensures items { out.new.items ≡ out.old.items ++ escaped piece.now }
    ensures capacity { vec_capacity out.old ≤ vec_capacity out.new }
{
    let count = escape_piece(piece, buffer);
    out.extend_from_slice(&buffer[..count]).unwrap();
}

/// Appends a text, escaped (XML 1.0). There must be room for it.
pub fn put_escaped(text: &[u8], out: &mut Vec<u8>)
    requires room { vec_len out.old + length (escaped text.now) ≤ vec_capacity out.old }
    ensures items { out.new.items ≡ out.old.items ++ escaped text.now }
{
    let mut buffer = [0; ROOM];
    let mut rest = text;
    while let Some((piece, behind)) = rest.split_first_chunk::<PIECE>() {
        put_piece(piece, &mut buffer, out);
        rest = behind;
    }
    put_piece(rest, &mut buffer, out);
}
