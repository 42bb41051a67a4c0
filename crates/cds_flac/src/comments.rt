//! The comments of a VORBIS_COMMENT block (RFC 9639).

ghost use Rattle.std.specs.Prelude.{◌≡◌, ◌==◌, position, ◌+◌, ◌-◌, ◌≤◌, length, IfOk};
ghost use Rattle.std.specs.Str.{is_utf8};
ghost use Rattle.std.specs.List.{list_all};
ghost use Rattle.cds_outside.specs.Outside.{Told};
ghost use Rattle.cds_flac.specs.Agree.{Agrees, FaultRose, Took};
ghost use Rattle.cds_flac.specs.Comment.{comment_of, is_name, is_name_byte, named};
ghost use Rattle.cds_flac.specs.Reading.{comment_block, counted_comments, comments_from, text_at};

use crate::input::{pass_over, read_count, read_text};
use crate::{Comment, Comments, FlacError};
use cds_base::{Bytes, Mem, Text};
use cds_outside::Source;
use std::alloc::Global;

/// Reads the comments of a VORBIS_COMMENT block's body, from its place to its end.
pub fn read_comment_block<S: Source>(
    alloc: Global,
    source: &mut S,
    at: usize,
    end: usize,
) -> Result<Comments, FlacError>
    requires in_block { at ≤ end }
    requires near { end ≤ 67108868 }
    requires short { end ≤ at + 16777216 }
    ensures told { Told (S.told source.old).left (λ bytes. Agrees (comment_block at end bytes) result (S.told source.new).left) }
    ensures took { Took result (λ _. end - at) at (S.told source.old).moved (S.told source.new).moved }
    ensures fault { FaultRose result (S.told source.old).faults (S.told source.new).faults }
    ensures never_falls { (S.told source.old).faults ≤ (S.told source.new).faults }
{
    let vendor = read_text_at(alloc, source, at, end)?;
    if !is_text(vendor.as_slice()) {
        return Err(FlacError::BadComment { at });
    }
    let comments = read_counted(alloc, source, at + 4 + vendor.len(), end)?;
    Ok(comments)
}

/// Reads the comments whose count is at `at`, and what is left over in the block.
fn read_counted<S: Source>(
    alloc: Global,
    source: &mut S,
    at: usize,
    end: usize,
) -> Result<Comments, FlacError>
    requires in_block { at ≤ end }
    requires near { end ≤ 67108868 }
    requires short { end ≤ at + 16777216 }
    ensures told { Told (S.told source.old).left (λ bytes. Agrees (counted_comments at end bytes) result (S.told source.new).left) }
    ensures took { Took result (λ _. end - at) at (S.told source.old).moved (S.told source.new).moved }
    ensures fault { FaultRose result (S.told source.old).faults (S.told source.new).faults }
    ensures never_falls { (S.told source.old).faults ≤ (S.told source.new).faults }
{
    if end < at + 4 {
        return Err(FlacError::BadComment { at });
    }
    let count = read_count(source, at)?;
    let comments = read_comments(alloc, source, count, at + 4, end)?;
    Ok(comments)
}

/// Reads this many comments from `at` on, and what is left over in the block.
fn read_comments<S: Source>(
    alloc: Global,
    source: &mut S,
    count: usize,
    at: usize,
    end: usize,
) -> Result<Comments, FlacError>
    requires in_block { at ≤ end }
    requires near { end ≤ 67108868 }
    requires short { end ≤ at + 16777216 }
    ensures told { Told (S.told source.old).left (λ bytes. Agrees (comments_from count at end bytes) result (S.told source.new).left) }
    ensures took { Took result (λ _. end - at) at (S.told source.old).moved (S.told source.new).moved }
    ensures fault { FaultRose result (S.told source.old).faults (S.told source.new).faults }
    ensures never_falls { (S.told source.old).faults ≤ (S.told source.new).faults }
{
    let mut comments = Comments::new(alloc);
    let mut place = at;
    let mut more = count;
    while more > 0 {
        more -= 1;
        let text = read_text_at(alloc, source, place, end)?;
        match split_comment(alloc, text.as_slice())? {
            Some(comment) => comments.push(comment)?,
            None => return Err(FlacError::BadComment { at: place }),
        }
        place += 4 + text.len();
    }
    pass_over(source, place, end - place)?;
    Ok(comments)
}

/// Reads the text whose length is at `at`, in a block that ends at `end`.
fn read_text_at<S: Source>(
    alloc: Global,
    source: &mut S,
    at: usize,
    end: usize,
) -> Result<Bytes, FlacError>
    requires in_block { at ≤ end }
    requires near { end ≤ 67108868 }
    requires short { end ≤ at + 16777216 }
    ensures told { Told (S.told source.old).left (λ bytes. Agrees (text_at at end bytes) result (S.told source.new).left) }
    ensures in_block { IfOk result (λ text. at + 4 + length text ≤ end) }
    ensures took { Took result (λ text. 4 + length text) at (S.told source.old).moved (S.told source.new).moved }
    ensures fault { FaultRose result (S.told source.old).faults (S.told source.new).faults }
    ensures never_falls { (S.told source.old).faults ≤ (S.told source.new).faults }
{
    if end < at + 4 {
        return Err(FlacError::BadComment { at });
    }
    let n = read_count(source, at)?;
    if end < at + 4 + n {
        return Err(FlacError::BadComment { at });
    }
    let text = read_text(alloc, source, at + 4, n)?;
    Ok(text)
}

/// Returns whether the bytes are UTF-8.
fn is_text(bytes: &[u8]) -> bool
    ensures { result ≡ is_utf8 bytes.now }
{
    std::str::from_utf8(bytes).is_ok()
}

/// Returns the comment that the text is, or `None` if it is out of form.
#[tactic(auto, unfolding(crate::specs::Comment::comment_of))]
fn split_comment(alloc: Global, text: &[u8]) -> Result<Option<Comment>, Mem>
    ensures { IfOk result (λ comment. comment ≡ comment_of text.now) }
{
    match equals_sign(text) {
        Some(equals) => {
            let (name, _) = text.split_at(equals);
            let (_, value) = text.split_at(equals + 1);
            let comment = make_comment(alloc, name, value)?;
            Ok(comment)
        }
        None => Ok(None),
    }
}

/// Returns the place of the first equals sign.
fn equals_sign(text: &[u8]) -> Option<usize>
    ensures { result ≡ position (λ b. b == 61) text.now }
{
    text.iter().position(|b| *b == b'=')
}

fn make_comment(alloc: Global, name: &[u8], value: &[u8]) -> Result<Option<Comment>, Mem>
    ensures { IfOk result (λ comment. comment ≡ named name.now value.now) }
{
    if !is_comment_name(name) {
        return Ok(None);
    }
    let Ok(value) = std::str::from_utf8(value) else {
        return Ok(None);
    };
    let Ok(name) = std::str::from_utf8(name) else {
        return Ok(None);
    };
    let name = Text::read(alloc, name)?;
    let value = Text::read(alloc, value)?;
    Ok(Some(Comment { name, value }))
}

/// Returns whether there is at least one byte and all are printable ASCII.
fn is_comment_name(name: &[u8]) -> bool
    ensures { result ≡ is_name name.now }
{
    !name.is_empty() && is_printable(name)
}

/// Returns whether all bytes are printable ASCII.
fn is_printable(name: &[u8]) -> bool
    ensures { result ≡ list_all is_name_byte name.now }
{
    name.iter().all(|b| *b >= 0x20 && *b <= 0x7E)
}
