//! Makes the content of a track from the comments of its file, its sound and its name. Makes the content of a folder
//! from its name.

ghost use Rattle.std.specs.Prelude.{◌≡◌, ◌<◌, ◌≤◌, ◌-◌, ◌^◌, drop, length, IfOk, option_copied};
ghost use Rattle.std.specs.Char.{is_ascii_digit};
ghost use Rattle.std.specs.List.{prefix_len};
ghost use Rattle.std.specs.Str.{str_to_ascii_lowercase};
ghost use Rattle.cds_object.specs.Content.{same_text};
ghost use Rattle.std.specs.Option.{option_map};
ghost use Rattle.cds_object.specs.Clean.{cleaned};
ghost use Rattle.cds_object.specs.ContentOf.{first_comment, comment_text, has_flac_ending, title_from_name, leading_number, track_number, milliseconds, track_title, track_of, folder_of};

use crate::{Comment, Content, FlacInfo, TrackContent, clean};
use cds_base::{Mem, Text, read_u32};
use std::alloc::Global;

/// Returns what a track says of itself, by what its file says, its name and its size in bytes. The first TITLE, ARTIST,
/// ALBUM, GENRE and TRACKNUMBER count, whatever the ASCII case of their names. If there is no title, the name of the
/// file is used. Each text is cleaned.
pub fn content_of(alloc: Global, info: &FlacInfo, name: &str, size: u64) -> Result<Content, Mem>
    requires { info.now.samples < 2 ^ 36 }
    ensures { IfOk result (λ content. content ≡ track_of info.now name.now size) }
{
    let comments = info.comments.as_slice();
    let title = title_of(alloc, comments, name)?;
    let artist = text_of(alloc, "artist", comments)?;
    let album = text_of(alloc, "album", comments)?;
    let genre = text_of(alloc, "genre", comments)?;
    Ok(Content::Track(TrackContent {
        title,
        artist,
        album,
        genre,
        number: number_of(comments),
        size,
        duration: duration_of(info.samples, info.rate),
        rate: info.rate,
        channels: info.channels,
        bits: info.bits,
    }))
}

/// Returns what a folder of this name says of itself: the name, cleaned.
pub fn folder_of(alloc: Global, name: &str) -> Result<Content, Mem>
    ensures { IfOk result (λ content. content ≡ folder_of name.now) }
{
    let title = cleaned(alloc, name)?;
    Ok(Content::Folder { title })
}

/// Returns the title from the comments, or from the name of the file if they have none.
fn title_of(alloc: Global, comments: &[Comment], name: &str) -> Result<Text, Mem>
    ensures { IfOk result (λ title. title ≡ cleaned (track_title comments.now name.now)) }
{
    match text_of(alloc, "title", comments)? {
        Some(title) => Ok(title),
        None => cleaned(alloc, without_ending(name)),
    }
}

/// Returns the text, cleaned.
fn cleaned(alloc: Global, text: &str) -> Result<Text, Mem>
    ensures { IfOk result (λ kept. kept ≡ cleaned text.now) }
{
    Ok(Text::from(clean(alloc, text)?))
}

/// Returns the text of the first comment of a name, cleaned, or `None` if it is empty. The name must be in lower case.
fn text_of(alloc: Global, name: &str, comments: &[Comment]) -> Result<Option<Text>, Mem>
    requires { str_to_ascii_lowercase name.now ≡ name.now }
    ensures { IfOk result (λ text. text ≡ option_map cleaned (comment_text name.now comments.now)) }
{
    match value_of(name, comments) {
        Some(value) if value.len() > 0 => Ok(Some(cleaned(alloc, value.as_str())?)),
        _ => Ok(None),
    }
}

/// Returns the value of the first comment of a name. The name must be in lower case.
fn value_of<'a>(name: &str, comments: &'a [Comment]) -> Option<&'a Text>
    requires { str_to_ascii_lowercase name.now ≡ name.now }
    ensures { option_copied result ≡ first_comment name.now comments.now }
{
    for comment in comments {
        if is_named(comment, name) {
            return Some(&comment.value);
        }
    }
    None
}

/// Returns whether a comment has this name. The name must be in lower case.
fn is_named(comment: &Comment, name: &str) -> bool
    requires { str_to_ascii_lowercase name.now ≡ name.now }
    ensures { result ≡ same_text name.now (str_to_ascii_lowercase comment.now.name) }
{
    is_in_any_case(name.as_bytes(), comment.name.as_str().as_bytes())
}

/// Returns whether a text equals the one in lower case, whatever its own ASCII case.
fn is_in_any_case(lower: &[u8], text: &[u8]) -> bool
    requires { str_to_ascii_lowercase lower.now ≡ lower.now }
    ensures { result ≡ same_text lower.now (str_to_ascii_lowercase text.now) }
{
    lower.eq_ignore_ascii_case(text)
}

/// Returns the name of a file without its `.flac`. The name stays whole if it has no such ending, or nothing before it.
fn without_ending(name: &str) -> &str
    ensures { result.now ≡ title_from_name name.now }
{
    if has_ending(name) {
        name.split_at(name.len() - 5).0
    } else {
        name
    }
}

/// Returns whether a name ends in `.flac` in any ASCII case, with something before it.
fn has_ending(name: &str) -> bool
    ensures { result ≡ has_flac_ending name.now }
{
    name.len() > 5 && is_in_any_case(b".flac", last_five(name))
}

/// Returns the last five bytes of a name.
fn last_five(name: &str) -> &[u8]
    requires { 5 ≤ length name.now }
    ensures { result.now ≡ drop (length name.now - 5) name.now }
{
    name.as_bytes().split_at(name.len() - 5).1
}

/// Returns the number of the first TRACKNUMBER comment.
fn number_of(comments: &[Comment]) -> Option<u32>
    ensures { result ≡ track_number comments.now }
{
    match value_of("tracknumber", comments) {
        Some(value) => number_at_start(value.as_str().as_bytes()),
        None => None,
    }
}

/// Returns the number that the leading digits of a text are.
fn number_at_start(text: &[u8]) -> Option<u32>
    ensures { result ≡ leading_number text.now }
{
    read_u32(text.split_at(leading_digits(text)).0)
}

/// Returns how many digits a text begins with.
fn leading_digits(text: &[u8]) -> usize
    ensures { result ≡ prefix_len is_ascii_digit text.now }
{
    text.iter().take_while(|byte| byte.is_ascii_digit()).count()
}

/// Returns how long this many samples play, in milliseconds, if both numbers are known.
fn duration_of(samples: u64, rate: u32) -> Option<u64>
    requires { samples < 2 ^ 36 }
    ensures { result ≡ milliseconds samples rate }
{
    if samples == 0 || rate == 0 {
        None
    } else {
        Some(samples * 1000 / u64::from(rate))
    }
}
