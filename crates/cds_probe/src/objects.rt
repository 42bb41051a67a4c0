//! The rows `path`, `folder` and `track`: paths and contents.

use crate::row::{Row, cut, text_of};
use crate::show::Out;
use cds_base::{Mem, Text};
use cds_object::{Comment, Comments, Content, FlacInfo, Path, TrackContent, content_of, folder_of};
use std::alloc::Global;

/// `path | text`: shows how many names the path has, and the last one.
pub fn path(alloc: Global, row: &Row, out: &mut Out) {
    match Path::read(alloc, row.text(1)) {
        Ok(path) => path_shown(&path, out),
        Err(refusal) => out.refuse(&refusal),
    }
}

fn path_shown(path: &Path, out: &mut Out) {
    out.value(&path.names().len());
    out.put(" to");
    out.quote(path.name().as_bytes());
}

/// `folder | name`: shows the content of a folder.
pub fn folder(alloc: Global, row: &Row, out: &mut Out) {
    made_shown(folder_of(alloc, row.text(1)), out);
}

/// `track | name | size | samples | rate | NAME=value ..`: shows the content of a file of 16 bits and two channels.
pub fn track(alloc: Global, row: &Row, out: &mut Out) {
    let mut info = FlacInfo {
        rate: row.small(4),
        channels: 2,
        bits: 16,
        samples: row.number(3),
        comments: Comments::new(alloc),
    };
    let is_done = put_comments(alloc, row.from(5), &mut info.comments).is_ok();
    out.note(is_done);
    track_of(alloc, &info, row, out);
}

fn track_of(alloc: Global, info: &FlacInfo, row: &Row, out: &mut Out) {
    if info.samples >= 68_719_476_736 {
        out.put("too many samples");
    } else {
        made_shown(content_of(alloc, info, row.text(1), row.number(2)), out);
    }
}

/// Puts the comments that fields `NAME=value` say.
fn put_comments(alloc: Global, fields: &[Vec<u8>], list: &mut Comments) -> Result<(), Mem> {
    for field in fields {
        put_comment(alloc, text_of(field.as_slice()), list)?;
    }
    Ok(())
}

/// Puts the comment that a text `NAME=value` says.
fn put_comment(alloc: Global, text: &str, list: &mut Comments) -> Result<(), Mem> {
    let (name, value) = cut(text, "=");
    let name = Text::read(alloc, name)?;
    let value = Text::read(alloc, value)?;
    list.push(Comment { name, value })
}

/// Shows a content that was made.
fn made_shown(content: Result<Content, Mem>, out: &mut Out) {
    match content {
        Ok(content) => content_shown(&content, out),
        Err(refusal) => out.refuse(&refusal),
    }
}

/// Shows a content.
pub fn content_shown(content: &Content, out: &mut Out) {
    match content {
        Content::Folder { title } => {
            out.put("folder");
            out.quote(title.as_str().as_bytes());
        }
        Content::Track(track) => track_shown(track, out),
    }
}

/// Shows the texts of a track, its number, its size, its duration, its rate, its channels and its bits.
fn track_shown(track: &TrackContent, out: &mut Out) {
    out.put("track");
    out.quote(track.title.as_str().as_bytes());
    out.quote_maybe(&track.artist);
    out.quote_maybe(&track.album);
    out.quote_maybe(&track.genre);
    out.say(" ", &track.number);
    out.say(" ", &track.size);
    out.say(" ", &track.duration);
    out.say(" ", &track.rate);
    out.say(" ", &track.channels);
    out.say(" ", &track.bits);
}
