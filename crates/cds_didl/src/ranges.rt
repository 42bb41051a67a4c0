//! What the types of rows say of their numbers. These functions do nothing: they make the ranges known to proofs.

ghost use Rattle.std.specs.Prelude.{◌<◌, ◌^◌, IfSome};
ghost use Rattle.std.specs.Option.{option_map};
ghost use Rattle.cds_didl.specs.ReadBack.{AreTrackNumbers, HasNumbers, AreCounts, HasRanges};

use cds_object::{Content, ObjectId, Row, TrackContent, Trackers};

/// Says that this number has 32 bits.
fn word(_number: u32)
    ensures { _number < 2 ^ 32 }
{}

/// Says that this number has 64 bits.
fn long(_number: u64)
    ensures { _number < 2 ^ 64 }
{}

/// Says that this number has 8 bits.
fn byte(_number: u8)
    ensures { _number < 2 ^ 8 }
{}

/// Says that this number has 32 bits, if there is one.
fn word_there(number: Option<u32>)
    ensures { IfSome number (λ n. n < 2 ^ 32) }
{
    match number {
        Some(number) => word(number),
        None => (),
    }
}

/// Says that this number has 64 bits, if there is one.
fn long_there(number: Option<u64>)
    ensures { IfSome number (λ n. n < 2 ^ 64) }
{
    match number {
        Some(number) => long(number),
        None => (),
    }
}

/// Says that the id of this parent has 32 bits, if there is one.
fn parent(parent: Option<ObjectId>)
    ensures { IfSome (option_map (λ i. i.0) parent) (λ n. n < 2 ^ 32) }
{
    match parent {
        Some(id) => word(id.0),
        None => (),
    }
}

/// Says that the counts of a container are in the ranges of their types.
fn counts(trackers: Option<Trackers>)
    ensures { IfSome trackers AreCounts }
{
    match trackers {
        Some(trackers) => {
            word(trackers.container_update);
            word(trackers.child_count);
            word(trackers.deleted);
        }
        None => (),
    }
}

/// Says that the numbers of a track are in the ranges of their types.
fn track_numbers(track: &TrackContent)
    ensures { AreTrackNumbers track.now }
{
    word_there(track.number);
    long(track.size);
    long_there(track.duration);
    word(track.rate);
    byte(track.channels);
    byte(track.bits);
}

/// Says that the numbers of a content are in the ranges of their types.
fn numbers(content: &Content)
    ensures { HasNumbers content.now }
{
    match content {
        Content::Folder { .. } => (),
        Content::Track(track) => track_numbers(track),
    }
}

/// Says the two facts of a row, and that its numbers are in the ranges of their types.
pub fn ranges(row: &Row)
    ensures { HasRanges row.now }
{
    row.facts();
    word(row.id.0);
    parent(row.parent);
    numbers(&row.content);
    word(row.object_update);
    counts(row.trackers);
}
