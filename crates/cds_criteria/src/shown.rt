//! What an object has of a property.

ghost use Rattle.std.specs.Prelude.{◌≡◌, option_copied};
ghost use Rattle.cds_criteria.specs.Meaning.{title_of, artist_of, album_of, genre_of, track_number_of, size_of, duration_of, class_text, container_update_of};

use cds_base::Text;
use cds_object::{Content, Trackers};

/// Returns the title of an object.
pub(crate) fn title_of(content: &Content) -> &Text
    ensures { result.now ≡ title_of content.now }
{
    match content {
        Content::Folder { title } => title,
        Content::Track(track) => &track.title,
    }
}

/// Returns the artist of a track.
pub(crate) fn artist_of(content: &Content) -> Option<&Text>
    ensures { option_copied result ≡ artist_of content.now }
{
    match content {
        Content::Folder { .. } => None,
        Content::Track(track) => track.artist.as_ref(),
    }
}

/// Returns the album of a track.
pub(crate) fn album_of(content: &Content) -> Option<&Text>
    ensures { option_copied result ≡ album_of content.now }
{
    match content {
        Content::Folder { .. } => None,
        Content::Track(track) => track.album.as_ref(),
    }
}

/// Returns the genre of a track.
pub(crate) fn genre_of(content: &Content) -> Option<&Text>
    ensures { option_copied result ≡ genre_of content.now }
{
    match content {
        Content::Folder { .. } => None,
        Content::Track(track) => track.genre.as_ref(),
    }
}

/// Returns the number of a track on its album.
pub(crate) fn track_number_of(content: &Content) -> Option<u32>
    ensures { result ≡ track_number_of content.now }
{
    match content {
        Content::Folder { .. } => None,
        Content::Track(track) => track.number,
    }
}

/// Returns the size of a track in bytes.
pub(crate) fn size_of(content: &Content) -> Option<u64>
    ensures { result ≡ size_of content.now }
{
    match content {
        Content::Folder { .. } => None,
        Content::Track(track) => Some(track.size),
    }
}

/// Returns how long a track plays, in milliseconds.
pub(crate) fn duration_of(content: &Content) -> Option<u64>
    ensures { result ≡ duration_of content.now }
{
    match content {
        Content::Folder { .. } => None,
        Content::Track(track) => track.duration,
    }
}

/// Returns the text of an object's class.
pub(crate) fn class_text(content: &Content) -> &str
    ensures { result.now ≡ class_text content.now }
{
    match content {
        Content::Folder { .. } => "object.container",
        Content::Track(_) => "object.item.audioItem.musicTrack",
    }
}

/// Returns the containerUpdateID of a container.
pub(crate) fn container_update_of(trackers: Option<Trackers>) -> Option<u32>
    ensures { result ≡ container_update_of trackers }
{
    match trackers {
        None => None,
        Some(trackers) => Some(trackers.container_update),
    }
}
