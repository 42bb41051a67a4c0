//! What an item says of its work: its title, artist, album, genre and track number.

ghost use Rattle.std.specs.Prelude.{◌≡◌, IfOk};
ghost use Rattle.cds_didl.specs.Reading.{work_of};

use crate::properties::{maybe_upnp, number_maybe, title};
use cds_base::{Mem, Text};
use cds_markup::Element;
use std::alloc::Global;

/// What stands in an item beside its resource.
#[derive(Drop)]
pub struct Work {
    pub title: Text,
    pub artist: Option<Text>,
    pub album: Option<Text>,
    pub genre: Option<Text>,
    pub number: Option<u32>,
}

/// Returns what stands in an item beside its resource.
#[tactic(auto, unfolding(crate::specs::Reading::work_of))]
pub fn work_of(alloc: Global, element: &Element) -> Result<Option<Work>, Mem>
    ensures { IfOk result (λ work. work ≡ work_of element.now) }
{
    let title = match title(alloc, element)? {
        Some(title) => title,
        None => return Ok(None),
    };
    let artist = match maybe_upnp(alloc, element, "artist")? {
        Some(artist) => artist,
        None => return Ok(None),
    };
    let album = match maybe_upnp(alloc, element, "album")? {
        Some(album) => album,
        None => return Ok(None),
    };
    let genre = match maybe_upnp(alloc, element, "genre")? {
        Some(genre) => genre,
        None => return Ok(None),
    };
    let number = match number_maybe(alloc, element, "originalTrackNumber")? {
        Some(number) => number,
        None => return Ok(None),
    };
    Ok(Some(Work {
        title,
        artist,
        album,
        genre,
        number,
    }))
}
