//! What objects are and say of themselves.

ghost use Rattle.std.specs.Prelude.{◌≡◌, IfOk};
ghost use Rattle.cds_object.specs.Content.{same_content, same_kind, same_track};
ghost use Rattle.cds_object.specs.Object.{is_folder};

use cds_base::{Mem, Text};
use std::alloc::Global;

/// What a track says of itself.
#[derive(Drop, Debug, PartialEq, Eq)]
pub struct TrackContent {
    pub title: Text,
    pub artist: Option<Text>,
    pub album: Option<Text>,
    pub genre: Option<Text>,
    /// The number of the track on its album.
    pub number: Option<u32>,
    /// The size of the file in bytes.
    pub size: u64,
    /// How long it plays, in milliseconds.
    pub duration: Option<u64>,
    /// Samples in a second, 0 if it is not known.
    pub rate: u32,
    pub channels: u8,
    /// Bits in a sample.
    pub bits: u8,
}

/// What an object is and says of itself, without its place and its numbers.
#[derive(Drop, Debug, PartialEq, Eq)]
pub enum Content {
    Folder { title: Text },
    Track(TrackContent),
}

/// Returns an equal text, or `None` for `None`.
fn copy_if_there(alloc: Global, text: &Option<Text>) -> Result<Option<Text>, Mem>
    ensures { IfOk result (λ copy. copy ≡ text.now) }
{
    match text {
        None => Ok(None),
        Some(text) => Ok(Some(text.copy(alloc)?)),
    }
}

impl TrackContent {
    /// Returns an equal content.
    pub fn copy(&self, alloc: Global) -> Result<Self, Mem>
        ensures { IfOk result (λ copy. copy ≡ self.now) }
    {
        let title = self.title.copy(alloc)?;
        let artist = copy_if_there(alloc, &self.artist)?;
        let album = copy_if_there(alloc, &self.album)?;
        let genre = copy_if_there(alloc, &self.genre)?;
        Ok(TrackContent {
            title,
            artist,
            album,
            genre,
            number: self.number,
            size: self.size,
            duration: self.duration,
            rate: self.rate,
            channels: self.channels,
            bits: self.bits,
        })
    }

    /// Returns whether both say the same in every field.
    fn says_the_same(&self, other: &TrackContent) -> bool
        ensures { result ≡ same_track self.now other.now }
    {
        self == other
    }
}

impl Content {
    /// Returns an equal content.
    pub fn copy(&self, alloc: Global) -> Result<Self, Mem>
        ensures { IfOk result (λ copy. copy ≡ self.now) }
    {
        match self {
            Content::Folder { title } => Ok(Content::Folder {
                title: title.copy(alloc)?,
            }),
            Content::Track(track) => Ok(Content::Track(track.copy(alloc)?)),
        }
    }

    /// Returns whether it is the content of a folder.
    pub fn is_folder(&self) -> bool
        ensures { result ≡ is_folder self.now }
    {
        matches!(self, Content::Folder { .. })
    }

    /// Returns whether both say the same in every field.
    pub fn says_the_same(&self, other: &Content) -> bool
        ensures { result ≡ same_content self.now other.now }
    {
        match (self, other) {
            (Content::Folder { title }, Content::Folder { title: others }) => title == others,
            (Content::Track(track), Content::Track(others)) => track.says_the_same(others),
            _ => false,
        }
    }

    /// Returns whether both are folders or both are tracks.
    pub fn is_of_kind(&self, other: &Content) -> bool
        ensures { result ≡ same_kind self.now other.now }
    {
        self.is_folder() == other.is_folder()
    }
}
