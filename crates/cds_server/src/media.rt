//! The files of tracks, as a server names them. It opens none.

ghost use Rattle.std.specs.Prelude.{◌≡◌, ◌++◌, List, IfOk, OnOk, string_bytes};
ghost use Rattle.cds_commands.specs.Commands.{Command, Start};
ghost use Rattle.cds_commands.specs.Names.{names_of};
ghost use Rattle.cds_server.specs.Media.{PathsKeepTheirText, after_name, media_by, media_in, path_text};
ghost use Rattle.cds_server.specs.Published.{device_name};
ghost use Rattle.cds_server.specs.Serving.{StandsFor};

use crate::Server;
use cds_base::{Mem, Text, put};
use cds_object::Path;
use std::alloc::Global;
use uuid::Uuid;

/// The file of a track.
#[derive(Drop)]
pub struct Media {
    /// The path that leads to it from the folder of the library.
    pub path: Path,
    /// Its size in bytes, as the last scan found it.
    pub size: u64,
}

impl Server {
    /// Returns the file of the track with an id. `None` comes exactly if the id names no track.
    pub fn media(&self, alloc: Global, id: u32) -> Result<Option<Media>, Mem>
        ensures kept { IfOk result (λ media. media ≡ media_in self.now.store.standing.rows id) }
        ensures counted { (start : Start) (commands : List Command) → StandsFor self.now start commands
            → IfOk result (λ media. media ≡ media_by start commands id) }
    {
        match self.store.file(id) {
            None => Ok(None),
            Some((path, size)) => {
                let path = path.copy(alloc)?;
                Ok(Some(Media { path, size }))
            }
        }
    }
}

impl Server {
    /// Returns the UUID of the device that the server is: its name of number 0 (UPnP Device Architecture 2.0 on UDN). This takes no
    /// memory.
    pub fn device_name(&self) -> Uuid
        ensures kept { result ≡ device_name self.now.book.names }
        ensures counted { (start : Start) (commands : List Command) → StandsFor self.now start commands
            → result ≡ device_name (names_of start) }
    {
        Uuid::from_u128(self.book.names())
    }
}

/// Returns the text of a path: its names with a `/` between each two.
pub fn path_text(alloc: Global, path: &Path) -> Result<String, Mem>
    ensures { IfOk result (λ text. string_bytes text ≡ path_text path.now) }
{
    let mut text = String::new(alloc);
    put_names(&mut text, path.names())?;
    Ok(text)
}

/// Appends names with a `/` between each two.
fn put_names(text: &mut String, names: &[Text]) -> Result<(), Mem>
    ensures { OnOk result (string_bytes text.new ≡ string_bytes text.old ++ path_text names.now) }
{
    let mut left = names;
    'names: while let Some((name, rest)) = left.split_first() {
        put(text, name.as_str())?;
        put_slash(text, rest)?;
        left = rest;
    }
    Ok(())
}

/// Appends a `/`, if names follow.
fn put_slash(text: &mut String, rest: &[Text]) -> Result<(), Mem>
    ensures { OnOk result (string_bytes text.new ++ path_text rest.now ≡ string_bytes text.old ++ after_name rest.now) }
{
    if rest.is_empty() {
        Ok(())
    } else {
        put(text, "/")
    }
}

/// States that a path that was read from a text has this text.
pub fn paths_keep_their_text()
    ensures { PathsKeepTheirText }
{}
