//! Finds the files of tracks by the ids of their objects.

ghost use Rattle.std.specs.Prelude.{◌≡◌, option_copied, option_map};
ghost use Rattle.cds_object.specs.Tree.{IdsAscend};
ghost use Rattle.cds_store.specs.Files.{file_in, file_under, path_under};
ghost use Rattle.cds_store.specs.Rows.{rows_of};

use crate::Store;
use crate::halving::place_of_id;
use crate::placed::Placed;
use cds_object::{Content, Path};

impl Store {
    /// Returns the path of the file of the track with an id. `None` comes exactly if the id names no track.
    pub fn path(&self, id: u32) -> Option<&Path>
        ensures { option_copied result ≡ path_under id self.now.standing.rows }
    {
        match self.file(id) {
            None => None,
            Some((path, _)) => Some(path),
        }
    }

    /// Returns the path of the file of the track with an id, and its size in bytes. `None` comes exactly if the id names no track.
    pub fn file(&self, id: u32) -> Option<(&Path, u64)>
        ensures { option_map (λ file. (file.0.now, file.1)) result ≡ file_under id self.now.standing.rows }
    {
        file_by_id(self.catalog.rows(), id)
    }
}

/// Returns the path and the size of the file of the track with an id.
fn file_by_id(rows: &[Placed], id: u32) -> Option<(&Path, u64)>
    requires { IdsAscend (rows_of rows.now) }
    ensures { option_map (λ file. (file.0.now, file.1)) result ≡ file_under id rows.now }
{
    match place_of_id(rows, id) {
        None => None,
        Some(at) => file_in(&rows[at]),
    }
}

/// Returns the path and the size of the file of what stands at a place.
fn file_in(placed: &Placed) -> Option<(&Path, u64)>
    ensures { option_map (λ file. (file.0.now, file.1)) result ≡ file_in placed.now.0 placed.now.1.content }
{
    match &placed.row.content {
        Content::Folder { .. } => None,
        Content::Track(track) => Some((&placed.path, track.size)),
    }
}
