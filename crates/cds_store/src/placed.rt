//! Rows with their places.

ghost use Rattle.std.specs.Prelude.{◌≡◌, IfOk};

use cds_base::Mem;
use cds_object::{Path, Row};
use std::alloc::Global;
use std::marker::Model;

/// A row with the place that its object has in the library.
#[derive(Drop)]
pub(crate) struct Placed {
    pub(crate) path: Path,
    pub(crate) row: Row,
}

impl Model for Placed {
    ghost use Rattle.cds_catalog.specs.Catalog.{PlacedRow};

    ghost Value = { PlacedRow };

    ghost view = { λ p. (p.path, p.row) };
}

impl Placed {
    /// Returns the row without its place.
    pub(crate) fn row(&self) -> &Row
        ensures { result.now ≡ self.now.1 }
    {
        &self.row
    }

    /// Returns the id of the object.
    pub(crate) fn id(&self) -> u32
        ensures { result ≡ self.now.1.id }
    {
        self.row.id.0
    }

    /// Returns an equal row at an equal place.
    pub(crate) fn copy(&self, alloc: Global) -> Result<Self, Mem>
        ensures { IfOk result (λ copy. copy ≡ self.now) }
    {
        let path = self.path.copy(alloc)?;
        let row = self.row.copy(alloc)?;
        Ok(Placed { path, row })
    }
}
