//! The rows in which a server shows objects.

ghost use Rattle.std.specs.Prelude.{◌≡◌, IfOk};
ghost use Rattle.cds_object.specs.Object.{IsRow};

use crate::{Content, ObjectId};
use cds_base::{Mem, Sequence};
use std::alloc::Global;
use std::marker::Model;

/// How a container tracks the changes of its children (UPnP ContentDirectory:4 on tracking changes).
#[derive(Clone, Copy, Debug, PartialEq, Eq)]
pub struct Trackers {
    /// The SystemUpdateID of the last change of a child that the container counts, or of its own start if there is
    /// none.
    pub container_update: u32,
    /// The number of children.
    pub child_count: u32,
    /// The number of deletions of children that the container counts.
    pub deleted: u32,
}

/// An object as a server shows it. Only the root has no parent, and exactly the folders have trackers.
#[derive(Drop, Debug)]
pub struct Row {
    pub id: ObjectId,
    pub parent: Option<ObjectId>,
    pub content: Content,
    /// The SystemUpdateID of the object's own last change.
    pub object_update: u32,
    pub trackers: Option<Trackers>,
}

impl Model for Row {
    ghost use Rattle.cds_object.specs.Object.{ObjectRow, IsRow};
    ghost use Rattle.std.specs.Option.{option_map};

    ghost Value = { ObjectRow };

    ghost view = { λ r. record {
      id = r.id.0;
      parent = option_map (λ i. i.0) r.parent;
      content = r.content;
      object_update = r.object_update;
      trackers = r.trackers;
    } };

    ghost invariant = { λ r. IsRow (record {
      id = r.id.0;
      parent = option_map (λ i. i.0) r.parent;
      content = r.content;
      object_update = r.object_update;
      trackers = r.trackers;
    }) };
}

impl Row {
    /// Makes known what holds of every row. Only proofs need this.
    pub fn facts(&self)
        ensures { IsRow self.now }
    {
        let _ = &self.id;
    }

    /// Returns an equal row.
    pub fn copy(&self, alloc: Global) -> Result<Self, Mem>
        ensures { IfOk result (λ copy. copy ≡ self.now) }
    {
        let content = self.content.copy(alloc)?;
        Ok(Row {
            id: self.id,
            parent: self.parent,
            content,
            object_update: self.object_update,
            trackers: self.trackers,
        })
    }
}

/// Rows in order.
pub type Rows = Sequence<Row>;
