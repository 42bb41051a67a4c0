//! The rows that a load has shown so far, and the containers that it has still to list.

ghost use Rattle.std.specs.Prelude.{◌≡◌, ◌^◌, ◌<◌, length};
ghost use Rattle.cds_load.specs.Stages.{waiting_of};
ghost use Rattle.cds_replica.specs.Order.{KeysAscend, KeysAscend-prop, id_of_row, id_of_waiting};

use crate::order::Identified;
use cds_object::Row;
use std::marker::Model;

/// A container that waits to be listed, with its child count.
#[derive(Drop)]
pub struct Container {
    id: u32,
    children: u32,
}

impl Model for Container {
    ghost use Rattle.cds_load.specs.Stages.{Waiting};

    ghost Value = { Waiting };

    ghost view = { λ c. record { id = c.id; children = c.children } };
}

impl Identified for Container {
    ghost use Rattle.cds_load.specs.Stages.{Waiting};

    ghost id_of = { λ (w : Waiting). w.id };

    fn id(&self) -> u32 {
        self.id
    }
}

impl Container {
    /// Returns the container of a row, or `None` if it is a track's.
    pub fn of(row: &Row) -> Option<Container>
        ensures { result ≡ waiting_of row.now }
    {
        match row.trackers {
            None => None,
            Some(trackers) => Some(Container {
                id: row.id.0,
                children: trackers.child_count,
            }),
        }
    }

    /// Returns how many children it has.
    pub fn children(&self) -> u32
        ensures { result ≡ self.now.children }
    {
        self.children
    }
}

/// The rows of whole listings in ascending order of ids; the containers among them that are not listed yet; and the children
/// shown so far of the first of these.
#[derive(Drop)]
pub struct Listing {
    pub rows: Vec<Row>,
    pub waiting: Vec<Container>,
    pub part: Vec<Row>,
    ghost part_fits: { length part.items < 2 ^ 32 },
    ghost rows_ascend: { KeysAscend id_of_row rows.items } by { KeysAscend-prop id_of_row rows.items },
    ghost waiting_ascend: { KeysAscend id_of_waiting waiting.items } by { KeysAscend-prop id_of_waiting waiting.items },
}
