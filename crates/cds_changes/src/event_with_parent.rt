//! An event with the parent that its change names.

use cds_object::Event;

/// An event with the id of the parent that its change names. The event that a subtree update is done names none.
#[derive(Clone, Copy, Debug, PartialEq, Eq)]
pub struct EventWithParent {
    pub event: Event,
    pub parent: Option<u32>,
}
