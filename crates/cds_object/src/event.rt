//! The events of a catalog's changes, as a StateEvent lists them (this project's profile of UPnP ContentDirectory:4 on
//! LastChange).

ghost use Rattle.std.specs.Prelude.{◌≡◌};
ghost use Rattle.cds_object.specs.Events.{is_container, update_of, object_of, is_change, class_of};

use crate::Content;
use cds_base::Sequence;

/// The kind of object that was added.
#[derive(Clone, Copy, Debug, PartialEq, Eq)]
pub enum Class {
    /// `object.container`
    Container,
    /// `object.item.audioItem.musicTrack`
    Track,
}

impl Class {
    /// Returns the class of an object, by what it says.
    pub fn of(content: &Content) -> Class
        ensures { result ≡ class_of content.now }
    {
        if content.is_folder() {
            Class::Container
        } else {
            Class::Track
        }
    }

    /// Returns whether objects of the class hold others.
    pub fn is_container(self) -> bool
        ensures { result ≡ is_container self }
    {
        matches!(self, Class::Container)
    }
}

/// One event. `update` is the SystemUpdateID of a change. `st` says whether the change belongs to a subtree update,
/// whose end is told by a `StDone`.
#[derive(Clone, Copy, Debug, PartialEq, Eq)]
pub enum Event {
    /// An object was added under a parent.
    ObjAdd {
        id: u32,
        update: u32,
        st: bool,
        parent: u32,
        class: Class,
    },
    /// An object says something else now.
    ObjMod {
        id: u32,
        update: u32,
        st: bool,
    },
    /// An object was deleted.
    ObjDel {
        id: u32,
        update: u32,
        st: bool,
    },
    /// The subtree update of this object is done. `update` is the number of its last change.
    StDone {
        id: u32,
        update: u32,
    },
}

impl Event {
    /// Returns the number of the change that it tells, or of the last change of the subtree update that is done.
    pub fn update(&self) -> u32
        ensures { result ≡ update_of self.now }
    {
        match self {
            Event::ObjAdd { update, .. } => *update,
            Event::ObjMod { update, .. } => *update,
            Event::ObjDel { update, .. } => *update,
            Event::StDone { update, .. } => *update,
        }
    }

    /// Returns the id of the object that it names.
    pub fn object(&self) -> u32
        ensures { result ≡ object_of self.now }
    {
        match self {
            Event::ObjAdd { id, .. } => *id,
            Event::ObjMod { id, .. } => *id,
            Event::ObjDel { id, .. } => *id,
            Event::StDone { id, .. } => *id,
        }
    }

    /// Returns whether it tells a change, and not that a subtree update is done.
    pub fn is_change(&self) -> bool
        ensures { result ≡ is_change self.now }
    {
        !matches!(self, Event::StDone { .. })
    }
}

/// Events in order.
pub type Events = Sequence<Event>;
