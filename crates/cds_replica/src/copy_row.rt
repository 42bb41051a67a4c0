//! A row of a copy, and what each change and each read makes of it.

ghost use Rattle.cds_object.specs.Events.{is_container};
ghost use Rattle.std.specs.Prelude.{◌≡◌, ◌<◌, nat_eq, option_copied};
ghost use Rattle.std.specs.Option.{option_eq};
ghost use Rattle.cds_object.specs.Object.{is_folder};
ghost use Rattle.cds_follow.specs.Copy.{shown_row};
ghost use Rattle.cds_replica.specs.CopyState.{is_wanted};
ghost use Rattle.cds_replica.specs.CopySteps.{loaded_row, new_row, new_trackers, counted_row, count_row, counts, wanted_row, read_of_row};

use crate::order::Identified;
use cds_base::Text;
use cds_object::{Class, Content, ObjectId, Row, TrackContent, Trackers};
use std::alloc::Global;
use std::fmt::{Debug, Formatter};
use std::marker::Model;
use std::{fmt, mem};

/// What befell a child of a container.
#[derive(Clone, Copy)]
pub enum ChildChange {
    Added,
    Modified,
    Deleted,
}

/// A row of a copy, which also tells whether its object is to be read.
#[derive(Drop)]
pub struct CopyRow {
    /// What is known of the object. If it was not read yet, its content says nothing but its kind.
    row: Row,
    /// Whether it is known what the object says.
    known: bool,
    /// The greatest number at which a note told that the object was added or modified; 0 if none did.
    wanted: u32,
    /// The greatest version of the object that a read showed; 0 if none did.
    shown: u32,
}

impl Model for CopyRow {
    ghost use Rattle.cds_replica.specs.CopyState.{KeptRow, kept_in};

    ghost Value = { KeptRow };

    ghost view = { λ c. kept_in c.row c.known c.wanted c.shown };
}

/// Writes its name alone. Deriving this for all that it holds would cost much to prove, and nothing prints it.
impl Debug for CopyRow {
    fn fmt<W: fmt::Write>(&self, f: &mut Formatter<W>) -> fmt::Result {
        f.debug_struct("CopyRow").finish_non_exhaustive()
    }
}

impl Identified for CopyRow {
    ghost use Rattle.cds_replica.specs.CopyState.{kept_id};

    ghost id_of = { kept_id };

    fn id(&self) -> u32 {
        self.row.id.0
    }
}

/// Returns a content that says nothing but its kind, and takes no memory.
fn content_of_class(alloc: Global, class: Class) -> Content
    ensures { is_folder result ≡ is_container class }
{
    let title = Text::from(String::new(alloc));
    match class {
        Class::Container => Content::Folder { title },
        Class::Track => Content::Track(TrackContent {
            title,
            artist: None,
            album: None,
            genre: None,
            number: None,
            size: 0,
            duration: None,
            rate: 0,
            channels: 0,
            bits: 0,
        }),
    }
}

/// Returns the trackers of a container that was added at a number; a track has none.
fn trackers_of_class(number: u32, class: Class) -> Option<Trackers>
    ensures { result ≡ new_trackers number class }
{
    match class {
        Class::Container => Some(Trackers {
            container_update: number,
            child_count: 0,
            deleted: 0,
        }),
        Class::Track => None,
    }
}

/// Returns the trackers after a change of a child. A count that rises stands still at its last value.
fn counted(trackers: Trackers, change: ChildChange, number: u32) -> Trackers
    ensures { result ≡ counts change number trackers }
{
    let (child_count, deleted) = match change {
        ChildChange::Added => (trackers.child_count.saturating_add(1), trackers.deleted),
        ChildChange::Modified => (trackers.child_count, trackers.deleted),
        ChildChange::Deleted => (
            trackers.child_count.saturating_sub(1),
            trackers.deleted.saturating_add(1),
        ),
    };
    Trackers {
        container_update: number,
        child_count,
        deleted,
    }
}

fn count_row(row: &mut Row, change: ChildChange, number: u32)
    ensures { row.new ≡ count_row change number row.old }
{
    if let Some(trackers) = row.trackers {
        row.trackers = Some(counted(trackers, change, number));
    }
}

impl CopyRow {
    /// Returns a row that a load has read.
    pub fn of(row: Row) -> CopyRow
        ensures { result ≡ loaded_row row }
    {
        CopyRow {
            row,
            known: true,
            wanted: 0,
            shown: 0,
        }
    }

    /// Returns the row of an object that a note added. Condition: its id is above 0.
    pub(crate) fn added(alloc: Global, id: u32, number: u32, parent: u32, class: Class) -> CopyRow
        requires { 0 < id }
        ensures { result ≡ new_row id number parent class }
    {
        let row = Row {
            id: ObjectId(id),
            parent: Some(ObjectId(parent)),
            content: content_of_class(alloc, class),
            object_update: number,
            trackers: trackers_of_class(number, class),
        };
        CopyRow {
            row,
            known: false,
            wanted: number,
            shown: 0,
        }
    }

    /// Returns the row, if it is known what the object says.
    pub fn row(&self) -> Option<&Row>
        ensures { option_copied result ≡ shown_row self.now.row }
    {
        if self.known { Some(&self.row) } else { None }
    }

    /// Returns the id of the parent; the root has none.
    pub(crate) fn parent(&self) -> Option<u32>
        ensures { result ≡ self.now.row.parent }
    {
        match self.row.parent {
            Some(parent) => Some(parent.0),
            None => None,
        }
    }

    /// Returns whether it is a container's.
    pub(crate) fn is_folder(&self) -> bool
        ensures { result ≡ self.now.row.folder }
    {
        self.row.content.is_folder()
    }

    /// Returns whether the object is to be read: no read showed the number at which it was last added or modified, or a later
    /// one.
    pub(crate) fn is_wanted(&self) -> bool
        ensures { result ≡ is_wanted self.now }
    {
        self.shown < self.wanted
    }

    /// Returns whether it is the row of this object.
    fn is_of(&self, id: Option<u32>) -> bool
        ensures { result ≡ option_eq nat_eq (Some self.now.row.id) id }
    {
        match id {
            Some(id) => self.row.id.0 == id,
            None => false,
        }
    }

    /// Counts a change of a child in the trackers, if this is the parent's row.
    pub(crate) fn count(&mut self, parent: Option<u32>, change: ChildChange, number: u32)
        ensures { self.new ≡ counted_row (counts change number) parent self.old }
    {
        if self.is_of(parent) {
            count_row(&mut self.row, change, number);
        }
    }

    /// Has the object read at this number or later, if this is its row.
    pub(crate) fn want(&mut self, id: u32, number: u32)
        ensures { self.new ≡ wanted_row id number self.old }
    {
        if id == self.row.id.0 {
            self.wanted = number.max(self.wanted);
        }
    }

    /// Takes what a read showed. Condition: the content is of the row's kind. A version lower than the one that is kept is passed
    /// over.
    pub(crate) fn read(&mut self, content: Content, version: u32)
        requires { is_folder content ≡ self.old.row.folder }
        ensures { self.new ≡ read_of_row (record { content = content; object_update = version }) self.old }
    {
        self.shown = version.max(self.shown);
        if !self.known || version >= self.row.object_update {
            drop(mem::replace(&mut self.row.content, content));
            self.row.object_update = version;
            self.known = true;
        }
    }
}
