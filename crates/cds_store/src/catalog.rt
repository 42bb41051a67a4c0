//! Keeps the rows as they stand, with the numbers drawn so far, and makes changes to them one by one.

ghost use Rattle.std.specs.Prelude.{◌≡◌, ◌+◌, ◌<◌, ◌^◌, [], ◌∷◌, ◌++◌, reverse, filter, not, IfOk};
ghost use Rattle.std.specs.List.{AllByRecursion};
ghost use Rattle.cds_object.specs.Path.{same_path, parent_of};
ghost use Rattle.cds_catalog.specs.History.{place_of};
ghost use Rattle.cds_store.specs.ChangeEvents.{changes_in, event_by, events_by, all_events_by};
ghost use Rattle.cds_object.specs.Object.{is_folder};
ghost use Rattle.cds_catalog.specs.Steps.{step, stepped, touch, touched, modified, id_at, new_row, new_trackers};
ghost use Rattle.cds_store.specs.Rows.{CanMake, KeepsKind};
ghost use Rattle.cds_store.specs.Stands.{IsScan, beginning};

use crate::placed::Placed;
use crate::subtrees::{MarkedChange, place_of};
use crate::touch::{ChildEvent, touch_parent};
use cds_base::{Mem, Text};
use cds_catalog::Change;
use cds_changes::EventWithParent;
use cds_object::{Class, Content, Event, ObjectId, Path, Row, Trackers};
use std::alloc::Global;
use std::marker::Model;
use std::mem;

/// What stands: the number of the newest change, how many ids were drawn, and the rows in ascending order of ids.
#[derive(Drop)]
pub(crate) struct Catalog {
    pub(crate) number: u32,
    pub(crate) drawn: u32,
    pub(crate) rows: Vec<Placed>,
}

impl Model for Catalog {
    ghost use Rattle.cds_catalog.specs.Steps.{Standing};

    ghost Value = { Standing };

    ghost view = { λ c. record { number = c.number; drawn = c.drawn; rows = c.rows.items } };
}

pub(crate) fn remove_row(rows: &mut Vec<Placed>, path: &Path)
    ensures { rows.new.items ≡ filter (λ placed. not (same_path path.now placed.0)) rows.old.items }
{
    rows.retain(|placed| !(*path == placed.path));
}

fn modify_placed(
    alloc: Global,
    placed: &mut Placed,
    path: &Path,
    content: &Content,
    number: u32,
) -> Result<(), Mem>
    requires { KeepsKind path.now content.now placed.old }
    ensures { IfOk result (λ _. placed.new ≡ touched path.now (modified number content.now) placed.old) }
{
    if *path == placed.path {
        let content = content.copy(alloc)?;
        modify_row(&mut placed.row, content, number);
    }
    Ok(())
}

pub(crate) fn modify_row(row: &mut Row, content: Content, number: u32)
    requires { is_folder row.old.content ≡ is_folder content }
    ensures { row.new ≡ modified number content row.old }
{
    drop(mem::replace(&mut row.content, content));
    row.object_update = number;
}

fn modify_rows(
    alloc: Global,
    rows: &mut Vec<Placed>,
    path: &Path,
    content: &Content,
    number: u32,
) -> Result<(), Mem>
    requires { AllByRecursion (KeepsKind path.now content.now) rows.old.items }
    ensures { IfOk result (λ _. rows.new.items ≡ touch path.now (modified number content.now) rows.old.items) }
{
    for placed in rows.iter_mut() {
        modify_placed(alloc, placed, path, content, number)?;
    }
    Ok(())
}

fn id_at(rows: &[Placed], path: &Path) -> ObjectId
    ensures { result.0 ≡ id_at path.now rows.now }
{
    for placed in rows {
        if *path == placed.path {
            return placed.row.id;
        }
    }
    ObjectId(0)
}

fn new_trackers(number: u32, content: &Content) -> Option<Trackers>
    ensures { result ≡ new_trackers number content.now }
{
    match content {
        Content::Folder { .. } => Some(Trackers {
            container_update: number,
            child_count: 0,
            deleted: 0,
        }),
        Content::Track(_) => None,
    }
}

/// Returns the row of an object that was just added. An id that was drawn is above 0.
pub(crate) fn new_row(id: u32, parent: ObjectId, number: u32, content: Content) -> Row
    requires { 0 < id }
    ensures { result ≡ new_row id parent.0 number content }
{
    let trackers = new_trackers(number, &content);
    Row {
        id: ObjectId(id),
        parent: Some(parent),
        content,
        object_update: number,
        trackers,
    }
}

impl Catalog {
    /// Returns the root alone, before any change.
    pub(crate) fn new(alloc: Global, first: u32) -> Result<Self, Mem>
        ensures { IfOk result (λ catalog. catalog ≡ beginning first) }
    {
        let root = Row {
            id: ObjectId(0),
            parent: None,
            content: Content::Folder {
                title: Text::read(alloc, "root")?,
            },
            object_update: first,
            trackers: Some(Trackers {
                container_update: first,
                child_count: 0,
                deleted: 0,
            }),
        };
        let mut rows = Vec::new(alloc);
        rows.push(Placed {
            path: Path::root(alloc),
            row: root,
        })?;
        Ok(Catalog {
            number: first,
            drawn: 0,
            rows,
        })
    }

    /// Returns the number of the newest change, or the first number.
    pub(crate) fn number(&self) -> u32
        ensures { result ≡ self.now.number }
    {
        self.number
    }

    /// Returns how many ids were drawn.
    pub(crate) fn drawn(&self) -> u32
        ensures { result ≡ self.now.drawn }
    {
        self.drawn
    }

    /// Returns the rows in ascending order of ids.
    pub(crate) fn rows(&self) -> &[Placed]
        ensures { result.now ≡ self.now.rows }
    {
        self.rows.as_slice()
    }

    /// Returns an equal catalog.
    pub(crate) fn copy(&self, alloc: Global) -> Result<Self, Mem>
        ensures { IfOk result (λ copy. copy ≡ self.now) }
    {
        let mut rows = Vec::new(alloc);
        for placed in self.rows.iter() {
            rows.push(placed.copy(alloc)?)?;
        }
        Ok(Catalog {
            number: self.number,
            drawn: self.drawn,
            rows,
        })
    }

    fn delete(&mut self, alloc: Global, path: Path) -> Result<(), Mem>
        requires { CanMake self.old (Change.Deletion path) }
        ensures { IfOk result (λ _. self.new ≡ step self.old (Change.Deletion path)) }
    {
        let parent = path.parent(alloc)?;
        remove_row(&mut self.rows, &path);
        self.number += 1;
        touch_parent(&mut self.rows, &parent, ChildEvent::Deleted, self.number);
        Ok(())
    }

    fn add(&mut self, alloc: Global, path: Path, content: Content) -> Result<(), Mem>
        requires { CanMake self.old (Change.Addition path content) }
        ensures { IfOk result (λ _. self.new ≡ step self.old (Change.Addition path content)) }
    {
        let parent = path.parent(alloc)?;
        let parent_id = id_at(self.rows.as_slice(), &parent);
        self.number += 1;
        self.drawn += 1;
        let row = new_row(self.drawn, parent_id, self.number, content);
        touch_parent(&mut self.rows, &parent, ChildEvent::Added, self.number);
        self.rows.push(Placed { path, row })?;
        Ok(())
    }

    fn modify(&mut self, alloc: Global, path: &Path, content: &Content) -> Result<(), Mem>
        requires { CanMake self.old (Change.Modification path.now content.now) }
        ensures { IfOk result (λ _. self.new ≡ step self.old (Change.Modification path.now content.now)) }
    {
        let parent = path.parent(alloc)?;
        self.number += 1;
        modify_rows(alloc, &mut self.rows, path, content, self.number)?;
        touch_parent(&mut self.rows, &parent, ChildEvent::Modified, self.number);
        Ok(())
    }

    fn make(&mut self, alloc: Global, change: Change) -> Result<(), Mem>
        requires { CanMake self.old change }
        ensures { IfOk result (λ _. self.new ≡ step self.old change) }
    {
        match change {
            Change::Deletion { path } => self.delete(alloc, path),
            Change::Addition { path, content } => self.add(alloc, path, content),
            Change::Modification { path, content } => self.modify(alloc, &path, &content),
        }
    }

    /// Returns the id of the parent that a change names.
    fn parent_id(&self, alloc: Global, change: &Change) -> Result<u32, Mem>
        ensures { IfOk result (λ id. id ≡ id_at (parent_of (place_of change.now)) self.now.rows) }
    {
        let parent = place_of(change).parent(alloc)?;
        Ok(id_at(self.rows.as_slice(), &parent).0)
    }

    /// Returns the event of the next change, under the parent with this id.
    fn event(&self, change: &Change, st: bool, parent: u32) -> Event
        requires number { self.now.number + 1 < 2 ^ 32 }
        requires drawn { self.now.drawn + 1 < 2 ^ 32 }
        requires parent { parent ≡ id_at (parent_of (place_of change.now)) self.now.rows }
        ensures { result ≡ event_by self.now change.now st }
    {
        let update = self.number + 1;
        match change {
            Change::Deletion { path } => Event::ObjDel {
                id: id_at(self.rows.as_slice(), path).0,
                update,
                st,
            },
            Change::Addition { content, .. } => Event::ObjAdd {
                id: self.drawn + 1,
                update,
                st,
                parent,
                class: Class::of(content),
            },
            Change::Modification { path, .. } => Event::ObjMod {
                id: id_at(self.rows.as_slice(), path).0,
                update,
                st,
            },
        }
    }

    /// Appends the events of the next change.
    fn note(
        &self,
        alloc: Global,
        marked_change: &MarkedChange,
        told: &mut Vec<EventWithParent>,
    ) -> Result<(), Mem>
        requires { CanMake self.now marked_change.now.change }
        ensures { IfOk result (λ _. told.new.items ≡ told.old.items ++ events_by self.now marked_change.now) }
    {
        let parent = self.parent_id(alloc, &marked_change.change)?;
        let event = self.event(&marked_change.change, marked_change.st, parent);
        told.push(EventWithParent {
            event,
            parent: Some(parent),
        })?;
        if let Some(head) = &marked_change.done {
            let id = id_at(self.rows.as_slice(), head).0;
            let update = self.number + 1;
            let event = Event::StDone { id, update };
            told.push(EventWithParent {
                event,
                parent: None,
            })?;
        }
        Ok(())
    }

    /// Makes the changes of a scan, the oldest first, and returns their events. If memory runs out, some changes are
    /// made.
    pub(crate) fn make_all(
        &mut self,
        alloc: Global,
        plan: Vec<MarkedChange>,
    ) -> Result<Vec<EventWithParent>, Mem>
        requires { IsScan self.old (changes_in (reverse plan.items)) }
        ensures made { IfOk result (λ _. self.new ≡ stepped self.old (changes_in (reverse plan.items))) }
        ensures told { IfOk result (λ told. told.items ≡ all_events_by self.old (reverse plan.items)) }
    {
        let mut told = Vec::new(alloc);
        for marked_change in plan {
            self.note(alloc, &marked_change, &mut told)?;
            self.make(alloc, marked_change.change)?;
        }
        Ok(told)
    }
}
