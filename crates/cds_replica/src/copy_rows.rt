//! The rows of a copy, and what each change and each read makes of them.

ghost use Rattle.std.specs.Prelude.{◌≡◌, ◌+◌, ◌<◌, ◌≤◌, Bool, map, vec_len, vec_capacity};
ghost use Rattle.std.specs.List.{AllByRecursion};
ghost use Rattle.cds_follow.specs.Copy.{known_of};
ghost use Rattle.cds_replica.specs.CopyState.{KeptRow};
ghost use Rattle.cds_replica.specs.CopySteps.{counts, counted_rows, wanted_rows, parent_among, rows_without, rows_changed, rows_changed_by, rows_read, adds, additions, AddsNoRoot, IsOfKind};

use crate::copy_row::{ChildChange, CopyRow};
use crate::order::{Identified, put};
use cds_object::{Class, Content, Event};
use std::alloc::Global;

/// Counts a change of a child in the trackers of its parent.
fn count_children(rows: &mut Vec<CopyRow>, parent: Option<u32>, change: ChildChange, number: u32)
    ensures items { rows.new.items ≡ counted_rows (counts change number) parent rows.old.items }
    ensures len { vec_len rows.new ≡ vec_len rows.old }
    ensures capacity { vec_capacity rows.new ≡ vec_capacity rows.old }
{
    for row in rows.iter_mut() {
        row.count(parent, change, number);
    }
}

/// Has an object read at this number or later.
fn want(rows: &mut Vec<CopyRow>, id: u32, number: u32)
    ensures items { rows.new.items ≡ wanted_rows id number rows.old.items }
    ensures len { vec_len rows.new ≡ vec_len rows.old }
    ensures capacity { vec_capacity rows.new ≡ vec_capacity rows.old }
{
    for row in rows.iter_mut() {
        row.want(id, number);
    }
}

/// Returns the parent of an object, or none if it does not stand or is the root.
fn parent_of(rows: &[CopyRow], id: u32) -> Option<u32>
    ensures { result ≡ parent_among id rows.now }
{
    for row in rows {
        if row.id() == id {
            return row.parent();
        }
    }
    None
}

/// Takes the row of an object out.
fn remove(rows: &mut Vec<CopyRow>, id: u32)
    ensures items { rows.new.items ≡ rows_without id rows.old.items }
    ensures len { vec_len rows.new ≤ vec_len rows.old }
    ensures capacity { vec_capacity rows.new ≡ vec_capacity rows.old }
{
    rows.retain(|row| !(row.id() == id));
}

/// Makes an addition, for which there is room.
fn add(rows: &mut Vec<CopyRow>, alloc: Global, id: u32, number: u32, parent: u32, class: Class)
    requires above { 0 < id }
    requires room { vec_len rows.old < vec_capacity rows.old }
    ensures items { (st : Bool) → rows.new.items ≡ rows_changed rows.old.items (Event.ObjAdd id number st parent class) }
    ensures len { vec_len rows.new ≡ vec_len rows.old + 1 }
    ensures capacity { vec_capacity rows.old ≤ vec_capacity rows.new }
{
    count_children(rows, Some(parent), ChildChange::Added, number);
    put(rows, CopyRow::added(alloc, id, number, parent, class));
}

/// Makes a modification.
fn modify(rows: &mut Vec<CopyRow>, id: u32, number: u32)
    ensures items { (st : Bool) → rows.new.items ≡ rows_changed rows.old.items (Event.ObjMod id number st) }
    ensures len { vec_len rows.new ≡ vec_len rows.old }
    ensures capacity { vec_capacity rows.new ≡ vec_capacity rows.old }
{
    let parent = parent_of(rows, id);
    count_children(rows, parent, ChildChange::Modified, number);
    want(rows, id, number);
}

/// Makes a deletion.
fn delete(rows: &mut Vec<CopyRow>, id: u32, number: u32)
    ensures items { (st : Bool) → rows.new.items ≡ rows_changed rows.old.items (Event.ObjDel id number st) }
    ensures len { vec_len rows.new ≤ vec_len rows.old }
    ensures capacity { vec_capacity rows.new ≡ vec_capacity rows.old }
{
    let parent = parent_of(rows, id);
    remove(rows, id);
    count_children(rows, parent, ChildChange::Deleted, number);
}

/// Makes a change. Conditions: there is room for it, and it does not add the root.
fn change(rows: &mut Vec<CopyRow>, alloc: Global, event: &Event)
    requires room { vec_len rows.old + adds event.now ≤ vec_capacity rows.old }
    requires above { AddsNoRoot event.now }
    ensures items { rows.new.items ≡ rows_changed rows.old.items event.now }
    ensures len { vec_len rows.new ≤ vec_len rows.old + adds event.now }
    ensures capacity { vec_capacity rows.old ≤ vec_capacity rows.new }
{
    match *event {
        Event::ObjAdd {
            id,
            update,
            parent,
            class,
            ..
        } => add(rows, alloc, id, update, parent, class),
        Event::ObjMod { id, update, .. } => modify(rows, id, update),
        Event::ObjDel { id, update, .. } => delete(rows, id, update),
        Event::StDone { .. } => {}
    }
}

/// Makes changes one after the other. Conditions: there is room for them, and none adds the root.
pub fn change_all(rows: &mut Vec<CopyRow>, alloc: Global, events: &[Event])
    requires room { vec_len rows.old + additions events.now ≤ vec_capacity rows.old }
    requires above { AllByRecursion AddsNoRoot events.now }
    ensures { rows.new.items ≡ rows_changed_by rows.old.items events.now }
{
    for event in events {
        change(rows, alloc, event);
    }
}

/// Returns how many of these are additions.
pub fn additions(events: &[Event]) -> usize
    ensures { result ≡ additions events.now }
{
    events
        .iter()
        .filter(|event| matches!(event, Event::ObjAdd { .. }))
        .count()
}

/// Takes what a read showed of an object. Condition: the content is of its kind.
pub fn read(rows: &mut [CopyRow], id: u32, content: Content, version: u32)
    requires { IsOfKind content (known_of id (map (λ (kept : KeptRow). kept.row) rows.old)) }
    ensures { rows.new ≡ rows_read id (record { content = content; object_update = version }) rows.old }
{
    for at in 0..rows.len() {
        if rows[at].id() == id {
            rows[at].read(content, version);
            return;
        }
    }
}
