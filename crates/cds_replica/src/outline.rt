//! The rows of a copy in outline, and whether changes can be. What is told is judged as a whole before any of it is counted.

ghost use Rattle.std.specs.Prelude.{◌≡◌, nat_eq, not, filter, IfOk};
ghost use Rattle.std.specs.Option.{option_eq};
ghost use Rattle.cds_load.specs.Stages.{put_by};
ghost use Rattle.cds_replica.specs.Outlines.{outline_of, outlines_of, outline_id, has_object, has_container, has_child, outline_cannot, outlines_changed, outlines_cannot};

use crate::copy_row::CopyRow;
use crate::order::{Identified, put};
use cds_base::Mem;
use cds_object::{Class, Event};
use std::alloc::Global;

/// What decides of a row whether a change can be.
#[derive(Clone, Copy, Drop)]
pub struct Outline {
    pub id: u32,
    pub parent: Option<u32>,
    pub folder: bool,
}

impl Identified for Outline {
    ghost use Rattle.cds_replica.specs.Outlines.{outline_id};
    ghost use Rattle.cds_object.specs.Events.{is_container, object_of};

    ghost id_of = { outline_id };

    fn id(&self) -> u32 {
        self.id
    }
}

/// Returns whether an object stands.
fn has_object(outlines: &[Outline], id: u32) -> bool
    ensures { result ≡ has_object id outlines.now }
{
    outlines.iter().any(|outline| outline.id == id)
}

/// Returns whether a container of this id stands.
fn has_container(outlines: &[Outline], id: u32) -> bool
    ensures { result ≡ has_container id outlines.now }
{
    outlines
        .iter()
        .any(|outline| outline.id == id && outline.folder)
}

/// Returns whether the parent of an object is this one.
fn is_child(outline: &Outline, id: u32) -> bool
    ensures { result ≡ option_eq nat_eq outline.now.parent (Some id) }
{
    match outline.parent {
        Some(parent) => parent == id,
        None => false,
    }
}

/// Returns whether an object has a child.
fn has_child(outlines: &[Outline], id: u32) -> bool
    ensures { result ≡ has_child id outlines.now }
{
    outlines.iter().any(|outline| is_child(outline, id))
}

/// Returns whether a change cannot be. An addition is of an id that does not stand, under a container that does. A modification
/// or deletion is of what stands, and never the root's. A deletion is of what has no child.
fn cannot_be(outlines: &[Outline], event: &Event) -> bool
    ensures { result ≡ outline_cannot outlines.now event.now }
{
    match *event {
        Event::ObjAdd { id, parent, .. } => {
            id == 0 || (has_object(outlines, id) || !has_container(outlines, parent))
        }
        Event::ObjMod { id, .. } => id == 0 || !has_object(outlines, id),
        Event::ObjDel { id, .. } => {
            id == 0 || !has_object(outlines, id) || has_child(outlines, id)
        }
        Event::StDone { .. } => false,
    }
}

/// Puts the outline of an object in its place.
fn put_outline(outlines: &mut Vec<Outline>, outline: Outline) -> Result<(), Mem>
    ensures { IfOk result (λ _. outlines.new.items ≡ put_by outline_id outline outlines.old.items) }
{
    outlines.reserve(1)?;
    put(outlines, outline);
    Ok(())
}

/// Takes the outline of an object out.
fn remove(outlines: &mut Vec<Outline>, id: u32)
    ensures { outlines.new.items ≡ filter (λ outline. not (nat_eq outline.id id)) outlines.old.items }
{
    outlines.retain(|outline| !(outline.id == id));
}

/// Makes a change in outline.
fn change(outlines: &mut Vec<Outline>, event: &Event) -> Result<(), Mem>
    ensures { IfOk result (λ _. outlines.new.items ≡ outlines_changed outlines.old.items event.now) }
{
    match *event {
        Event::ObjAdd {
            id,
            parent,
            class,
            ..
        } => put_outline(
            outlines,
            Outline {
                id,
                parent: Some(parent),
                folder: class.is_container(),
            },
        ),
        Event::ObjDel { id, .. } => {
            remove(outlines, id);
            Ok(())
        }
        Event::ObjMod { .. } | Event::StDone { .. } => Ok(()),
    }
}

/// Returns the object of the first change that cannot be, one after the other.
pub fn first_cannot(mut outlines: Vec<Outline>, events: &[Event]) -> Result<Option<u32>, Mem>
    ensures { IfOk result (λ first. first ≡ outlines_cannot outlines.items events.now) }
{
    for event in events {
        if cannot_be(outlines.as_slice(), event) {
            return Ok(Some(event.object()));
        }
        change(&mut outlines, event)?;
    }
    Ok(None)
}

/// Returns the outline of a row of a copy.
fn outline_of(row: &CopyRow) -> Outline
    ensures { result ≡ outline_of row.now.row }
{
    Outline {
        id: row.id(),
        parent: row.parent(),
        folder: row.is_folder(),
    }
}

/// Returns the rows of a copy in outline.
pub fn outlines_of(alloc: Global, rows: &[CopyRow]) -> Result<Vec<Outline>, Mem>
    ensures { IfOk result (λ outlines. outlines.items ≡ outlines_of rows.now) }
{
    let mut outlines = Vec::with_capacity(alloc, rows.len())?;
    for row in rows {
        outlines.push(outline_of(row))?;
    }
    Ok(outlines)
}
