//! Resolves the changes of a scan to the ids of what they name, before anything is changed. All memory that they need
//! is taken here.

ghost use Rattle.std.specs.Prelude.{◌≡◌, ◌+◌, ◌<◌, ◌^◌, ◌++◌, ℕ, reverse, map, IfOk};
ghost use Rattle.std.specs.Ordering.{nat_cmp};
ghost use Rattle.std.specs.BTreeMap.{get};
ghost use Rattle.std.specs.BTreeSet.{contains};
ghost use Rattle.cds_object.specs.Path.{path_cmp};
ghost use Rattle.cds_catalog.specs.Steps.{Standing, stepped};
ghost use Rattle.cds_store.specs.ChangeEvents.{changes_in, event_with, events_with, all_events_by};
ghost use Rattle.cds_store.specs.Found.{KnowsPlaces, id_or_none, Puts, Learns};
ghost use Rattle.cds_store.specs.Resolved.{ids_by, goes_after, come_after, drawn_after};
ghost use Rattle.cds_store.specs.Resolution.{IsResolutionOf, Takes, Comes, Notes};
ghost use Rattle.cds_store.specs.Stands.{IsScan};

use crate::catalog::Catalog;
use crate::offspring::Child;
use crate::placed::Placed;
use crate::subtrees::{MarkedChange, place_of};
use cds_base::Mem;
use cds_catalog::Change;
use cds_changes::EventWithParent;
use cds_object::{Class, Event, Path};
use std::alloc::Global;
use std::collections::{BTreeMap, BTreeSet};

/// The id of the row at each place.
type Places = BTreeMap<Path, u32>;

/// A change with the ids of what it names.
#[derive(Drop)]
pub(crate) struct Resolved {
    pub(crate) change: Change,
    /// The id of its object, or 0 if the change adds it.
    pub(crate) own: u32,
    /// The id of its parent.
    pub(crate) parent: u32,
}

/// The changes of a scan, resolved, and what follows from them.
#[derive(Drop)]
pub(crate) struct Resolution {
    /// The number of the newest change.
    pub(crate) number: u32,
    /// How many ids are drawn.
    pub(crate) drawn: u32,
    pub(crate) resolved: Vec<Resolved>,
    /// Their events.
    pub(crate) told: Vec<EventWithParent>,
    /// The ids of what is deleted.
    pub(crate) gone: BTreeSet<u32>,
    /// What is added, each under its parent.
    pub(crate) come: Vec<Child>,
}

/// Returns the ids of rows by their places. If several rows have one place, the first counts.
fn places_in(alloc: Global, rows: &[Placed]) -> Result<Places, Mem>
    ensures { IfOk result (λ places. KnowsPlaces (get path_cmp places) rows.now) }
{
    let mut places = BTreeMap::new(alloc);
    let mut at = rows.len();
    while at > 0 {
        at -= 1;
        put_id(alloc, &mut places, &rows[at])?;
    }
    Ok(places)
}

/// Puts the id of a row at its place.
fn put_id(alloc: Global, places: &mut Places, placed: &Placed) -> Result<(), Mem>
    ensures { IfOk result (λ _. Puts (get path_cmp places.old) (get path_cmp places.new) placed.now) }
{
    let path = placed.path.copy(alloc)?;
    places.insert(path, placed.id())?;
    Ok(())
}

/// Returns the id at a place, or 0 if there is none.
fn id_in(places: &Places, path: &Path) -> u32
    ensures { result ≡ ids_by (get path_cmp places.now) path.now }
{
    match places.get(path) {
        None => 0,
        Some(id) => *id,
    }
}

/// Brings the ids of places up to date with a change. An object that it adds gets the id `next`.
fn learn(alloc: Global, places: &mut Places, change: &Change, next: u32) -> Result<(), Mem>
    ensures { IfOk result (λ _. Learns (get path_cmp places.old) (get path_cmp places.new) change.now next) }
{
    match change {
        Change::Deletion { path } => {
            places.remove(path);
        }
        Change::Addition { path, .. } => {
            let path = path.copy(alloc)?;
            places.insert(path, next)?;
        }
        Change::Modification { .. } => {}
    }
    Ok(())
}

/// Returns the event of a change by its number, the next id that is drawn, and the ids of its object and of its parent.
fn event_with(number: u32, next: u32, own: u32, parent: u32, change: &Change, st: bool) -> Event
    ensures { result ≡ event_with number next own parent change.now st }
{
    match change {
        Change::Deletion { .. } => Event::ObjDel {
            id: own,
            update: number,
            st,
        },
        Change::Addition { content, .. } => Event::ObjAdd {
            id: next,
            update: number,
            st,
            parent,
            class: Class::of(content),
        },
        Change::Modification { .. } => Event::ObjMod {
            id: own,
            update: number,
            st,
        },
    }
}

/// Returns how many ids are drawn after a change.
pub(crate) fn drawn_after(drawn: u32, change: &Change) -> u32
    requires { drawn + 1 < 2 ^ 32 }
    ensures { result ≡ drawn_after drawn change.now }
{
    match change {
        Change::Addition { .. } => drawn + 1,
        _ => drawn,
    }
}

/// Adds the id of what a change deletes.
fn take_gone(gone: &mut BTreeSet<u32>, change: &Change, own: u32) -> Result<(), Mem>
    ensures { IfOk result (λ _. (id : ℕ) → contains nat_cmp gone.new id ≡ goes_after change.now own (contains nat_cmp gone.old) id) }
{
    if let Change::Deletion { .. } = change {
        gone.insert(own)?;
    }
    Ok(())
}

/// Adds what a change adds.
fn take_come(come: &mut Vec<Child>, change: &Change, id: u32, parent: u32) -> Result<(), Mem>
    ensures { IfOk result (λ _. come.new.items ≡ come_after change.now id parent come.old.items) }
{
    if let Change::Addition { .. } = change {
        come.push(Child { parent, id })?;
    }
    Ok(())
}

/// Appends the events of a change that comes after this number and after this many drawn ids.
fn note(
    places: &Places,
    number: u32,
    drawn: u32,
    marked: &MarkedChange,
    ids: (u32, u32),
    told: &mut Vec<EventWithParent>,
) -> Result<(), Mem>
    requires number { number + 1 < 2 ^ 32 }
    requires drawn { drawn + 1 < 2 ^ 32 }
    requires ids { Notes (get path_cmp places.now) marked.now ids }
    ensures { IfOk result (λ _. told.new.items ≡ told.old.items ++ events_with (ids_by (get path_cmp places.now)) number drawn marked.now) }
{
    let update = number + 1;
    let event = event_with(update, drawn + 1, ids.0, ids.1, &marked.change, marked.st);
    told.push(EventWithParent {
        event,
        parent: Some(ids.1),
    })?;
    if let Some(head) = &marked.done {
        let id = id_in(places, head);
        let event = Event::StDone { id, update };
        told.push(EventWithParent {
            event,
            parent: None,
        })?;
    }
    Ok(())
}

/// Returns the ids of what a change names: of its object, or 0 if the change adds it, and of its parent.
fn ids_of(alloc: Global, places: &Places, marked: &MarkedChange) -> Result<(u32, u32), Mem>
    ensures { IfOk result (Notes (get path_cmp places.now) marked.now) }
{
    let above = place_of(&marked.change).parent(alloc)?;
    let own = id_in(places, place_of(&marked.change));
    let parent = id_in(places, &above);
    Ok((own, parent))
}

/// Takes in what follows from the next change of a scan. Returns the ids of what it names.
fn take_next(
    alloc: Global,
    places: &mut Places,
    so_far: &mut Resolution,
    marked: &MarkedChange,
) -> Result<(u32, u32), Mem>
    requires number { so_far.old.number + 1 < 2 ^ 32 }
    requires drawn { so_far.old.drawn + 1 < 2 ^ 32 }
    ensures { IfOk result (Comes (get path_cmp places.old) (get path_cmp places.new) so_far.old so_far.new marked.now) }
{
    let ids = ids_of(alloc, places, marked)?;
    note(
        places,
        so_far.number,
        so_far.drawn,
        marked,
        ids,
        &mut so_far.told,
    )?;
    let next = so_far.drawn + 1;
    learn(alloc, places, &marked.change, next)?;
    take_gone(&mut so_far.gone, &marked.change, ids.0)?;
    take_come(&mut so_far.come, &marked.change, next, ids.1)?;
    so_far.number += 1;
    so_far.drawn = drawn_after(so_far.drawn, &marked.change);
    Ok(ids)
}

/// Resolves the next change of a scan.
fn resolve_next(
    alloc: Global,
    places: &mut Places,
    so_far: &mut Resolution,
    marked: MarkedChange,
) -> Result<(), Mem>
    requires number { so_far.old.number + 1 < 2 ^ 32 }
    requires drawn { so_far.old.drawn + 1 < 2 ^ 32 }
    ensures { IfOk result (λ _. Takes (get path_cmp places.old) (get path_cmp places.new) so_far.old so_far.new marked) }
{
    let (own, parent) = take_next(alloc, places, so_far, &marked)?;
    so_far.resolved.push(Resolved {
        change: marked.change,
        own,
        parent,
    })?;
    Ok(())
}

/// Resolves the changes of a scan, which come the oldest first.
pub(crate) fn resolve(
    alloc: Global,
    catalog: &Catalog,
    plan: Vec<MarkedChange>,
) -> Result<Resolution, Mem>
    requires { IsScan catalog.now (changes_in (reverse plan.items)) }
    ensures { IfOk result (IsResolutionOf catalog.now (reverse plan.items)) }
{
    let mut places = places_in(alloc, catalog.rows())?;
    let mut so_far = Resolution {
        number: catalog.number(),
        drawn: catalog.drawn(),
        resolved: Vec::new(alloc),
        told: Vec::new(alloc),
        gone: BTreeSet::new(alloc),
        come: Vec::new(alloc),
    };
    for marked in plan {
        resolve_next(alloc, &mut places, &mut so_far, marked)?;
    }
    Ok(so_far)
}
