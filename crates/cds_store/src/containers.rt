//! Finds the containers that the changes of a span touch (UPnP ContentDirectory:4 on ContainerUpdateIDs).

ghost use Rattle.std.specs.Prelude.{◌≡◌, ◌||◌, ℕ, not, filter, IfOk};
ghost use Rattle.std.specs.Ordering.{nat_cmp};
ghost use Rattle.std.specs.BTreeMap.{get, IsOrdered};
ghost use Rattle.std.specs.BTreeSet.{contains};
ghost use Rattle.cds_changes.specs.EventsWithParents.{deletes, last_touch_in, was_deleted_in};
ghost use Rattle.cds_store.specs.TouchedContainers.{TakesTouch, AreContainersOf};

use crate::Span;
use crate::kept::lies_in;
use cds_base::Mem;
use cds_changes::EventWithParent;
use cds_object::Event;
use std::alloc::Global;
use std::collections::{BTreeMap, BTreeSet};

/// For each container, the number of the last change that adds it or names it as parent.
type Touched = BTreeMap<u32, u32>;

/// Adds the containers that the change of an event adds or names as parent.
fn touch(touched: &mut Touched, item: &EventWithParent) -> Result<(), Mem>
    ensures { IfOk result (λ _. TakesTouch (get nat_cmp touched.old) (get nat_cmp touched.new) item.now) }
{
    let number = item.event.update();
    if let Some(parent) = item.parent {
        touched.insert(parent, number)?;
    }
    if let Event::ObjAdd { id, class, .. } = item.event
        && class.is_container()
    {
        touched.insert(id, number)?;
    }
    Ok(())
}

/// Adds the object that the change of an event deletes.
fn strike(deleted: &mut BTreeSet<u32>, item: &EventWithParent) -> Result<(), Mem>
    ensures { IfOk result (λ _. (id : ℕ) → contains nat_cmp deleted.new id ≡ (deletes id item.now.event || contains nat_cmp deleted.old id)) }
{
    if let Event::ObjDel { id, .. } = item.event {
        deleted.insert(id)?;
    }
    Ok(())
}

/// Returns, for each container that the changes of a span touch, the number of the last such change.
fn touched_within(alloc: Global, kept: &[EventWithParent], span: Span) -> Result<Touched, Mem>
    ensures { IfOk result (λ touched. (id : ℕ) → get nat_cmp touched id ≡ last_touch_in span.from span.to id kept.now) }
{
    let mut touched = BTreeMap::new(alloc);
    for item in kept {
        if lies_in(item.event, span) {
            touch(&mut touched, item)?;
        }
    }
    Ok(touched)
}

/// Returns the objects that the changes of a span delete.
fn deleted_within(alloc: Global, kept: &[EventWithParent], span: Span) -> Result<BTreeSet<u32>, Mem>
    ensures { IfOk result (λ deleted. (id : ℕ) → contains nat_cmp deleted id ≡ was_deleted_in span.from span.to id kept.now) }
{
    let mut deleted = BTreeSet::new(alloc);
    for item in kept {
        if lies_in(item.event, span) {
            strike(&mut deleted, item)?;
        }
    }
    Ok(deleted)
}

/// Returns the entries of the containers that were not deleted, in ascending order of ids.
fn not_deleted(
    alloc: Global,
    touched: &Touched,
    deleted: &BTreeSet<u32>,
) -> Result<Vec<(u32, u32)>, Mem>
    ensures entries { IfOk result (λ containers. containers.items ≡ filter (λ entry. not (contains nat_cmp deleted.now entry.0)) touched.now.entries) }
    ensures ordered { IfOk result (λ _. IsOrdered nat_cmp touched.now) }
{
    let mut containers = Vec::new(alloc);
    for (id, number) in touched.iter() {
        if !deleted.contains(id) {
            containers.push((*id, *number))?;
        }
    }
    Ok(containers)
}

/// Returns the containers that a span touches and does not delete, with the last such numbers, in ascending order of
/// ids.
pub(crate) fn containers_within(
    alloc: Global,
    kept: &[EventWithParent],
    span: Span,
) -> Result<Vec<(u32, u32)>, Mem>
    ensures { IfOk result (λ containers. AreContainersOf span.from span.to kept.now containers.items) }
{
    let touched = touched_within(alloc, kept, span)?;
    let deleted = deleted_within(alloc, kept, span)?;
    let containers = not_deleted(alloc, &touched, &deleted)?;
    Ok(containers)
}
