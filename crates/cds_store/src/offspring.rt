//! Finds the children of each object by binary search (UPnP ContentDirectory:4 on browsing direct children).

ghost use Rattle.std.specs.Prelude.{◌≡◌, ◌++◌, filter, map, take, drop, IfOk};
ghost use Rattle.std.specs.List.{filter_map};
ghost use Rattle.std.specs.Ordering.{nat_cmp};
ghost use Rattle.std.specs.BTreeSet.{contains};
ghost use Rattle.cds_store.specs.Offspring.{AreChildren, Rises, of_parent, child_of, ids_in};
ghost use Rattle.cds_store.specs.Resolved.{IsMended};

use crate::placed::Placed;
use crate::resolving::Resolution;
use cds_base::Mem;
use std::alloc::Global;

/// An object under its parent.
#[derive(Clone, Copy)]
pub(crate) struct Child {
    pub(crate) parent: u32,
    pub(crate) id: u32,
}

/// Returns all objects except the root, each under its parent. Children of one parent stand together, in ascending
/// order of ids.
pub(crate) fn offspring_of(alloc: Global, rows: &[Placed]) -> Result<Vec<Child>, Mem>
    ensures { IfOk result (λ offspring. AreChildren rows.now offspring.items) }
{
    let mut offspring = children_among(alloc, rows)?;
    offspring.sort_by_key(|child| child.parent)?;
    Ok(offspring)
}

/// Returns all children after the changes of a scan: those that go are left out, and those that come are put in.
pub(crate) fn offspring_after(
    alloc: Global,
    offspring: &[Child],
    scan: &Resolution,
) -> Result<Vec<Child>, Mem>
    ensures { IfOk result (λ now. IsMended (contains nat_cmp scan.now.gone) (offspring.now ++ scan.now.come.items) now.items) }
{
    let mut mended = Vec::new(alloc);
    mended.reserve(offspring.len())?;
    mended.extend_from_slice(offspring)?;
    mended.extend_from_slice(scan.come.as_slice())?;
    mended.retain(|child| !scan.gone.contains(&child.id));
    mended.sort_by_key(|child| child.parent)?;
    Ok(mended)
}

/// Returns the objects of rows that have a parent, in the order of the rows.
fn children_among(alloc: Global, rows: &[Placed]) -> Result<Vec<Child>, Mem>
    ensures { IfOk result (λ children. children.items ≡ filter_map child_of rows.now) }
{
    let mut children = Vec::new(alloc);
    for placed in rows {
        if let Some(parent) = placed.row.parent {
            let id = placed.id();
            children.push(Child {
                parent: parent.0,
                id,
            })?;
        }
    }
    Ok(children)
}

/// Returns the children of an object. Children of one parent must stand together.
pub(crate) fn children_in(offspring: &[Child], parent: u32) -> &[Child]
    requires { Rises offspring.now }
    ensures { result.now ≡ filter (of_parent parent) offspring.now }
{
    let first = offspring.partition_point(|child| child.parent < parent);
    let (_, rest) = offspring.split_at(first);
    let count = rest.partition_point(|child| child.parent <= parent);
    let (found, _) = rest.split_at(count);
    found
}

/// Returns at most `count` of the children, from the place `start` on.
pub(crate) fn page_of(children: &[Child], start: u32, count: u32) -> &[Child]
    ensures { result.now ≡ take count (drop start children.now) }
{
    let (_, rest) = children.split_at(children.len().min(start as usize));
    let (page, _) = rest.split_at(rest.len().min(count as usize));
    page
}

/// Returns the ids of children.
pub(crate) fn ids_of(alloc: Global, children: &[Child]) -> Result<Vec<u32>, Mem>
    ensures { IfOk result (λ ids. ids.items ≡ ids_in children.now) }
{
    let ids = children.iter().map(|child| child.id).collect(alloc)?;
    Ok(ids)
}
