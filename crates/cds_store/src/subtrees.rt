//! Finds which changes of a scan belong to subtree updates, and with which change each of these is done (this project's
//! profile of UPnP ContentDirectory:4 on LastChange).

ghost use Rattle.std.specs.Prelude.{◌≡◌, ◌++◌, ℕ, true, false, List, [], ◌∷◌, reverse, IfOk};
ghost use Rattle.std.specs.BTreeSet.{contains};
ghost use Rattle.cds_object.specs.Path.{path_cmp, same_path};
ghost use Rattle.cds_catalog.specs.History.{place_of};
ghost use Rattle.cds_changes.specs.Subtrees.{some_of, IsOrderly};
ghost use Rattle.cds_store.specs.ChangeEvents.{changes_in};
ghost use Rattle.cds_store.specs.SubtreeIndex.{is_kind, IsOutermost, Indexes, AreMarked, holds_one, FindsHead, Marks, MarksNext, SaysNext};

use cds_base::Mem;
use cds_catalog::Change;
use cds_object::Path;
use std::alloc::Global;
use std::collections::BTreeSet;

/// A change of a scan with what its events say of subtree updates.
#[derive(Drop)]
pub(crate) struct MarkedChange {
    pub(crate) change: Change,
    /// Whether it belongs to a subtree update.
    pub(crate) st: bool,
    /// The place of the head whose subtree update is done with it.
    pub(crate) done: Option<Path>,
}

/// A kind of changes: the additions of a scan, or its deletions.
#[derive(Clone, Copy)]
enum Kind {
    Added,
    Deleted,
}

/// The changes of one kind, to tell their subtree updates apart.
#[derive(Drop)]
struct SubtreeIndex {
    /// Their places.
    places: BTreeSet<Path>,
    /// The places of the folders that hold one of them.
    folders: BTreeSet<Path>,
    /// The heads of the subtree updates to which the changes looked at so far belong.
    seen: BTreeSet<Path>,
}

/// Returns the place that a change names.
pub(crate) fn place_of(change: &Change) -> &Path
    ensures { result.now ≡ place_of change.now }
{
    match change {
        Change::Deletion { path } => path,
        Change::Addition { path, .. } => path,
        Change::Modification { path, .. } => path,
    }
}

/// Returns whether a change is of a kind.
fn is_of(kind: Kind, change: &Change) -> bool
    ensures { result ≡ is_kind kind change.now }
{
    match (kind, change) {
        (Kind::Added, Change::Addition { .. }) => true,
        (Kind::Deleted, Change::Deletion { .. }) => true,
        _ => false,
    }
}

/// Returns the places of the changes of a kind.
fn places_of(alloc: Global, kind: Kind, changes: &[Change]) -> Result<BTreeSet<Path>, Mem>
    ensures { IfOk result (λ places. (path : List (List ℕ)) → contains path_cmp places path ≡ some_of (is_kind kind) (same_path path) changes.now) }
{
    let mut places = BTreeSet::new(alloc);
    for change in changes {
        if is_of(kind, change) {
            let place = place_of(change).copy(alloc)?;
            places.insert(place)?;
        }
    }
    Ok(places)
}

/// Returns the places of the folders that hold a change of a kind.
fn folders_of(alloc: Global, kind: Kind, changes: &[Change]) -> Result<BTreeSet<Path>, Mem>
    ensures { IfOk result (λ folders. (path : List (List ℕ)) → contains path_cmp folders path ≡ holds_one (is_kind kind) changes.now path) }
{
    let mut folders = BTreeSet::new(alloc);
    for change in changes {
        if is_of(kind, change) {
            let folder = place_of(change).parent(alloc)?;
            folders.insert(folder)?;
        }
    }
    Ok(folders)
}

/// Returns the outermost of some places at or above a place. It goes up as long as the folder of each is among them,
/// too.
fn outermost(alloc: Global, places: &BTreeSet<Path>, path: &Path) -> Result<Path, Mem>
    requires { contains path_cmp places.now [] ≡ false }
    ensures { IfOk result (λ top. IsOutermost (contains path_cmp places.now) path.now top) }
{
    let mut top = path.copy(alloc)?;
    let mut parent = path.parent(alloc)?;
    while places.contains(&parent) {
        let above = parent.parent(alloc)?;
        top = parent;
        parent = above;
    }
    Ok(top)
}

impl SubtreeIndex {
    /// Returns the index of the changes of a kind, before any is looked at.
    fn new(alloc: Global, kind: Kind, changes: &[Change]) -> Result<SubtreeIndex, Mem>
        ensures { IfOk result (λ index. Indexes (is_kind kind) (reverse changes.now) [] index) }
    {
        let places = places_of(alloc, kind, changes)?;
        let folders = folders_of(alloc, kind, changes)?;
        let seen = BTreeSet::new(alloc);
        Ok(SubtreeIndex {
            places,
            folders,
            seen,
        })
    }

    /// Returns the place of the head of the subtree update to which the change at a place belongs.
    fn head(&self, alloc: Global, path: &Path) -> Result<Option<Path>, Mem>
        requires { contains path_cmp self.now.places [] ≡ false }
        ensures { IfOk result (FindsHead self.now path.now) }
    {
        let top = outermost(alloc, &self.places, path)?;
        if self.folders.contains(&top) {
            return Ok(Some(top));
        }
        Ok(None)
    }

    /// Looks at the change at a place after all newer ones. Returns whether it belongs to a subtree update. If none of
    /// the newer changes belongs to the same one, it also returns the place of its head.
    fn look(&mut self, alloc: Global, path: &Path) -> Result<(bool, Option<Path>), Mem>
        requires { contains path_cmp self.old.places [] ≡ false }
        ensures { IfOk result (Marks self.old self.new path.now) }
    {
        let Some(head) = self.head(alloc, path)? else {
            return Ok((false, None));
        };
        let seen = head.copy(alloc)?;
        if self.seen.insert(seen)? {
            return Ok((true, Some(head)));
        }
        Ok((true, None))
    }
}

/// Returns what the events of a change say of subtree updates, after all newer ones were looked at.
fn said_of(
    alloc: Global,
    gone: &mut SubtreeIndex,
    come: &mut SubtreeIndex,
    change: &Change,
) -> Result<(bool, Option<Path>), Mem>
    requires gone { contains path_cmp gone.old.places [] ≡ false }
    requires come { contains path_cmp come.old.places [] ≡ false }
    ensures { IfOk result (SaysNext gone.old come.old gone.new come.new change.now) }
{
    match change {
        Change::Deletion { path } => gone.look(alloc, path),
        Change::Addition { path, .. } => come.look(alloc, path),
        Change::Modification { .. } => Ok((false, None)),
    }
}

/// Returns a change with what its events say of subtree updates, after all newer ones were looked at.
fn look_at(
    alloc: Global,
    gone: &mut SubtreeIndex,
    come: &mut SubtreeIndex,
    change: Change,
) -> Result<MarkedChange, Mem>
    requires gone { contains path_cmp gone.old.places [] ≡ false }
    requires come { contains path_cmp come.old.places [] ≡ false }
    ensures change { IfOk result (λ marked_change. marked_change.change ≡ change) }
    ensures said { IfOk result (MarksNext gone.old come.old gone.new come.new change) }
{
    let (st, done) = said_of(alloc, gone, come, &change)?;
    Ok(MarkedChange { change, st, done })
}

/// Returns the changes of a scan, the oldest first, with what their events say of subtree updates.
pub(crate) fn mark_all(alloc: Global, changes: Vec<Change>) -> Result<Vec<MarkedChange>, Mem>
    requires { IsOrderly (reverse changes.items) }
    ensures changes { IfOk result (λ plan. changes_in (reverse plan.items) ≡ reverse changes.items) }
    ensures marked { IfOk result (λ plan. AreMarked (reverse changes.items) (reverse plan.items) []) }
{
    let mut gone = SubtreeIndex::new(alloc, Kind::Deleted, changes.as_slice())?;
    let mut come = SubtreeIndex::new(alloc, Kind::Added, changes.as_slice())?;
    let mut left = changes;
    let mut plan = Vec::new(alloc);
    while let Some(change) = left.pop() {
        let marked_change = look_at(alloc, &mut gone, &mut come, change)?;
        plan.push(marked_change)?;
    }
    plan.reverse();
    Ok(plan)
}
