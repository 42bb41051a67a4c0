//! Makes the resolved changes of a scan one by one by ids. No memory is taken here. Rows are found by binary search,
//! and deleted rows go in one pass over all rows.

ghost use Rattle.std.specs.Prelude.{◌≡◌, ◌+◌, ◌≤◌, ◌<◌, ◌^◌, ◌∷◌, [], ◌++◌, ℕ, true, false, reverse, map, vec_len, vec_capacity, OnOk, OnErr};
ghost use Rattle.std.specs.List.{AllByRecursion};
ghost use Rattle.std.specs.Ordering.{nat_cmp};
ghost use Rattle.std.specs.BTreeSet.{contains};
ghost use Rattle.cds_object.specs.Object.{is_folder};
ghost use Rattle.cds_object.specs.Tree.{IdsAscend};
ghost use Rattle.cds_catalog.specs.History.{is_addition};
ghost use Rattle.cds_catalog.specs.Steps.{stepped, modified};
ghost use Rattle.cds_store.specs.Found.{KeepsKindById, touched_by_id};
ghost use Rattle.cds_store.specs.Resolved.{drawn_after, rows_by_ids, staying, changes_resolved, KeepsKindsById};
ghost use Rattle.cds_store.specs.Resolution.{IsResolution};
ghost use Rattle.cds_store.specs.Rows.{HasRoom, child_event, rows_of};

use crate::catalog::{Catalog, modify_row, new_row};
use crate::halving::place_of_id;
use crate::kept::keep;
use crate::placed::Placed;
use crate::resolving::{Resolution, Resolved, drawn_after};
use crate::touch::{ChildEvent, touch_row};
use cds_base::Mem;
use cds_catalog::Change;
use cds_changes::EventWithParent;
use cds_object::{Content, ObjectId};
use std::collections::BTreeSet;

fn touch_here(placed: &mut Placed, event: ChildEvent, number: u32)
    requires { HasRoom placed.old.1 }
    ensures { placed.new ≡ (placed.old.0, child_event event number placed.old.1) }
{
    touch_row(&mut placed.row, event, number);
}

fn modify_here(placed: &mut Placed, content: Content, number: u32)
    requires { is_folder placed.old.1.content ≡ is_folder content }
    ensures { placed.new ≡ (placed.old.0, modified number content placed.old.1) }
{
    modify_row(&mut placed.row, content, number);
}

/// Brings the row of an id up to date, and keeps every other row.
fn touch_by_id(rows: &mut Vec<Placed>, id: u32, event: ChildEvent, number: u32)
    requires ascending { IdsAscend (rows_of rows.old.items) }
    requires room { AllByRecursion (λ placed. HasRoom placed.1) rows.old.items }
    ensures rows { rows.new.items ≡ map (touched_by_id id (child_event event number)) rows.old.items }
    ensures len { vec_len rows.new ≡ vec_len rows.old }
    ensures capacity { vec_capacity rows.new ≡ vec_capacity rows.old }
{
    if let Some(at) = place_of_id(rows.as_slice(), id) {
        touch_here(&mut rows[at], event, number);
    }
}

/// Gives another content to the object of an id, and keeps every other row.
fn modify_by_id(rows: &mut Vec<Placed>, id: u32, content: Content, number: u32)
    requires ascending { IdsAscend (rows_of rows.old.items) }
    requires kinds { AllByRecursion (KeepsKindById id content) rows.old.items }
    ensures rows { rows.new.items ≡ map (touched_by_id id (modified number content)) rows.old.items }
    ensures len { vec_len rows.new ≡ vec_len rows.old }
    ensures capacity { vec_capacity rows.new ≡ vec_capacity rows.old }
{
    if let Some(at) = place_of_id(rows.as_slice(), id) {
        modify_here(&mut rows[at], content, number);
    }
}

/// Appends a row. There must be room for it.
fn push_reserved(rows: &mut Vec<Placed>, placed: Placed)
    requires { vec_len rows.old < vec_capacity rows.old }
    ensures rows { rows.new.items ≡ rows.old.items ++ placed ∷ [] }
    ensures len { vec_len rows.new ≡ vec_len rows.old + 1 }
    ensures capacity { vec_capacity rows.old ≤ vec_capacity rows.new }
{
    let _ = rows.push(placed);
}

/// Removes the rows of some ids.
fn remove_gone(rows: &mut Vec<Placed>, gone: &BTreeSet<u32>)
    ensures rows { rows.new.items ≡ staying (contains nat_cmp gone.now) rows.old.items }
    ensures len { vec_len rows.new ≤ vec_len rows.old }
    ensures capacity { vec_capacity rows.new ≡ vec_capacity rows.old }
{
    rows.retain(|placed| !gone.contains(&placed.row.id.0));
}

/// Makes the change with this number by ids. An object that it adds gets the id `id`.
fn make_by_ids(rows: &mut Vec<Placed>, number: u32, id: u32, next: Resolved)
    requires ascending { IdsAscend (rows_of rows.old.items) }
    requires room { AllByRecursion (λ placed. HasRoom placed.1) rows.old.items }
    requires kinds { KeepsKindsById next.change next.own rows.old.items }
    requires spare { is_addition next.change ≡ true → (0 < id) × (vec_len rows.old < vec_capacity rows.old) }
    ensures rows { rows.new.items ≡ rows_by_ids number id next.change next.own next.parent rows.old.items }
    ensures len { vec_len rows.new ≡ drawn_after (vec_len rows.old) next.change }
    ensures capacity { vec_capacity rows.old ≤ vec_capacity rows.new }
{
    let own = next.own;
    let parent = next.parent;
    match next.change {
        Change::Deletion { .. } => touch_by_id(rows, parent, ChildEvent::Deleted, number),
        Change::Addition { path, content } => {
            let row = new_row(id, ObjectId(parent), number, content);
            touch_by_id(rows, parent, ChildEvent::Added, number);
            push_reserved(rows, Placed { path, row });
        }
        Change::Modification { content, .. } => {
            modify_by_id(rows, own, content, number);
            touch_by_id(rows, parent, ChildEvent::Modified, number);
        }
    }
}

impl Catalog {
    /// Makes the changes of a scan and keeps their events. If memory runs out, all stays as it was.
    pub(crate) fn commit(
        &mut self,
        scan: Resolution,
        kept: &mut Vec<EventWithParent>,
    ) -> Result<(), Mem>
        requires { IsResolution self.old scan }
        ensures made { OnOk result (self.new ≡ stepped self.old (changes_resolved (reverse scan.resolved.items))) }
        ensures kept { OnOk result (kept.new.items ≡ kept.old.items ++ scan.told.items) }
        ensures unmade { OnErr result (self.new ≡ self.old) }
        ensures unkept { OnErr result (kept.new.items ≡ kept.old.items) }
    {
        self.rows.reserve((scan.drawn - self.drawn) as usize)?;
        keep(kept, scan.told.as_slice())?;
        remove_gone(&mut self.rows, &scan.gone);
        for next in scan.resolved {
            let number = self.number + 1;
            let drawn = drawn_after(self.drawn, &next.change);
            make_by_ids(&mut self.rows, number, drawn, next);
            self.number = number;
            self.drawn = drawn;
        }
        Ok(())
    }
}
