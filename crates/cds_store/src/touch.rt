//! Makes what a change does to the row of the parent (UPnP ContentDirectory:4 on containerUpdateID and
//! totalDeletedChildCount).

ghost use Rattle.std.specs.Prelude.{◌≡◌, ◌+◌, ◌<◌, ◌^◌, MatchOption};
ghost use Rattle.std.specs.List.{AllByRecursion};
ghost use Rattle.std.specs.Option.{option_map};
ghost use Rattle.cds_catalog.specs.Steps.{touch, touched};
ghost use Rattle.cds_store.specs.Rows.{HasRoom, child_event, tracked_event};

use crate::placed::Placed;
use cds_object::{Path, Row, Trackers};

/// What happened to a child.
#[derive(Clone, Copy)]
pub(crate) enum ChildEvent {
    Added,
    Modified,
    Deleted,
}

fn tracked(trackers: Trackers, event: ChildEvent, number: u32) -> Trackers
    requires { (trackers.child_count + 1 < 2 ^ 32) × (trackers.deleted + 1 < 2 ^ 32) }
    ensures { result ≡ tracked_event event number trackers }
{
    let (child_count, deleted) = match event {
        ChildEvent::Added => (trackers.child_count + 1, trackers.deleted),
        ChildEvent::Modified => (trackers.child_count, trackers.deleted),
        ChildEvent::Deleted => (trackers.child_count.saturating_sub(1), trackers.deleted + 1),
    };
    Trackers {
        container_update: number,
        child_count,
        deleted,
    }
}

pub(crate) fn touch_row(row: &mut Row, event: ChildEvent, number: u32)
    requires { HasRoom row.old }
    ensures { row.new ≡ child_event event number row.old }
{
    if let Some(trackers) = row.trackers {
        row.trackers = Some(tracked(trackers, event, number));
    }
}

fn touch_placed(placed: &mut Placed, parent: &Path, event: ChildEvent, number: u32)
    requires { HasRoom placed.old.1 }
    ensures { placed.new ≡ touched parent.now (child_event event number) placed.old }
{
    if *parent == placed.path {
        touch_row(&mut placed.row, event, number);
    }
}

/// Brings the row at the place of the parent up to date, and keeps every other row.
pub(crate) fn touch_parent(rows: &mut Vec<Placed>, parent: &Path, event: ChildEvent, number: u32)
    requires { AllByRecursion (λ placed. HasRoom placed.1) rows.old.items }
    ensures { rows.new.items ≡ touch parent.now (child_event event number) rows.old.items }
{
    for placed in rows.iter_mut() {
        touch_placed(placed, parent, event, number);
    }
}
