//! Which events of notes are changes that a replica did not count yet.

ghost use Rattle.std.specs.Prelude.{◌≡◌, ◌&&◌, ◌++◌, nat_lt, IfOk, OnOk};
ghost use Rattle.cds_commands.specs.Notes.{changes_above};
ghost use Rattle.cds_replica.specs.CopyState.{AreAbove};
ghost use Rattle.cds_object.specs.Events.{update_of, is_change};

use cds_base::Mem;
use cds_object::Event;
use std::alloc::Global;

/// Returns whether an event is a change above a number.
fn is_above(number: u32, event: &Event) -> bool
    ensures { result ≡ (is_change event.now && nat_lt number (update_of event.now)) }
{
    event.is_change() && number < event.update()
}

/// Adds the changes above a number.
pub fn add_changes_above(changes: &mut Vec<Event>, number: u32, events: &[Event]) -> Result<(), Mem>
    ensures { OnOk result (changes.new.items ≡ changes.old.items ++ changes_above number events.now) }
{
    for event in events {
        if is_above(number, event) {
            changes.push(*event)?;
        }
    }
    Ok(())
}

/// Returns the changes above a number.
pub fn changes_above(alloc: Global, number: u32, events: &[Event]) -> Result<Vec<Event>, Mem>
    ensures changes { IfOk result (λ changes. changes.items ≡ changes_above number events.now) }
    ensures above { IfOk result (λ changes. AreAbove number changes.items) }
{
    let mut changes = Vec::new(alloc);
    add_changes_above(&mut changes, number, events)?;
    Ok(changes)
}
