//! The load or the copy of a replica.

ghost use Rattle.std.specs.Prelude.{◌≡◌, map, option_copied, slice_get};
ghost use Rattle.cds_replica.specs.CopyState.{AreAbove};
ghost use Rattle.cds_replica.specs.CopySteps.{IsHeard};
ghost use Rattle.cds_replica.specs.Steps.{hears_changes, phase_ask, phase_all, phase_rows};
ghost use Rattle.cds_replica.specs.Phases.{phase_in};

use crate::copy::CatalogCopy;
use crate::copy_row::CopyRow;
use crate::count_error::CountError;
use crate::stage::Stage;
use cds_load::Ask;
use cds_object::{Event, Row};
use std::alloc::Global;
use std::mem;

/// The stage of a load, or the copy that it ended with.
#[derive(Drop)]
pub enum Phase {
    Load(Stage),
    /// The copy of a load that read this number.
    Copy { number: u32, copy: CatalogCopy },
}

impl Phase {
    /// Goes over to this phase.
    pub fn go_to(&mut self, phase: Phase)
        ensures { self.new ≡ phase }
    {
        drop(mem::replace(self, phase));
    }

    /// Returns the next read.
    pub fn next_ask(&self) -> Option<Ask>
        ensures { result ≡ phase_ask (phase_in self.now) }
    {
        match self {
            Phase::Load(stage) => stage.next_ask(),
            Phase::Copy { copy, .. } => match copy.unread() {
                Some(id) => Some(Ask::Metadata { id }),
                None => None,
            },
        }
    }

    /// Returns the row at a place among those of which it is known what they say.
    pub fn row(&self, at: usize) -> Option<&Row>
        ensures { option_copied result ≡ slice_get (phase_rows (phase_in self.now)) at }
    {
        match self {
            Phase::Load(_) => None,
            Phase::Copy { copy, .. } => copy.row(at),
        }
    }

    /// Returns the rows of the copy, in ascending order of ids; none if no copy stands.
    pub fn rows(&self) -> &[CopyRow]
        ensures { map (λ kept. kept.row) result.now ≡ phase_all (phase_in self.now) }
    {
        match self {
            Phase::Load(_) => &[],
            Phase::Copy { copy, .. } => copy.rows(),
        }
    }

    /// Takes the changes that notes tell, each above the position. A load keeps them with the others, and a copy counts them.
    pub fn hear(
        &mut self,
        alloc: Global,
        at: u32,
        changes: &mut Vec<Event>,
        more: &[Event],
    ) -> Result<(), CountError>
        requires { AreAbove at more.now }
        ensures { IsHeard (hears_changes (phase_in self.old) at changes.old.items more.now) (phase_in self.old, changes.old.items)
            (phase_in self.new, changes.new.items) result }
    {
        match self {
            Phase::Load(Stage::Idle) => Ok(()),
            Phase::Load(_) => {
                changes.extend_from_slice(more)?;
                Ok(())
            }
            Phase::Copy { copy, .. } => copy.count(alloc, at, more),
        }
    }
}
