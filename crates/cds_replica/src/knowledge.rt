//! What a replica knows besides its notes.

ghost use Rattle.std.specs.Prelude.{◌≡◌, map, IfOk, option_copied, slice_get};
ghost use Rattle.cds_follow.specs.Follow.{nothing_known};
ghost use Rattle.cds_replica.specs.Answer.{read_of};
ghost use Rattle.cds_replica.specs.CopyState.{AreAbove, least_wanted};
ghost use Rattle.cds_replica.specs.CopySteps.{IsHeard};
ghost use Rattle.cds_replica.specs.Steps.{IsStep, kept_begun, hears, with_new_changes, answers, phase_ask, phase_all, phase_rows, phase_tells, copy_tells, with_phase};
ghost use Rattle.cds_replica.specs.Phases.{phase_in};
ghost use Rattle.cds_replica.specs.State.{kept_known, kept_position};

use crate::AnswerError;
use crate::copy::CatalogCopy;
use crate::copy_row::CopyRow;
use crate::count_error::CountError;
use crate::new_changes::NewChanges;
use crate::phase::Phase;
use crate::stage::Stage;
use cds_follow::Says;
use cds_load::{Ask, Read, Shown};
use cds_object::{Event, Row};
use std::alloc::Global;
use std::marker::Model;
use std::mem;

/// The load or the copy; the number that the last ended load read; the greatest number of a note that was taken; and, while
/// no copy stands, the changes of the notes that were taken since the load began.
#[derive(Drop)]
pub struct Knowledge {
    phase: Phase,
    base: u32,
    last_note: u32,
    changes: Vec<Event>,
}

impl Model for Knowledge {
    ghost use Rattle.cds_replica.specs.State.{KeptKnown};
    ghost use Rattle.cds_replica.specs.Phases.{phase_in};

    ghost Value = { KeptKnown };

    ghost view = { λ k. record { phase = phase_in k.phase; base = k.base; last_note = k.last_note; changes = k.changes.items } };
}

impl Knowledge {
    /// Returns what is known before any turn, which takes no memory.
    pub fn new(alloc: Global) -> Knowledge
        ensures { result ≡ kept_known nothing_known }
    {
        Knowledge {
            phase: Phase::Load(Stage::Idle),
            base: 0,
            last_note: 0,
            changes: Vec::new(alloc),
        }
    }

    /// Returns the greatest of the number that the last ended load read and the numbers of all notes that were taken.
    pub fn position(&self) -> u32
        ensures { result ≡ kept_position self.now }
    {
        self.base.max(self.last_note)
    }

    /// Returns the greatest number of a note that was taken.
    pub fn last_note(&self) -> u32
        ensures { result ≡ self.now.last_note }
    {
        self.last_note
    }

    /// Drops the copy and begins a load.
    pub fn begin_load(&mut self)
        ensures { self.new ≡ kept_begun self.old }
    {
        self.phase.go_to(Phase::Load(Stage::Begun));
        self.changes.clear();
    }

    /// Takes what notes tell. The first of them may drop the copy, and then a load begins.
    pub fn hear(&mut self, alloc: Global, drops: bool, told: NewChanges) -> Result<(), CountError>
        requires { AreAbove (kept_position self.old) told.changes }
        ensures { IsHeard (with_new_changes drops told self.old) self.old self.new result }
    {
        if drops {
            self.begin_load();
            self.last_note = told.last_note();
            drop(mem::replace(&mut self.changes, told.into_changes()));
            return Ok(());
        }
        self.hear_changes(alloc, &told)
    }

    /// Takes what notes tell, of which the first does not drop the copy.
    fn hear_changes(&mut self, alloc: Global, told: &NewChanges) -> Result<(), CountError>
        requires { AreAbove (kept_position self.old) told.now.changes }
        ensures { IsHeard (hears told.now self.old) self.old self.new result }
    {
        let at = self.position();
        self.phase
            .hear(alloc, at, &mut self.changes, told.changes())?;
        self.last_note = told.last_note();
        Ok(())
    }

    /// Returns the next read.
    pub fn next_ask(&self) -> Option<Ask>
        ensures { result ≡ phase_ask self.now.phase }
    {
        self.phase.next_ask()
    }

    /// Takes the reply to the next ask.
    pub fn take(&mut self, alloc: Global, shown: Shown) -> Result<Read, AnswerError>
        ensures outcome { IsStep (answers self.old self.old.phase shown) self.old self.new result }
        ensures read { IfOk result (λ read. read ≡ read_of shown) }
    {
        match mem::replace(&mut self.phase, Phase::Load(Stage::Idle)) {
            Phase::Load(stage) => {
                let (phase, answer) = stage.take(alloc, self.changes.as_slice(), shown);
                self.goes_to(phase);
                answer
            }
            Phase::Copy { number, mut copy } => {
                let answer = copy.take(shown);
                self.phase.go_to(Phase::Copy { number, copy });
                answer
            }
        }
    }

    /// Goes on with what a load led to. At its end nothing is kept any more for it.
    fn goes_to(&mut self, phase: Phase)
        ensures { self.new ≡ with_phase self.old (phase_in phase) }
    {
        if let Phase::Copy { number, .. } = &phase {
            self.base = *number;
            self.changes.clear();
        }
        self.phase.go_to(phase);
    }

    /// Returns what is said if no place is missing.
    pub fn says(&self) -> Says
        ensures { result ≡ phase_tells self.now self.now.phase }
    {
        match &self.phase {
            Phase::Load(_) => Says::BehindLoad,
            Phase::Copy { copy, .. } => copy_says(copy, self.position()),
        }
    }

    /// Returns the rows of the copy, in ascending order of ids; none if no copy stands.
    pub fn rows(&self) -> &[CopyRow]
        ensures { map (λ kept. kept.row) result.now ≡ phase_all self.now.phase }
    {
        self.phase.rows()
    }

    /// Returns the row of the copy at a place among those of which it is known what they say.
    pub fn row(&self, at: usize) -> Option<&Row>
        ensures { option_copied result ≡ slice_get (phase_rows self.now.phase) at }
    {
        self.phase.row(at)
    }
}

/// Returns what a copy says at a position.
fn copy_says(copy: &CatalogCopy, position: u32) -> Says
    ensures { result ≡ copy_tells position copy.now (least_wanted copy.now) }
{
    match copy.unread() {
        Some(id) => Says::BehindRead { id },
        None => {
            let version = copy.read_up_to();
            if position < version {
                Says::BehindVersion { version }
            } else {
                Says::Stands { at: position }
            }
        }
    }
}
