//! The history of a generated library, step by step.

ghost use Rattle.std.specs.Prelude.{◌≡◌, ◌<◌, IfOk};
ghost use Rattle.cds_generate.specs.History.{CanGoOn, after_step, first_history, late_by, sent_by, step_at};

use crate::library::{Library, Track};
use cds_base::Mem;
use std::alloc::Global;
use std::marker::Model;

/// What a step has to write besides the library.
#[derive(Clone, Copy, Debug, PartialEq, Eq)]
pub struct Step {
    /// Its number, from 1 on.
    pub number: u32,
    /// What was drawn for its note, from 0 to 9.
    pub kind: u64,
    /// The number of its note.
    pub note: u32,
    /// The note of the step before, if it is delivered late.
    pub late: Option<u32>,
}

/// A library and the notes that were sent of it.
#[derive(Drop, Debug)]
pub(crate) struct History {
    library: Library,
    sent: u32,
    late: Option<u32>,
}

impl Model for History {
    ghost use Rattle.cds_generate.specs.History.{HistoryState};

    ghost Value = { HistoryState };

    ghost view = { λ h. record { library = h.library; sent = h.sent; late = h.late } };
}

/// Returns how many notes were sent after a step, by the number of its note.
fn sent_by(kind: u64, note: u32) -> u32
    requires { note < 4294967295 }
    ensures { result ≡ sent_by kind note }
{
    if kind == 0 { note + 1 } else { note }
}

/// Returns the note of a step if it is late.
fn late_by(kind: u64, note: u32) -> Option<u32>
    ensures { result ≡ late_by kind note }
{
    if kind == 2 { Some(note) } else { None }
}

impl History {
    /// Returns the history before the first step.
    pub(crate) fn new(alloc: Global, seed: u64, count: u32) -> Result<History, Mem>
        ensures { IfOk result (λ history. history ≡ first_history seed count) }
    {
        let library = Library::new(alloc, seed, count)?;
        Ok(History {
            library,
            sent: 1,
            late: None,
        })
    }

    /// Returns the tracks of the library.
    pub(crate) fn tracks(&self) -> &[Track]
        ensures { result.now ≡ self.now.library.tracks }
    {
        self.library.tracks()
    }

    /// Returns the note that is delivered a step late, if there is one.
    pub(crate) fn late(&self) -> Option<u32>
        ensures { result ≡ self.now.late }
    {
        self.late
    }

    /// Goes one step on, and returns what that step has to write besides the library.
    pub(crate) fn advance(&mut self, number: u32) -> Step
        requires { CanGoOn self.old }
        ensures after { self.new ≡ after_step number self.old }
        ensures step { result ≡ step_at number self.old }
    {
        self.library.change_before(number);
        let kind = self.library.draw(10);
        let note = self.sent + 1;
        let late = self.late;
        self.sent = sent_by(kind, note);
        self.late = late_by(kind, note);
        Step {
            number,
            kind,
            note,
            late,
        }
    }
}
