//! What notes that are taken one after the other tell, and the runs of places in which they are taken.

ghost use Rattle.std.specs.Prelude.{◌≡◌, OnOk, IfSome, is_some, option_copied};
ghost use Rattle.cds_follow.specs.Inbox.{has_place};
ghost use Rattle.cds_commands.specs.Notes.{note_of, notes_from_to};
ghost use Rattle.cds_replica.specs.Inboxed.{run_end, of_name};
ghost use Rattle.cds_replica.specs.NewChanges.{nothing_told, tells, tells_note};

use crate::changes::add_changes_above;
use crate::placed::Placed;
use cds_base::Mem;
use cds_gena::Sid;
use cds_object::Event;
use std::alloc::Global;
use std::marker::Model;

/// The position and the greatest number of a note after some notes, and the changes that were new in them.
#[derive(Drop)]
pub struct NewChanges {
    position: u32,
    last_note: u32,
    changes: Vec<Event>,
}

impl Model for NewChanges {
    ghost use Rattle.cds_replica.specs.NewChanges.{KeptChanges};

    ghost Value = { KeptChanges };

    ghost view = { λ t. record { position = t.position; last_note = t.last_note; changes = t.changes.items } };
}

impl NewChanges {
    /// Returns what no note tells, at a position.
    pub fn new(alloc: Global, position: u32, last_note: u32) -> NewChanges
        ensures { result ≡ nothing_told position last_note }
    {
        NewChanges {
            position,
            last_note,
            changes: Vec::new(alloc),
        }
    }

    /// Returns the greatest number of a note.
    pub fn last_note(&self) -> u32
        ensures { result ≡ self.now.last_note }
    {
        self.last_note
    }

    /// Returns the changes that were new.
    pub fn changes(&self) -> &[Event]
        ensures { result.now ≡ self.now.changes }
    {
        self.changes.as_slice()
    }

    /// Returns the changes that were new, by value.
    pub fn into_changes(self) -> Vec<Event>
        ensures { result.items ≡ self.changes }
    {
        self.changes
    }

    /// Adds what one more note tells.
    pub fn add(&mut self, note: &Placed) -> Result<(), Mem>
        ensures { OnOk result (self.new ≡ tells_note note.now self.old) }
    {
        add_changes_above(&mut self.changes, self.position, note.events())?;
        self.position = self.position.max(note.number());
        self.last_note = self.last_note.max(note.number());
        Ok(())
    }

    /// Adds what the notes of a name tell whose places go from one up to another.
    pub fn add_run(&mut self, notes: &[Placed], sid: Sid, from: u64, to: u64) -> Result<(), Mem>
        ensures { OnOk result (self.new ≡ tells (notes_from_to from to (of_name sid.0 notes.now)) self.old) }
    {
        for place in from..to {
            if let Some(note) = note_of(notes, sid, place) {
                self.add(note)?;
            }
        }
        Ok(())
    }
}

/// Returns the note of a name and a place, the one that came first. Of these notes the newest is the first.
pub fn note_of(notes: &[Placed], sid: Sid, place: u64) -> Option<&Placed>
    ensures note { option_copied result ≡ note_of place (of_name sid.0 notes.now) }
    ensures place { IfSome result (λ note. note.now.place ≡ place) }
    ensures found { is_some result ≡ has_place (of_name sid.0 notes.now) place }
{
    let mut found = None;
    for note in notes {
        if note.is_at(sid, place) {
            found = Some(note);
        }
    }
    found
}

/// Returns the place after those that the notes of a name have from one on without a hole.
pub fn run_end(notes: &[Placed], sid: Sid, from: u64) -> u64
    ensures end { result ≡ run_end from (of_name sid.0 notes.now) }
{
    let mut place = from;
    for _held in 0..notes.len() {
        match note_of(notes, sid, place) {
            None => return place,
            Some(note) => place = note.next_place(),
        }
    }
    place
}
