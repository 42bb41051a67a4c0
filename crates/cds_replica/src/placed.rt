//! Notes at their places.

ghost use Rattle.std.specs.Prelude.{◌≡◌, ◌+◌, ◌-◌, ◌^◌, ◌<◌, ◌&&◌, nat_eq, nat_lt};
ghost use Rattle.cds_commands.specs.Wire.{note_at};

use cds_gena::Sid;
use cds_notify::Note;
use cds_object::Event;
use std::marker::Model;

/// A note with its place among those of its subscription: how many were sent before it.
#[derive(Drop)]
pub struct Placed {
    place: u64,
    note: Note,
}

impl Model for Placed {
    ghost use Rattle.std.specs.Prelude.{◌-◌, ◌^◌, ◌<◌};
    ghost use Rattle.cds_commands.specs.Notes.{Note as Told};

    ghost Value = { Told };

    ghost view = { λ p. record { name = p.note.name; place = p.place; number = p.note.number; events = p.note.events } };

    ghost invariant = { λ p. p.place < 2 ^ 64 - 1 };
}

impl Placed {
    /// Returns a note at a place.
    pub fn new(note: Note, place: u64) -> Placed
        requires { place < 2 ^ 64 - 1 }
        ensures { result ≡ note_at note place }
    {
        Placed { place, note }
    }

    /// Returns the name of its subscription.
    pub fn name(&self) -> Sid
        ensures { result.0 ≡ self.now.name }
    {
        self.note.sid
    }

    /// Returns its place.
    pub fn place(&self) -> u64
        ensures { result ≡ self.now.place }
    {
        self.place
    }

    /// Returns the place after its own.
    pub fn next_place(&self) -> u64
        ensures next { result ≡ self.now.place + 1 }
    {
        self.place + 1
    }

    /// Returns its SystemUpdateID.
    pub fn number(&self) -> u32
        ensures { result ≡ self.now.number }
    {
        self.note.number
    }

    /// Returns its changes.
    pub fn events(&self) -> &[Event]
        ensures { result.now ≡ self.now.events }
    {
        self.note.events.as_slice()
    }

    /// Returns whether it is a first note whose number is above a position. Such a note drops the copy.
    pub fn drops(&self, position: u32) -> bool
        ensures { result ≡ (nat_eq self.now.place 0 && nat_lt position self.now.number) }
    {
        self.place == 0 && position < self.note.number
    }

    /// Returns whether it is a note of this name.
    pub fn is_of(&self, sid: Sid) -> bool
        ensures { result ≡ nat_eq self.now.name sid.0 }
    {
        self.note.sid.0 == sid.0
    }

    /// Returns whether it has this place.
    pub fn has_place(&self, place: u64) -> bool
        ensures { result ≡ nat_eq self.now.place place }
    {
        self.place == place
    }

    /// Returns whether it is a note of this name with this place.
    pub fn is_at(&self, sid: Sid, place: u64) -> bool
        ensures { result ≡ (nat_eq self.now.name sid.0 && nat_eq self.now.place place) }
    {
        self.is_of(sid) && self.has_place(place)
    }

    /// Returns whether it has the name and the place of another note.
    pub fn is_same(&self, other: &Placed) -> bool
        ensures { result ≡ (nat_eq self.now.name other.now.name && nat_eq self.now.place other.now.place) }
    {
        self.note.sid.0 == other.note.sid.0 && self.place == other.place
    }
}
