//! Which notes are taken and which are held, with no copy in it (this project's profile, over UPnP Device Architecture 2.0 on
//! event keys).

ghost use Rattle.std.specs.Prelude.{◌≡◌, ◌<◌, ◌≤◌, ◌&&◌, ◌||◌, [], ◌∷◌, cond, filter, not, nat_eq, nat_lt, nat_le, IsTrue, IfOk, OnOk, OnErr, option_copied};
ghost use Rattle.std.specs.List.{list_any};
ghost use Rattle.std.specs.Option.{option_map};
ghost use Rattle.cds_follow.specs.Inbox.{has_place, is_same_note, held_limit, IsEarly, IsHeld, IsNext};
ghost use Rattle.cds_commands.specs.Places.{seq_at};
ghost use Rattle.cds_follow.specs.Follow.{is_drop};
ghost use Rattle.cds_gena.specs.Subscribed.{least_wrap};
ghost use Rattle.cds_replica.specs.Arrivals.{arrival_of};
ghost use Rattle.cds_replica.specs.CopyState.{AreAbove};
ghost use Rattle.cds_replica.specs.Inboxed.{IsInbox, inbox_of, accepts, near_in, placed_in, missing_seq, repeats, follows, held_count, arrival_in, run_after, with_request, with_refusal, with_name, with_early, with_waiting, with_next, followers, taken_early};
ghost use Rattle.cds_replica.specs.NewChanges.{nothing_told, tells, drops_first};

use crate::new_changes::{NewChanges, note_of, run_end};
use crate::placed::Placed;
use crate::places::{place_of, seq_at};
use cds_base::Mem;
use cds_gena::Sid;
use cds_notify::Note;
use std::alloc::{AllocError, Global};
use std::marker::Model;
use std::mem;

/// How many notes are held at most.
const HELD_LIMIT: u32 = 64;

/// What becomes of a delivered note by the notes alone, in the order in which it is asked.
#[derive(Clone, Copy)]
pub enum Arrival {
    /// Its name is not the accepted one, and no subscribe request is out.
    Unknown,
    /// It came before.
    Repeat,
    /// It cannot be taken now, and this many notes are held.
    Full { held: u32 },
    /// It is held for the request that is out.
    Early,
    /// It is held for the next place, which is missing.
    Held,
    /// It is the next one.
    Next,
}

/// The SEQ after which comes SEQ 1; the name that was accepted last; whether a subscribe request is out; the place after those that
/// were taken; the notes that were received and not taken; and the early ones. Of the held notes the newest is the first.
#[derive(Drop)]
pub struct Inbox {
    wrap: u32,
    accepted: Option<Sid>,
    out: bool,
    next: u64,
    waiting: Vec<Placed>,
    early: Vec<Placed>,
}

impl Model for Inbox {
    ghost use Rattle.std.specs.Option.{option_map};
    ghost use Rattle.cds_replica.specs.Inboxed.{KeptInbox, IsInbox};

    ghost Value = { KeptInbox };

    ghost view = { λ i. record { wrap = i.wrap; accepted = option_map (λ s. s.0) i.accepted; out = i.out; next = i.next; waiting = i.waiting.items; early = i.early.items } };

    ghost invariant = { λ i. IsInbox (record {
      wrap = i.wrap;
      accepted = option_map (λ s. s.0) i.accepted;
      out = i.out;
      next = i.next;
      waiting = i.waiting.items;
      early = i.early.items;
    }) };
}

impl Inbox {
    /// Returns the inbox before any turn, if SEQ 1 comes after this SEQ. It takes no memory.
    pub fn new(alloc: Global, wrap: u32) -> Inbox
        requires { least_wrap ≤ wrap }
        ensures { result ≡ inbox_of wrap [] }
    {
        Inbox {
            wrap,
            accepted: None,
            out: false,
            next: 0,
            waiting: Vec::new(alloc),
            early: Vec::new(alloc),
        }
    }

    /// Returns the name that was accepted last.
    pub fn accepted(&self) -> Option<Sid>
        ensures { option_map (λ sid. sid.0) result ≡ self.now.accepted }
    {
        self.accepted
    }

    /// Returns whether a subscribe request is out.
    pub fn is_out(&self) -> bool
        ensures { result ≡ self.now.out }
    {
        self.out
    }

    /// Returns the place after those that were taken.
    pub fn next_place(&self) -> u64
        ensures { result ≡ self.now.next }
    {
        self.next
    }

    /// Returns the SEQ of the next place.
    pub fn next_seq(&self) -> u32
        ensures { result ≡ seq_at self.now.wrap self.now.next }
    {
        seq_at(self.wrap, self.next)
    }

    /// Returns the SEQ of the place that is missing: a later one was received.
    pub fn missing(&self) -> Option<u32>
        ensures { result ≡ missing_seq self.now }
    {
        if self.waits() {
            Some(self.next_seq())
        } else {
            None
        }
    }

    /// Returns whether a note waits for the next place.
    fn waits(&self) -> bool
        ensures { result ≡ list_any (λ note. nat_lt self.now.next note.place) self.now.waiting }
    {
        match self.waiting.first() {
            Some(note) => self.next < note.place(),
            None => false,
        }
    }

    /// Returns a note that came, at the place with its SEQ that is near those that were taken.
    pub fn place(&self, note: Note) -> Option<Placed>
        ensures { result ≡ placed_in note self.now }
    {
        match place_of(self.wrap, self.near(note.sid), note.seq) {
            Some(place) => Some(Placed::new(note, place)),
            None => None,
        }
    }

    /// Returns the place next to which the notes of a name are.
    fn near(&self, sid: Sid) -> u64
        ensures { result ≡ near_in sid.0 self.now }
    {
        if self.accepts(sid) { self.next } else { 0 }
    }

    /// Makes known what holds of every inbox. Only proofs need it.
    pub fn facts(&self)
        ensures { IsInbox self.now }
    {
        let _ = &self.waiting;
    }

    /// Returns what becomes of a delivered note.
    pub fn arrival(&self, note: &Placed) -> Arrival
        ensures { arrival_of self.now.next result ≡ arrival_in note.now self.now }
    {
        if self.is_unknown(note.name()) {
            return Arrival::Unknown;
        }
        if self.repeats(note) {
            return Arrival::Repeat;
        }
        if self.is_full(note) {
            return Arrival::Full { held: self.held() };
        }
        self.placed(note)
    }

    /// Returns what becomes of a note that is none of those before.
    fn placed(&self, note: &Placed) -> Arrival
        ensures { arrival_of self.now.next result ≡ cond (not (accepts note.now.name self.now)) IsEarly
            (cond (nat_lt self.now.next note.now.place) (IsHeld self.now.next) IsNext) }
    {
        if !self.accepts(note.name()) {
            return Arrival::Early;
        }
        if self.next < note.place() {
            Arrival::Held
        } else {
            Arrival::Next
        }
    }

    /// Returns whether a name is the accepted one.
    fn accepts(&self, sid: Sid) -> bool
        ensures { result ≡ accepts sid.0 self.now }
    {
        match self.accepted {
            Some(accepted) => accepted.0 == sid.0,
            None => false,
        }
    }

    /// Returns whether nothing is known of a name.
    fn is_unknown(&self, sid: Sid) -> bool
        ensures { result ≡ (not (accepts sid.0 self.now) && not self.now.out) }
    {
        !self.accepts(sid) && !self.out
    }

    /// Returns whether a note came before.
    fn repeats(&self, note: &Placed) -> bool
        ensures { result ≡ repeats note.now self.now }
    {
        if self.accepts(note.name()) {
            self.has_received(note.place())
        } else {
            self.out && has_same(&self.early, note)
        }
    }

    /// Returns whether a note of the accepted name with this place was taken or waits.
    fn has_received(&self, place: u64) -> bool
        ensures { result ≡ (nat_lt place self.now.next || has_place self.now.waiting place) }
    {
        place < self.next || has_place(&self.waiting, place)
    }

    /// Returns whether a note is the next one.
    fn follows(&self, note: &Placed) -> bool
        ensures { result ≡ follows note.now self.now }
    {
        self.accepts(note.name()) && note.has_place(self.next)
    }

    /// Returns whether a note cannot be taken now, and no room is left to hold it.
    fn is_full(&self, note: &Placed) -> bool
        ensures { result ≡ (not (follows note.now self.now) && nat_le held_limit (held_count self.now)) }
    {
        !self.follows(note) && HELD_LIMIT <= self.held()
    }

    /// Returns how many notes are held.
    fn held(&self) -> u32
        ensures { result ≡ held_count self.now }
    {
        (self.waiting.len() + self.early.len()) as u32
    }

    /// Returns what the next note and those that follow it tell.
    pub fn told_by(
        &self,
        alloc: Global,
        note: &Placed,
        position: u32,
        last_note: u32,
    ) -> Result<NewChanges, Mem>
        requires { IsTrue (follows note.now self.now) }
        ensures told { IfOk result (λ told. told ≡ tells (note.now ∷ followers self.now) (nothing_told position last_note)) }
        ensures above { IfOk result (λ told. AreAbove position told.changes) }
    {
        let to = self.run_after(note);
        let mut told = NewChanges::new(alloc, position, last_note);
        told.add(note)?;
        told.add_run(self.waiting(), note.name(), note.next_place(), to)?;
        Ok(told)
    }

    /// Returns the notes that wait.
    fn waiting(&self) -> &[Placed]
        ensures waiting { result.now ≡ self.now.waiting }
        ensures facts { IsInbox self.now }
    {
        self.waiting.as_slice()
    }

    /// Returns the early notes.
    fn early(&self) -> &[Placed]
        ensures { result.now ≡ self.now.early }
    {
        self.early.as_slice()
    }

    /// Returns the place after the next note and those that follow it.
    fn run_after(&self, note: &Placed) -> u64
        requires { IsTrue (follows note.now self.now) }
        ensures after { result ≡ run_after self.now }
    {
        run_end(self.waiting(), note.name(), note.next_place())
    }

    /// Returns what the early notes of a name tell that are taken when it is accepted.
    pub fn told_early(
        &self,
        alloc: Global,
        sid: Sid,
        position: u32,
        last_note: u32,
    ) -> Result<NewChanges, Mem>
        ensures told { IfOk result (λ told. told ≡ tells (taken_early sid.0 self.now) (nothing_told position last_note)) }
        ensures above { IfOk result (λ told. AreAbove position told.changes) }
    {
        let to = run_end(self.early(), sid, 0);
        let mut told = NewChanges::new(alloc, position, last_note);
        told.add_run(self.early(), sid, 0, to)?;
        Ok(told)
    }

    /// Returns whether the first of these drops the copy.
    pub fn drops_early(&self, sid: Sid, position: u32) -> bool
        ensures { result ≡ is_drop position (taken_early sid.0 self.now) }
    {
        drops(note_of(self.early(), sid, 0), position)
    }

    /// Keeps that a subscribe request goes out.
    pub fn request(&mut self)
        ensures { self.new ≡ with_request self.old }
    {
        self.drop_early(true);
    }

    /// Keeps that the request was refused.
    pub fn refuse(&mut self)
        ensures { self.new ≡ with_refusal self.old }
    {
        self.drop_early(false);
    }

    /// Drops the early notes, because a request goes out or was refused.
    fn drop_early(&mut self, out: bool)
        ensures { self.new ≡ record self.old { out = out; early = [] } }
    {
        self.early.clear();
        self.out = out;
    }

    /// Accepts a name: its early notes are taken, or wait.
    pub fn accept(&mut self, sid: Sid)
        ensures { self.new ≡ with_name sid.0 self.old }
    {
        let next = run_end(self.early(), sid, 0);
        self.accepted = Some(sid);
        self.out = false;
        self.next = next;
        keep_behind(&mut self.early, sid, next);
        self.waiting.clear();
        mem::swap(&mut self.waiting, &mut self.early);
    }

    /// Holds an early note. Without memory it is dropped, and the inbox is as before.
    pub fn hold_early(&mut self, note: Placed) -> Result<(), AllocError>
        requires { held_count self.old < held_limit }
        ensures ok { OnOk result (self.new ≡ with_early note self.old) }
        ensures err { OnErr result (self.new ≡ self.old) }
    {
        self.early.insert(0, note)?;
        Ok(())
    }

    /// Holds a note for a place before it. Without memory it is dropped, and the inbox is as before.
    pub fn hold(&mut self, note: Placed) -> Result<(), AllocError>
        requires few { held_count self.old < held_limit }
        requires accepted { IsTrue (accepts note.name self.old) }
        requires later { self.old.next < note.place }
        ensures ok { OnOk result (self.new ≡ with_waiting note self.old) }
        ensures err { OnErr result (self.new ≡ self.old) }
    {
        self.waiting.insert(0, note)?;
        Ok(())
    }

    /// Takes the next note and those that follow it.
    pub fn take(&mut self, note: &Placed)
        requires { IsTrue (follows note.now self.old) }
        ensures { self.new ≡ with_next self.old }
    {
        let next = self.run_after(note);
        self.next = next;
        keep_behind(&mut self.waiting, note.name(), next);
    }
}

/// Returns whether a first note drops the copy at a position.
fn drops(note: Option<&Placed>, position: u32) -> bool
    ensures { result ≡ drops_first position (option_copied note.entry) }
{
    match note {
        Some(note) => position < note.number(),
        None => false,
    }
}

/// Returns whether a note is one of this name after a place.
fn is_behind(note: &Placed, name: u128, next: u64) -> bool
    ensures { result ≡ (nat_eq note.now.name name && nat_lt next note.now.place) }
{
    note.name().0 == name && next < note.place()
}

/// Keeps the notes of a name after a place.
fn keep_behind(notes: &mut Vec<Placed>, sid: Sid, next: u64)
    ensures { notes.new.items ≡ filter (λ note. nat_eq note.name sid.0 && nat_lt next note.place) notes.old.items }
{
    let name = sid.0;
    notes.retain(|note| is_behind(note, name, next));
}

/// Returns whether one of these notes has this place.
fn has_place(notes: &[Placed], place: u64) -> bool
    ensures { result ≡ has_place notes.now place }
{
    notes.iter().any(|note| note.has_place(place))
}

/// Returns whether one of these notes has the name and the place of another.
fn has_same(notes: &[Placed], note: &Placed) -> bool
    ensures { result ≡ list_any (is_same_note note.now) notes.now }
{
    notes.iter().any(|held| note.is_same(held))
}
