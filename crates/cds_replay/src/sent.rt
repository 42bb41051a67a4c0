//! The notes that a script's server sent, as they go over the wire.

ghost use Rattle.std.specs.Prelude.{◌≡◌, ◌<◌, ◌≤◌, nat_eq, filter, ◌++◌, [], ◌∷◌, map, length, slice_get, option_map, IfOk, IfSome, OnErr, OnOk};
ghost use Rattle.cds_gena.specs.Subscribed.{IsDelivered};
ghost use Rattle.cds_server.specs.Due.{AllGoOut};
ghost use Rattle.cds_server.specs.Outcome.{GoesOut};
ghost use Rattle.cds_replay.specs.Sending.{carries, first_sent, head_of, is_request_of, kept_note, name_on, named_before, note_at, sent_notes, sent_of, sent_to};

use cds_base::{Bytes, Mem};
use cds_gena::{Address, Addresses, Sid};
use cds_notify::write_notify;
use cds_server::{FirstNote, Notes};
use std::alloc::Global;
use std::marker::Model;

/// What a script writes of a note: its SEQ and its SystemUpdateID.
#[derive(Clone, Copy)]
pub struct SentHead {
    pub seq: u32,
    pub number: u32,
}

/// A note that was sent: the address that it goes to, the number that it tells, and the place of its body.
#[derive(Drop)]
pub struct KeptNote {
    pub to: Address,
    pub number: u32,
    pub body: usize,
}

/// All notes that were sent, the oldest first. Each of their bodies is kept once. Contracts see the list of the notes with their
/// bodies.
#[derive(Drop)]
pub struct Sent {
    notes: Vec<KeptNote>,
    bodies: Vec<Bytes>,
}

impl Model for Sent {
    ghost use Rattle.std.specs.Prelude.{List, map};
    ghost use Rattle.cds_replay.specs.Sending.{SentNote, note_at, AreKept};

    ghost Value = { List SentNote };

    ghost view = { λ s. map (note_at s.bodies.items) s.notes.items };

    ghost invariant = { λ s. AreKept s.bodies.items s.notes.items };
}

/// Returns a copy of an address.
fn copied(alloc: Global, to: &Address) -> Result<Address, Mem>
    ensures { IfOk result (λ copy. copy ≡ to.now) }
{
    Ok(Address {
        sid: to.sid,
        callback: to.callback.copy(alloc)?,
        seq: to.seq,
    })
}

/// Returns the notes of a release to some addresses, with the place of their body.
fn notes_to(alloc: Global, to: &[Address], number: u32, body: usize) -> Result<Vec<KeptNote>, Mem>
    ensures { IfOk result (λ notes. notes.items ≡ map (kept_note number body) to.now) }
{
    let mut notes = Vec::new(alloc);
    for address in to {
        notes.push(KeptNote {
            to: copied(alloc, address)?,
            number,
            body,
        })?;
    }
    Ok(notes)
}

/// Returns how many notes go to a name.
fn named_in(notes: &[KeptNote], sid: Sid) -> u64
    ensures { result ≡ length (filter (λ note. nat_eq note.to.sid.0 sid.0) notes.now) }
{
    let mut count = 0;
    for note in notes {
        if note.to.sid.0 == sid.0 {
            count += 1;
        }
    }
    count
}

/// Returns the bytes of the request that carries a body to an address.
fn carrying(alloc: Global, to: &Address, body: &[u8]) -> Result<Bytes, Mem>
    requires { IsDelivered to.now }
    ensures { IfOk result (λ request. carries to.now body.now request) }
{
    let mut request = Vec::new(alloc);
    write_notify(alloc, to, body, &mut request)?;
    Ok(Bytes::from(request))
}

/// Adds notes and the body that they have. A refusal leaves both lists as they were.
fn put_sent(
    notes: &mut Vec<KeptNote>,
    bodies: &mut Vec<Bytes>,
    mut added: Vec<KeptNote>,
    body: Bytes,
) -> Result<(), Mem>
    ensures notes { OnOk result (notes.new.items ≡ notes.old.items ++ added.items) }
    ensures bodies { OnOk result (bodies.new.items ≡ bodies.old.items ++ body ∷ []) }
    ensures notes_kept { OnErr result (notes.new.items ≡ notes.old.items) }
    ensures bodies_kept { OnErr result (bodies.new.items ≡ bodies.old.items) }
{
    bodies.reserve(1)?;
    notes.append(&mut added)?;
    if bodies.push(body).is_err() {
        unreachable!();
    }
    Ok(())
}

impl Sent {
    /// Returns a list without notes.
    pub fn new(alloc: Global) -> Sent
        ensures { result ≡ [] }
    {
        Sent {
            notes: Vec::new(alloc),
            bodies: Vec::new(alloc),
        }
    }

    /// Returns how many notes were sent.
    pub fn len(&self) -> usize
        ensures { result ≡ length self.now }
    {
        self.notes.len()
    }

    /// Returns what is written of the note at a place counted from 0, or `None` past the end.
    pub fn head(&self, at: usize) -> Option<SentHead>
        ensures { result ≡ option_map head_of (slice_get self.now at) }
    {
        match self.notes.get(at) {
            None => None,
            Some(note) => Some(SentHead {
                seq: note.to.seq,
                number: note.number,
            }),
        }
    }

    /// Returns the name that the note at a place counted from 0 goes to, or `None` past the end.
    pub fn name(&self, at: usize) -> Option<Sid>
        ensures { result ≡ option_map name_on (slice_get self.now at) }
    {
        match self.notes.get(at) {
            None => None,
            Some(note) => Some(note.to.sid),
        }
    }

    /// Returns how many notes before that of a number, counted from 1, went to a name.
    pub fn before(&self, number: u32, sid: Sid) -> u64
        requires some { 0 < number }
        requires sent { number ≤ length self.now }
        ensures { result ≡ named_before sid.0 number self.now }
    {
        let (earlier, _) = self.notes.as_slice().split_at(number as usize - 1);
        named_in(earlier, sid)
    }

    /// Returns the bytes of the request that carries the note of a number, counted from 1, or `None` if no note has it.
    pub fn request(&self, alloc: Global, number: u32) -> Result<Option<Bytes>, Mem>
        ensures { IfOk result (λ request. is_request_of (sent_of number self.now) request) }
    {
        if number == 0 {
            return Ok(None);
        }
        let Some(note) = self.notes.get(number as usize - 1) else {
            return Ok(None);
        };
        let Some(body) = self.bodies.get(note.body) else {
            return Ok(None);
        };
        Ok(Some(carrying(alloc, &note.to, body.as_slice())?))
    }

    /// Adds the first note of a subscription, which tells a number.
    pub fn send_first(&mut self, alloc: Global, note: FirstNote, number: u32) -> Result<(), Mem>
        requires delivered { IsDelivered note.to }
        ensures sent { OnOk result (self.new ≡ self.old ++ sent_to number note.body note.to ∷ []) }
        ensures kept { OnErr result (self.new ≡ self.old) }
    {
        let mut added = Vec::new(alloc);
        added.push(KeptNote {
            to: note.to,
            number,
            body: self.bodies.len(),
        })?;
        put_sent(&mut self.notes, &mut self.bodies, added, note.body)?;
        Ok(())
    }

    /// Adds the notes of a release.
    pub fn send(&mut self, alloc: Global, notes: Notes) -> Result<(), Mem>
        requires delivered { AllGoOut notes }
        ensures sent { OnOk result (self.new ≡ self.old ++ map (sent_to notes.span.to notes.body) notes.to) }
        ensures kept { OnErr result (self.new ≡ self.old) }
    {
        let added = notes_to(alloc, notes.to.as_slice(), notes.span.to, self.bodies.len())?;
        put_sent(&mut self.notes, &mut self.bodies, added, notes.body)?;
        Ok(())
    }

    /// Adds the notes of a tick, if it sends some.
    pub fn send_due(&mut self, alloc: Global, notes: Option<Notes>) -> Result<(), Mem>
        requires { IfSome notes AllGoOut }
        ensures { OnOk result (self.new ≡ self.old ++ sent_notes notes) }
    {
        match notes {
            None => Ok(()),
            Some(notes) => self.send(alloc, notes),
        }
    }

    /// Adds the first note of a subscription, which tells a number, if one was granted.
    pub fn send_granted(
        &mut self,
        alloc: Global,
        note: Option<FirstNote>,
        number: u32,
    ) -> Result<(), Mem>
        requires { GoesOut note }
        ensures { OnOk result (self.new ≡ self.old ++ first_sent number note) }
    {
        match note {
            None => Ok(()),
            Some(note) => self.send_first(alloc, note, number),
        }
    }
}
