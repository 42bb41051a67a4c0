//! The replica of a server: its calls, and what they answer.

ghost use Rattle.std.specs.Prelude.{◌≡◌, ◌≤◌, ℕ, [], List, ◌∷◌, ◌++◌, None, map, IsOk, IfOk, IfSome, IsSome, IsTrue, OnOk, OnErr, option_copied, slice_get, codes};
ghost use Rattle.std.specs.List.{filter_map};
ghost use Rattle.std.specs.Option.{option_map};
ghost use Rattle.cds_load.specs.Outcome.{CannotBeRead};
ghost use Rattle.cds_follow.specs.Copy.{shown_row};
ghost use Rattle.cds_follow.specs.Inbox.{ReplicaTurn, Begins, Shows, Requests, Accepts, Refuses, is_out, accepted, next_place, taken_by};
ghost use Rattle.cds_follow.specs.Follow.{known_by, next_ask, copied, with_notes, with_reply};
ghost use Rattle.cds_follow.specs.Seen.{WasShown};
ghost use Rattle.cds_follow.specs.Wire.{placed, arrival_on_wire, heard, says_on_wire};
ghost use Rattle.cds_gena.specs.Subscribed.{least_wrap};
ghost use Rattle.cds_exchange.specs.Asking.{action_of};
ghost use Rattle.cds_soap.specs.Written.{written_action};
ghost use Rattle.cds_replica.specs.Answer.{read_of};
ghost use Rattle.cds_replica.specs.Attempted.{AsksByAttempt, TakesByAttempt, SaysByAttempt, CopiesByAttempt};
ghost use Rattle.cds_replica.specs.Replies.{IsNextReading, TakesRead, TakesReply, AnswersReply, IsRead, WhereShown, AnswersGiven};
ghost use Rattle.cds_replica.specs.ShownIn.{GoesOnIn, WasReplied};
ghost use Rattle.cds_replica.specs.Calls.{GoesOn, TakesTurn, TakesNote, HoldsFew, IsNotice, IsAcceptance, IsAnswer, UnlessNoMemory, UnlessMem, IsTaking, IsDelivered, IsArrived, of_notes, refusal_of};
ghost use Rattle.cds_replica.specs.Inboxed.{arrival_in, placed_in, follows, followers, taken_early, with_name, with_next};
ghost use Rattle.cds_replica.specs.Honest.{TakesGiven, HearsGiven, AcceptsGiven, SaysGiven, CompletesGiven};
ghost use Rattle.cds_replica.specs.Steps.{phase_ask, phase_all, phase_rows, kept_says};
ghost use Rattle.cds_replica.specs.State.{StandsFor};

use crate::copy_row::CopyRow;
use crate::count_error::CountError;
use crate::inbox::{Arrival, Inbox};
use crate::knowledge::Knowledge;
use crate::note::Taken;
use crate::placed::Placed;
use crate::{AnswerError, NotifyError};
use cds_base::Mem;
use cds_exchange::read_reply;
use cds_follow::Says;
use cds_gena::Sid;
use cds_load::{Ask, Read, Shown};
use cds_notify::Note;
use cds_object::Row;
use std::alloc::Global;
use std::fmt;
use std::fmt::{Debug, Formatter};
use std::marker::Model;
use url::Url;

/// A copy of a server's catalog that goes on with the notes of a subscription, or the load that is to give one. It stands for the
/// turns that it took, the newest first, though it keeps none of them. A turn is a load that was begun, a reply, a subscribe
/// request, its answer, or a note. A turn that is refused is none.
#[derive(Drop)]
pub struct Replica {
    known: Knowledge,
    inbox: Inbox,
}

impl Model for Replica {
    ghost use Rattle.cds_replica.specs.State.{ReplicaState};

    ghost Value = { ReplicaState };

    ghost view = { λ r. record { known = r.known; inbox = r.inbox } };
}

/// Writes its name alone. Deriving this for all that it holds would cost much to prove, and nothing prints it.
impl Debug for Replica {
    fn fmt<W: fmt::Write>(&self, f: &mut Formatter<W>) -> fmt::Result {
        f.debug_struct("Replica").finish_non_exhaustive()
    }
}

impl Replica {
    /// Returns a replica without a copy and without a subscription. For it SEQ 1 comes after SEQ 4294967295, as UPnP Device
    /// Architecture 2.0 has it. It takes no memory.
    pub fn new(alloc: Global) -> Replica
        ensures { StandsFor result 4294967295 [] }
    {
        Replica::with_wrap(alloc, u32::MAX)
    }

    /// Returns such a replica for which SEQ 1 comes after another SEQ, which is at least 256. It is for tests. It takes no memory.
    pub fn with_wrap(alloc: Global, wrap: u32) -> Replica
        requires { least_wrap ≤ wrap }
        ensures { StandsFor result wrap [] }
    {
        Replica {
            known: Knowledge::new(alloc),
            inbox: Inbox::new(alloc, wrap),
        }
    }

    /// Makes known what holds of the notes of every replica. Only proofs need it.
    fn facts(&self)
        ensures { HoldsFew self.now }
    {
        self.inbox.facts();
    }

    /// Drops the copy and begins a load.
    pub fn begin_load(&mut self) -> Result<(), Mem>
        ensures ok { IsOk result }
        ensures stands { GoesOn self.old Begins self.new }
        ensures few { HoldsFew self.new }
    {
        self.known.begin_load();
        self.facts();
        Ok(())
    }

    /// Keeps that a subscribe request goes out. The early notes of the request before it are dropped.
    pub fn subscribing(&mut self) -> Result<(), Mem>
        ensures ok { IsOk result }
        ensures stands { GoesOn self.old Requests self.new }
        ensures few { HoldsFew self.new }
    {
        self.inbox.request();
        self.facts();
        Ok(())
    }

    /// Keeps that the request was refused. Its early notes are dropped, and the subscription from before stays.
    pub fn not_subscribed(&mut self)
        ensures stands { GoesOn self.old Refuses self.new }
        ensures few { HoldsFew self.new }
    {
        self.inbox.refuse();
        self.facts();
    }

    /// Returns whether a subscribe request is out.
    pub fn is_subscribing(&self) -> bool
        ensures kept { result ≡ self.now.inbox.out }
        ensures request { (wrap : ℕ) (turns : List ReplicaTurn) → StandsFor self.now wrap turns → result ≡ is_out turns }
    {
        self.inbox.is_out()
    }

    /// Accepts the name that the request was answered with. Condition: the request is out. The notes that are held for the name
    /// from before are dropped. Of the early notes those of the new name are taken or held, and the others dropped. `Jump` and
    /// `Torn` come as in `notify`, and then nothing changes.
    pub fn subscribed(&mut self, alloc: Global, sid: Sid) -> Result<(), NotifyError>
        requires { IsTrue self.old.inbox.out }
        ensures unchanged { OnErr result (self.new ≡ self.old) }
        ensures stands { UnlessNoMemory result (TakesTurn self.old (Accepts sid.0) self.new) }
        ensures answer { (wrap : ℕ) (turns : List ReplicaTurn) → StandsFor self.old wrap turns →
            IsAcceptance (with_notes (taken_by (Accepts sid.0) turns) (known_by turns)) result }
        ensures given { AcceptsGiven self.old sid.0 self.new result }
        ensures few { HoldsFew self.new }
    {
        let answer = self.take_early(alloc, sid);
        self.facts();
        answer
    }

    /// Takes the early notes of a name.
    fn take_early(&mut self, alloc: Global, sid: Sid) -> Result<(), NotifyError>
        ensures { IsTaking (of_notes (taken_early sid.0 self.old.inbox) self.old.known) self.old (with_name sid.0 self.old.inbox) self.new result }
    {
        let position = self.known.position();
        let drops = self.inbox.drops_early(sid, position);
        let told = self
            .inbox
            .told_early(alloc, sid, position, self.known.last_note())?;
        match self.known.hear(alloc, drops, told) {
            Ok(()) => {}
            Err(refusal) => return Err(refusal_of(refusal)),
        }
        self.inbox.accept(sid);
        Ok(())
    }

    /// Takes or holds a note, or refuses it, and then it counts as not delivered. What becomes of it is decided in this order:
    /// - `Unknown`: its name is not the accepted one, and no subscribe request is out. Or it has no place.
    /// - `Repeat`: a note of the accepted name came before at its place, or one of its name and place is held.
    /// - `Full`: it cannot be taken now, and 64 notes are held.
    /// - `Early`: its name is not the accepted one.
    /// - `Held`: a place before its own is missing. The SEQ of the next place is told.
    ///
    /// SEQs wrap, and its place is the one with its SEQ that is near the next place to be taken, or near 0 if its name is not the
    /// accepted one: at most a quarter of the wrap away. If there is none, or the next place is 2^63 or more, it has no place.
    ///
    /// Otherwise it and the held notes that follow it without a hole are to be taken. Two refusals may come:
    /// - `Jump`: the first change above the position is not the one after it.
    /// - `Torn`: a change names an object or a parent that it cannot.
    ///
    /// Otherwise they are taken. A first note above the position drops the copy and begins a load. Each change above the position
    /// is counted once, or kept for the load's end. All is decided, and all memory taken, before anything changes.
    pub fn notify(&mut self, alloc: Global, note: Note) -> Result<Taken, NotifyError>
        ensures unchanged { OnErr result (self.new ≡ self.old) }
        ensures stands { UnlessNoMemory result (TakesNote self.old note self.new) }
        ensures answer { (wrap : ℕ) (turns : List ReplicaTurn) → StandsFor self.old wrap turns →
            IsNotice (arrival_on_wire wrap note turns) (heard (placed wrap note turns) turns) result }
        ensures given { HearsGiven self.old note self.new result }
        ensures few { HoldsFew self.new }
    {
        let answer = self.arrive(alloc, note);
        self.facts();
        answer
    }

    /// Gives a note its place, and takes or holds it, or refuses it.
    fn arrive(&mut self, alloc: Global, note: Note) -> Result<Taken, NotifyError>
        ensures { IsArrived (placed_in note self.old.inbox) self.old self.new result }
    {
        match self.inbox.place(note) {
            Some(placed) => self.deliver(alloc, placed),
            None => Err(NotifyError::Unknown),
        }
    }

    /// Takes or holds a note at its place, or refuses it.
    fn deliver(&mut self, alloc: Global, note: Placed) -> Result<Taken, NotifyError>
        ensures { IsDelivered (arrival_in note self.old.inbox) note self.old self.new result }
    {
        match self.inbox.arrival(&note) {
            Arrival::Unknown => Err(NotifyError::Unknown),
            Arrival::Repeat => Ok(Taken::Repeat),
            Arrival::Full { held } => Err(NotifyError::Full { held }),
            Arrival::Early => {
                self.inbox.hold_early(note)?;
                Ok(Taken::Early)
            }
            Arrival::Held => {
                let missing = self.inbox.next_seq();
                self.inbox.hold(note)?;
                Ok(Taken::Held { missing })
            }
            Arrival::Next => match self.take_note(alloc, &note) {
                Ok(()) => Ok(Taken::Took),
                Err(refusal) => Err(refusal),
            },
        }
    }

    /// Takes the next note and those that follow it.
    fn take_note(&mut self, alloc: Global, note: &Placed) -> Result<(), NotifyError>
        requires { IsTrue (follows note.now self.old.inbox) }
        ensures { IsTaking (of_notes (note.now ∷ followers self.old.inbox) self.old.known) self.old (with_next self.old.inbox) self.new result }
    {
        let position = self.known.position();
        let told = self
            .inbox
            .told_by(alloc, note, position, self.known.last_note())?;
        match self.known.hear(alloc, note.drops(position), told) {
            Ok(()) => {}
            Err(refusal) => return Err(refusal_of(refusal)),
        }
        self.inbox.take(note);
        Ok(())
    }

    /// Returns the next read: that of the load, or else the own row of the unread object of the least id. It is `None` if and
    /// only if no load runs and nothing is unread.
    pub fn next_ask(&self) -> Option<Ask>
        ensures kept { result ≡ phase_ask self.now.known.phase }
        ensures next { (wrap : ℕ) (turns : List ReplicaTurn) → StandsFor self.now wrap turns → result ≡ next_ask (known_by turns) }
        ensures attempt { AsksByAttempt self.now result }
    {
        self.known.next_ask()
    }

    /// Appends the control request of an ask, to an `http` address (UPnP Device Architecture 2.0 on control). A refusal leaves
    /// `out` as it was.
    pub fn ask_bytes(ask: &Ask, url: &Url, out: &mut Vec<u8>) -> Result<(), Mem>
        requires http { url.now.scheme ≡ codes "http" }
        ensures ok { OnOk result (out.new.items ≡ out.old.items ++ written_action (action_of ask.now) url.now) }
        ensures err { OnErr result (out.new.items ≡ out.old.items) }
    {
        cds_exchange::ask_bytes(ask, url, out)
    }

    /// Takes the bytes of the reply to the next ask. Condition: there is one. It does what `take` does with what they show. If
    /// they are no reply that answers the ask, or a page in them is no DIDL-Lite document, it answers `Unreadable`. What comes
    /// after the reply is passed over. A refusal leaves the replica as it was.
    pub fn answer(&mut self, alloc: Global, reply: &[u8]) -> Result<Read, AnswerError>
        requires { IsSome (phase_ask self.old.known.phase) }
        ensures unchanged { OnErr result (self.new ≡ self.old) }
        ensures reads { IsRead (phase_ask self.old.known.phase) reply.now result }
        ensures unreadable { IsNextReading (phase_ask self.old.known.phase) reply.now None → IsAnswer CannotBeRead result }
        ensures stands { UnlessMem result (TakesReply self.old reply.now self.new) }
        ensures goes { UnlessMem result (GoesOnIn self.old reply.now self.new) }
        ensures answer { AnswersReply self.old reply.now result }
        ensures read { WhereShown (phase_ask self.old.known.phase) reply.now (λ shown. IfOk result (λ read. read ≡ read_of shown)) }
        ensures given { AnswersGiven self.old reply.now self.new result }
        ensures attempt { WhereShown (phase_ask self.old.known.phase) reply.now (λ shown. TakesByAttempt self.old shown result) }
        ensures few { HoldsFew self.new }
    {
        cds_exchange::laws::readings_are_one();
        self.facts();
        match self.read_next(alloc, reply) {
            Ok(read) => self.take_read(alloc, read),
            Err(_) => Err(AnswerError::Mem),
        }
    }

    /// Takes what was read of the bytes of a reply, or refuses them if that is nothing.
    fn take_read(&mut self, alloc: Global, read: Option<Shown>) -> Result<Read, AnswerError>
        requires { IsSome (phase_ask self.old.known.phase) }
        ensures { TakesRead self.old read self.new result }
    {
        match read {
            Some(shown) => self.take(alloc, shown),
            None => Err(AnswerError::Unreadable),
        }
    }

    /// Returns what the bytes of a reply show to the next ask.
    fn read_next(&self, alloc: Global, reply: &[u8]) -> Result<Option<Shown>, Mem>
        ensures { IfOk result (λ read. IsNextReading (phase_ask self.now.known.phase) reply.now read) }
    {
        match self.next_ask() {
            Some(ask) => read_reply(alloc, &ask, reply),
            None => Ok(None),
        }
    }

    /// Takes the reply to the next ask. Condition: there is one. A refusal leaves the replica as it was. `Unreadable` comes if
    /// the reply is of another kind than the ask, or is not one row if an object's row was asked. `Torn` comes in three cases:
    /// - the row of the root is another's or no container's;
    /// - the number stayed, and the page before it was refused or does not go on with the container's children;
    /// - an object's own row is another's, or of another kind.
    ///
    /// At the end of a load `Jump` and `Torn` also come as in `notify`, of the changes that notes told meanwhile.
    pub fn take(&mut self, alloc: Global, shown: Shown) -> Result<Read, AnswerError>
        requires { IsSome (phase_ask self.old.known.phase) }
        ensures unchanged { OnErr result (self.new ≡ self.old) }
        ensures stands { UnlessMem result (TakesTurn self.old (Shows shown) self.new) }
        ensures answer { (wrap : ℕ) (turns : List ReplicaTurn) → StandsFor self.old wrap turns → IsAnswer (with_reply (known_by turns) (known_by turns).held shown) result }
        ensures read { IfOk result (λ read. read ≡ read_of shown) }
        ensures given { TakesGiven self.old shown self.new result }
        ensures attempt { TakesByAttempt self.old shown result }
        ensures few { HoldsFew self.new }
    {
        let answer = self.known.take(alloc, shown);
        self.facts();
        answer
    }

    /// Returns what is known of the server's catalog, in this order: a place is missing, and its SEQ is told; no copy stands; an object is unread; an
    /// object was read as it was after a change that no note has told yet; or the copy stands at the position.
    pub fn says(&self) -> Says
        ensures kept { result ≡ kept_says self.now }
        ensures says { (wrap : ℕ) (turns : List ReplicaTurn) → StandsFor self.now wrap turns → result ≡ says_on_wire wrap turns }
        ensures given { SaysGiven self.now result }
        ensures complete { CompletesGiven self.now result }
        ensures attempt { SaysByAttempt self.now result }
    {
        match self.inbox.missing() {
            Some(missing) => Says::Gap { missing },
            None => self.known.says(),
        }
    }

    /// Returns the row at a place among those of the copy of which it is known what they say, counted from 0, in ascending order
    /// of ids. It is `None` past the end, and if no copy stands. It takes a walk over the rows.
    pub fn rows(&self, at: usize) -> Option<&Row>
        ensures kept { option_copied result ≡ slice_get (phase_rows self.now.known.phase) at }
        ensures row { (wrap : ℕ) (turns : List ReplicaTurn) → StandsFor self.now wrap turns → option_copied result ≡ slice_get (copied (known_by turns)) at }
        ensures shown { (wrap : ℕ) (turns : List ReplicaTurn) → StandsFor self.now wrap turns → IfSome result (λ row. WasShown row.now turns) }
        ensures replied { IfSome result (λ row. WasReplied self.now row.now) }
    {
        self.known.row(at)
    }

    /// Returns the rows of the copy, in ascending order of ids, with those of which it is not known yet what they say. There are
    /// none if no copy stands. To go over them takes one walk.
    pub fn copy(&self) -> &[CopyRow]
        ensures kept { map (λ kept. kept.row) result.now ≡ phase_all self.now.known.phase }
        ensures rows { (wrap : ℕ) (turns : List ReplicaTurn) → StandsFor self.now wrap turns →
            filter_map shown_row (map (λ kept. kept.row) result.now) ≡ copied (known_by turns) }
        ensures attempt { CopiesByAttempt self.now (map (λ kept. kept.row) result.now) }
    {
        self.known.rows()
    }

    /// Returns the place after the notes that were taken: how many notes of the subscription that was accepted last were. It is 0 if
    /// none was accepted.
    pub fn next_place(&self) -> u64
        ensures kept { result ≡ self.now.inbox.next }
        ensures place { (wrap : ℕ) (turns : List ReplicaTurn) → StandsFor self.now wrap turns → result ≡ next_place turns }
    {
        self.inbox.next_place()
    }

    /// Returns the name of the subscription that was accepted last.
    pub fn accepted(&self) -> Option<Sid>
        ensures kept { option_map (λ sid. sid.0) result ≡ self.now.inbox.accepted }
        ensures name { (wrap : ℕ) (turns : List ReplicaTurn) → StandsFor self.now wrap turns → option_map (λ sid. sid.0) result ≡ accepted turns }
    {
        self.inbox.accepted()
    }
}

/// Returns the answer to a note whose changes cannot be counted.
fn refusal_of(refusal: CountError) -> NotifyError
    ensures { result ≡ refusal_of refusal }
{
    match refusal {
        CountError::Jump { expected, first } => NotifyError::Jump { expected, first },
        CountError::Torn { id } => NotifyError::Torn { id },
        CountError::Mem => NotifyError::Mem,
    }
}
