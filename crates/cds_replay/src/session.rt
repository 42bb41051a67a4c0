//! A script's server and replica, which take its turns one by one.

ghost use Rattle.std.specs.Prelude.{◌≡◌, ℕ, ◌+◌, ◌<◌, ◌≤◌, ◌++◌, map, ◌^◌, ◌&&◌, [], ◌∷◌, List, true, nat_lt, nat_le, length, codes, IfOk, OnOk, IsSome, IsTrue, string_bytes};
ghost use Rattle.cds_script.specs.declared.turn.ScriptTurn.TheVariants.{Scan, Load, Read, Ask, Subscribe, Accept, Renew, Unsubscribe, ReadFault, First, Wrap, At, Deliver};
ghost use Rattle.cds_script.specs.Script.{IsInRange, moment_limit};
ghost use Rattle.cds_script.specs.declared.reply.HeldReply.{HeldReply};
ghost use Rattle.cds_commands.specs.Commands.{Command, Start as ServerStart};
ghost use Rattle.cds_server.specs.Serving.{StandsFor as ServerStandsFor};
ghost use Rattle.cds_http.specs.declared.message.Side.TheVariants.{Request};
ghost use Rattle.cds_replay.specs.Events.{HasSomeStatus, IsAsked, IsMessage, RepliesTo};
ghost use Rattle.cds_follow.specs.Named.{named, named_note};
ghost use Rattle.cds_commands.specs.Notes.{Note as Told, notes_of};
ghost use Rattle.cds_commands.specs.Wire.{on_wire};
ghost use Rattle.cds_script.specs.declared.found.Found.TheVariants.{Folder as FolderFound, Track as TrackFound};
ghost use Rattle.cds_script.specs.Report.{commented, first_of, is_recent_one, last_commented, record_of, scanned, sent_note};
ghost use Rattle.cds_follow.specs.Inbox.{ReplicaTurn};
ghost use Rattle.cds_replica.specs.State.{StandsFor};
ghost use Rattle.cds_replica.specs.Steps.{phase_ask};
ghost use Rattle.cds_replay.specs.Wired.{ReplayStep, may_stand_by, played_by, turns_in, written_on};
ghost use Rattle.cds_replay.specs.declared.last.Last.TheVariants.{NoTurn};
ghost use Rattle.cds_replay.specs.Session.{script_names, IsHeldAs, IsAfter, IsStanding, IsBounded, TurnTaken, QuietTaken, ReplyTaken, HeldTaken, NameTaken, NoteTaken, of_memory, quiet, first_in, Grows, is_beginning, is_near_in, last_found, with_found, with_server, with_tag};

use crate::control::carried_reply;
use crate::events::{
    answered, lease_of, note_of, renew_request, status_of, subscribe_request, unsubscribe_request,
};
use crate::last::Last;
use crate::recent::{distance, far_from, near_of};
use crate::report::{
    can_be_told, put_delivered, put_known, put_notes, put_read, put_scan, put_status, was_answered,
    was_noticed,
};
use crate::sent::Sent;
use crate::wire::Wire;
use cds_base::{Bytes, Mem, put};
use cds_object::{Comment, FlacInfo, Path, Records};
use cds_replica::{AnswerError, Note, NotifyError, Replica, Sid};
use cds_script::{Found, FoundFile, FoundList, ScriptTurn};
use cds_server::Server;
use std::alloc::Global;
use std::convert::From;
use std::marker::Model;
use std::mem::replace;
use thiserror::Error;

/// The boot words of a script's server, which make its reset token.
const BOOT: [u64; 2] = [0, 0];

/// Why a turn was not taken. After it the session takes no more turns.
#[derive(Clone, Copy, Debug, PartialEq, Eq, Error)]
pub enum TurnError {
    /// The replica refused what it was given. This was a reply that a wire changed, or a note that does not go with what such
    /// replies showed before.
    #[error("the replica refused what it was given")]
    Refused,
    #[error("out of memory")]
    Mem,
}

impl From<Mem> for TurnError {
    ghost use Rattle.std.specs.Prelude.{◌≡◌};
    ghost use Rattle.cds_replay.specs.declared.session.TurnError.{TurnError};

    ghost from_gives = { λ _ r. r ≡ TurnError.Mem };

    fn from(_: Mem) -> Self {
        TurnError::Mem
    }
}

/// A script's server and replica after the turns so far, what was found since its last scan, and the reply that is held back. It
/// keeps no list of turns, but stands for one.
#[derive(Drop)]
pub struct Session {
    server: Server,
    replica: Replica,
    /// The notes that the server sent.
    sent: Sent,
    found: FoundList,
    /// The current moment, in milliseconds.
    clock: u64,
    /// The bytes of the reply to a subscribe request that has not reached the replica.
    reply: Option<Bytes>,
    /// What the last turn was.
    last: Last,
    /// The SEQ after which comes SEQ 1.
    wrap: u32,
}

impl Model for Session {
    ghost use Rattle.cds_replay.specs.Session.{Playing};

    ghost Value = { Playing };

    ghost view = { λ s. record { server = s.server; replica = s.replica; sent = s.sent; found = s.found; clock = s.clock; reply = s.reply; last = s.last; wrap = s.wrap } };
}

impl Session {
    /// Returns a session before any turn: a server that begins at 0 with the root alone, and a replica without a copy.
    pub fn new(alloc: Global) -> Result<Session, Mem>
        ensures { IfOk result (λ session. IsAfter session []) }
    {
        let server = Server::new(alloc, BOOT, 0)?;
        Ok(Session {
            server,
            replica: Replica::new(alloc),
            sent: Sent::new(alloc),
            found: FoundList::new(alloc),
            clock: 0,
            reply: None,
            last: Last::NoTurn,
            wrap: u32::MAX,
        })
    }

    /// Returns whether a turn may stand after those so far:
    /// - the first number comes before all else;
    /// - the wrap is at least 256, and comes before all but the first number;
    /// - a comment comes after a track or another comment;
    /// - moments never fall;
    /// - a note that is delivered was sent, and is recent.
    pub fn may_stand(&self, turn: &ScriptTurn) -> bool
        ensures { (steps : List ReplayStep) → IsAfter self.now steps → result ≡ may_stand_by steps turn.now }
    {
        match turn {
            ScriptTurn::First { .. } => matches!(self.last, Last::NoTurn),
            ScriptTurn::At { moment } => self.clock <= *moment,
            ScriptTurn::Deliver { note } => self.may_deliver(*note),
            ScriptTurn::Wrap { number } => self.may_begin_with(*number),
            ScriptTurn::Tag { .. } => matches!(self.last, Last::OfTrack),
            _ => true,
        }
    }

    /// Returns whether the note of this number may be delivered: it was sent, and is recent.
    fn may_deliver(&self, number: u32) -> bool
        ensures { (steps : List ReplayStep) → IsAfter self.now steps → result ≡ may_stand_by steps (Deliver number) }
    {
        if self.has_sent(number) {
            self.is_recent(number)
        } else {
            false
        }
    }

    /// Returns whether SEQ 1 may come after another SEQ from now on: it is at least 256, and no turn came but the first number.
    fn may_begin_with(&self, wrap: u32) -> bool
        ensures { (steps : List ReplayStep) → IsAfter self.now steps → result ≡ may_stand_by steps (Wrap wrap) }
    {
        if 256 <= wrap {
            self.is_beginning()
        } else {
            false
        }
    }

    /// Returns whether no turn came but the server's first number.
    fn is_beginning(&self) -> bool
        ensures { result ≡ is_beginning self.now.last }
    {
        matches!(self.last, Last::NoTurn | Last::OfFirst { .. })
    }

    /// Returns whether the note of a number, if it is heard, is fewer places away than the wrap without its reach. Condition: it
    /// was sent.
    fn is_recent(&self, number: u32) -> bool
        requires some { 0 < number }
        requires sent { number ≤ length self.now.sent }
        ensures { (steps : List ReplayStep) → IsAfter self.now steps → result ≡ is_recent_one (played_by steps).wrap
            (sent_note number (notes_of (first_of (turns_in steps)) (played_by steps).commands)) (played_by steps).replica }
    {
        match self.sent.name(number as usize - 1) {
            None => true,
            Some(sid) => self.is_near(sid, number),
        }
    }

    /// Returns whether the note of a number, which was sent to a name, is fewer places away than the wrap without its reach, if the
    /// replica hears the name. While both places are below that, the place of the note need not be counted.
    fn is_near(&self, sid: Sid, number: u32) -> bool
        requires some { 0 < number }
        requires sent { number ≤ length self.now.sent }
        ensures { result ≡ is_near_in self.now sid.0 number }
    {
        let far = far_from(self.wrap);
        match near_of(&self.replica, sid) {
            None => true,
            Some(near) => {
                if near < far && u64::from(number) <= far {
                    true
                } else {
                    distance(self.sent.before(number, sid), near) < far
                }
            }
        }
    }

    /// Returns whether a note of this number was sent.
    fn has_sent(&self, number: u32) -> bool
        ensures { result ≡ (nat_lt 0 number && nat_le number (length self.now.sent)) }
    {
        0 < number && number as usize <= self.sent.len()
    }

    /// Takes a turn that may stand, and puts what it writes at the end.
    pub fn answer<W: Wire>(
        &mut self,
        alloc: Global,
        wire: &W,
        turn: ScriptTurn,
        out: &mut String,
    ) -> Result<(), TurnError>
        requires standing { IsStanding self.old }
        requires stands { (steps : List ReplayStep) → IsAfter self.old steps → may_stand_by steps turn ≡ true }
        requires fits { IsInRange turn }
        requires bounded { IsBounded self.old }
        ensures taken { (steps : List ReplayStep) → IsAfter self.old steps →
            TurnTaken (W.carried wire.now) steps turn (string_bytes out.old) (string_bytes out.new) self.new result }
        ensures grows { OnOk result (Grows self.old self.new) }
    {
        match turn {
            ScriptTurn::Folder { path } => of_memory(self.add_folder(path)),
            ScriptTurn::Track { path, info, size } => of_memory(self.add_track(path, info, size)),
            ScriptTurn::Tag { comment } => of_memory(self.add_tag(comment)),
            ScriptTurn::Scan => of_memory(self.scan(alloc, out)),
            ScriptTurn::Load => of_memory(self.load()),
            ScriptTurn::Read => self.read(alloc, wire, out),
            ScriptTurn::Ask => of_memory(self.ask(out)),
            ScriptTurn::First { number } => of_memory(self.begin_at(alloc, number)),
            ScriptTurn::Wrap { number } => of_memory(self.begin_with(alloc, number)),
            ScriptTurn::At { moment } => of_memory(self.tick(alloc, moment, out)),
            ScriptTurn::Subscribe => of_memory(self.subscribe(alloc, out)),
            ScriptTurn::Accept => self.accept(alloc, out),
            ScriptTurn::Renew => of_memory(self.renew(alloc, out)),
            ScriptTurn::Unsubscribe => of_memory(self.unsubscribe(alloc, out)),
            ScriptTurn::Deliver { note } => self.deliver(alloc, note, out),
            ScriptTurn::ReadFault => of_memory(self.lose_read(out)),
        }
    }

    /// Adds one thing to those found since the last scan.
    fn add(&mut self, one: Found) -> Result<(), Mem>
        ensures { OnOk result (self.new ≡ with_found self.old one) }
    {
        self.last = last_found(&one);
        self.found.push(one)?;
        Ok(())
    }

    /// Adds a folder.
    fn add_folder(&mut self, path: Path) -> Result<(), Mem>
        ensures { OnOk result (self.new ≡ with_found self.old (FolderFound path)) }
    {
        self.add(Found::Folder { path })
    }

    /// Adds a track: what its file says, and its size in bytes.
    fn add_track(&mut self, path: Path, info: FlacInfo, size: u64) -> Result<(), Mem>
        requires { info.samples < 2 ^ 36 }
        ensures { OnOk result (self.new ≡ with_found self.old (TrackFound (record { path = path; info = info; size = size }))) }
    {
        self.add(Found::Track {
            file: FoundFile::new(path, info, size),
        })
    }

    /// Puts a comment to the last thing that was found, if it is a track.
    fn add_tag(&mut self, comment: Comment) -> Result<(), Mem>
        ensures { OnOk result (self.new ≡ with_tag self.old comment) }
    {
        self.found.tag(comment)?;
        self.last = Last::OfTrack;
        Ok(())
    }

    /// Does a scan. What was found since the last scan is all that the library has now, and is dropped.
    fn scan(&mut self, alloc: Global, out: &mut String) -> Result<(), Mem>
        requires { length self.old.found < 2 ^ 32 }
        ensures after { (steps : List ReplayStep) → IsAfter self.old steps → OnOk result (IsAfter self.new (quiet Scan ∷ steps)) }
        ensures written { (steps : List ReplayStep) → IsAfter self.old steps →
            OnOk result (string_bytes out.new ≡ string_bytes out.old ++ written_on steps (quiet Scan)) }
    {
        let records = self.found.records(alloc)?;
        let answer = self.server.accept_records(alloc, self.clock, &records);
        if !was_answered(&answer) {
            return Err(Mem);
        }
        drop(replace(&mut self.found, FoundList::new(alloc)));
        self.last = Last::Other;
        put_scan(out, answer)
    }

    /// Begins a load.
    fn load(&mut self) -> Result<(), Mem>
        ensures after { (steps : List ReplayStep) → IsAfter self.old steps → OnOk result (IsAfter self.new (quiet Load ∷ steps)) }
    {
        self.replica.begin_load()?;
        self.last = Last::Other;
        Ok(())
    }

    /// Sends the next ask of the replica, if there is one, to the server as a control request. Then the replica takes what the
    /// wire leaves of the reply.
    fn read<W: Wire>(&mut self, alloc: Global, wire: &W, out: &mut String) -> Result<(), TurnError>
        ensures taken { (steps : List ReplayStep) → IsAfter self.old steps →
            TurnTaken (W.carried wire.now) steps Read (string_bytes out.old) (string_bytes out.new) self.new result }
    {
        self.last = Last::Other;
        match self.replica.next_ask() {
            None => {
                put(out, "read none\n")?;
                Ok(())
            }
            Some(ask) => {
                let reply = carried_reply(alloc, &mut self.server, wire, self.clock, ask)?;
                take_reply(&mut self.replica, alloc, reply.as_slice(), out)
            }
        }
    }

    /// Puts what the replica knows, and the rows of its copy if it stands.
    fn ask(&mut self, out: &mut String) -> Result<(), Mem>
        ensures after { (steps : List ReplayStep) → IsAfter self.old steps → OnOk result (IsAfter self.new (quiet Ask ∷ steps)) }
        ensures written { (steps : List ReplayStep) → IsAfter self.old steps →
            OnOk result (string_bytes out.new ≡ string_bytes out.old ++ written_on steps (quiet Ask)) }
    {
        self.last = Last::Other;
        put_known(out, self.replica.says(), self.replica.copy())
    }

    /// Begins again with a server whose first number is another. No turn came before.
    fn begin_at(&mut self, alloc: Global, number: u32) -> Result<(), Mem>
        requires { self.old.last ≡ NoTurn }
        ensures after { (steps : List ReplayStep) → IsAfter self.old steps → OnOk result (IsAfter self.new (quiet (First number) ∷ steps)) }
    {
        let server = Server::new(alloc, BOOT, number)?;
        drop(replace(&mut self.server, server));
        self.last = Last::OfFirst { number };
        Ok(())
    }

    /// Begins again with a server and a replica for which SEQ 1 comes after another SEQ. No turn came before but the server's first
    /// number.
    fn begin_with(&mut self, alloc: Global, wrap: u32) -> Result<(), Mem>
        requires standing { IsStanding self.old }
        requires stands { (steps : List ReplayStep) → IsAfter self.old steps → may_stand_by steps (Wrap wrap) ≡ true }
        ensures after { (steps : List ReplayStep) → IsAfter self.old steps → OnOk result (IsAfter self.new (quiet (Wrap wrap) ∷ steps)) }
    {
        let server = Server::with_wrap(alloc, BOOT, first_in(self.last), wrap)?;
        drop(replace(&mut self.server, server));
        drop(replace(&mut self.replica, Replica::with_wrap(alloc, wrap)));
        self.wrap = wrap;
        self.last = Last::Other;
        Ok(())
    }

    /// Sets the moment to another one, and the server releases what is due.
    fn tick(&mut self, alloc: Global, moment: u64, out: &mut String) -> Result<(), Mem>
        requires rises { self.old.clock ≤ moment }
        requires within { moment < moment_limit }
        requires granted { self.old.server.book.subscribed.granted < 2 ^ 32 }
        ensures after { (steps : List ReplayStep) → IsAfter self.old steps → OnOk result (IsAfter self.new (quiet (At moment) ∷ steps)) }
        ensures written { (steps : List ReplayStep) → IsAfter self.old steps →
            OnOk result (string_bytes out.new ≡ string_bytes out.old ++ written_on steps (quiet (At moment))) }
    {
        let sent = self.sent.len();
        let notes = self.server.tick(alloc, moment)?;
        self.sent.send_due(alloc, notes)?;
        self.clock = moment;
        self.last = Last::Other;
        put_notes(out, &self.sent, sent)
    }

    /// Sends a subscribe request of the replica. The server answers it, and the reply is held back.
    fn subscribe(&mut self, alloc: Global, out: &mut String) -> Result<(), Mem>
        requires standing { IsStanding self.old }
        requires granted { self.old.server.book.subscribed.granted + 1 < 2 ^ 32 }
        ensures after { (steps : List ReplayStep) → IsAfter self.old steps → OnOk result (IsAfter self.new (quiet Subscribe ∷ steps)) }
        ensures written { (steps : List ReplayStep) → IsAfter self.old steps →
            OnOk result (string_bytes out.new ≡ string_bytes out.old ++ written_on steps (quiet Subscribe)) }
    {
        let sent = self.sent.len();
        self.replica.subscribing()?;
        let request = subscribe_request(alloc)?;
        let mut reply = Vec::new(alloc);
        let note = answered(
            alloc,
            &mut self.server,
            self.clock,
            request.as_slice(),
            &mut reply,
        )?;
        let number = self.server.system_update_id();
        self.sent.send_granted(alloc, note, number)?;
        let held = Bytes::from(reply);
        drop(replace(&mut self.reply, Some(held)));
        self.last = Last::Other;
        put_notes(out, &self.sent, sent)
    }

    /// Gives the replica the reply that was held back. The replica takes it. Or it refuses the name, if the notes that came early
    /// for it tell what cannot be.
    fn accept(&mut self, alloc: Global, out: &mut String) -> Result<(), TurnError>
        requires { IsStanding self.old }
        ensures taken { (steps : List ReplayStep) → IsAfter self.old steps →
            QuietTaken steps Accept (string_bytes out.old) (string_bytes out.new) self.new result }
    {
        self.last = Last::Other;
        match replace(&mut self.reply, None) {
            None => {
                put(out, "accept none\n")?;
                Ok(())
            }
            Some(reply) => take_lease(&mut self.replica, alloc, reply.as_slice(), out),
        }
    }

    /// Renews the subscription that the replica accepted last.
    fn renew(&mut self, alloc: Global, out: &mut String) -> Result<(), Mem>
        requires standing { IsStanding self.old }
        requires granted { self.old.server.book.subscribed.granted < 2 ^ 32 }
        ensures after { (steps : List ReplayStep) → IsAfter self.old steps → OnOk result (IsAfter self.new (quiet Renew ∷ steps)) }
        ensures written { (steps : List ReplayStep) → IsAfter self.old steps →
            OnOk result (string_bytes out.new ≡ string_bytes out.old ++ written_on steps (quiet Renew)) }
    {
        self.last = Last::Other;
        match self.replica.accepted() {
            None => put(out, "renew none\n"),
            Some(sid) => {
                let request = renew_request(alloc, sid)?;
                let status = self.asked(alloc, request.as_slice())?;
                put_status(out, "renew ", status)
            }
        }
    }

    /// Gives up the subscription that the replica accepted last.
    fn unsubscribe(&mut self, alloc: Global, out: &mut String) -> Result<(), Mem>
        requires standing { IsStanding self.old }
        requires granted { self.old.server.book.subscribed.granted < 2 ^ 32 }
        ensures after { (steps : List ReplayStep) → IsAfter self.old steps → OnOk result (IsAfter self.new (quiet Unsubscribe ∷ steps)) }
        ensures written { (steps : List ReplayStep) → IsAfter self.old steps →
            OnOk result (string_bytes out.new ≡ string_bytes out.old ++ written_on steps (quiet Unsubscribe)) }
    {
        self.last = Last::Other;
        match self.replica.accepted() {
            None => put(out, "unsubscribe none\n"),
            Some(sid) => {
                let request = unsubscribe_request(alloc, sid)?;
                let status = self.asked(alloc, request.as_slice())?;
                put_status(out, "unsubscribe ", status)
            }
        }
    }

    /// Returns the status of the server's reply to a request about a subscription that stands. Condition: the bytes are one
    /// request, to which the server replies.
    fn asked(&mut self, alloc: Global, request: &[u8]) -> Result<u16, Mem>
        requires whole { IsMessage Request request.now }
        requires replies { RepliesTo self.old.server self.old.clock request.now }
        ensures answered { (start : ServerStart) (commands : List Command) → ServerStandsFor self.old.server start commands →
            IfOk result (λ status. IsAsked start commands self.old.clock request.now status self.new.server) }
        ensures kept { self.new ≡ with_server self.old self.new.server }
    {
        let mut reply = Vec::new(alloc);
        let _note = answered(alloc, &mut self.server, self.clock, request, &mut reply)?;
        status_of(alloc, reply.as_slice())
    }

    /// Gives the replica the note of a number. The replica takes it or answers why not. It refuses a note that is the next one
    /// and tells what cannot be.
    fn deliver(&mut self, alloc: Global, number: u32, out: &mut String) -> Result<(), TurnError>
        requires { IsStanding self.old }
        ensures taken { (steps : List ReplayStep) → IsAfter self.old steps → may_stand_by steps (Deliver number) ≡ true →
            QuietTaken steps (Deliver number) (string_bytes out.old) (string_bytes out.new) self.new result }
    {
        self.last = Last::Other;
        match self.sent.request(alloc, number)? {
            None => Ok(()),
            Some(request) => {
                let note = note_of(alloc, &request)?;
                take_note(&mut self.replica, alloc, number, note, out)
            }
        }
    }

    /// Loses the reply to one read.
    fn lose_read(&mut self, out: &mut String) -> Result<(), Mem>
        ensures after { (steps : List ReplayStep) → IsAfter self.old steps → OnOk result (IsAfter self.new (quiet ReadFault ∷ steps)) }
        ensures written { OnOk result (string_bytes out.new ≡ string_bytes out.old ++ codes "readfault\n") }
    {
        self.last = Last::Other;
        put(out, "readfault\n")
    }
}

/// Returns the answer of a call that fails only if memory runs out, as the answer to a turn.
fn of_memory(answer: Result<(), Mem>) -> Result<(), TurnError>
    ensures { result ≡ of_memory answer }
{
    match answer {
        Ok(()) => Ok(()),
        Err(Mem) => Err(TurnError::Mem),
    }
}

/// Has the replica take the bytes of the reply to its next ask. Condition: there is one. It refuses bytes that show nothing, and
/// what it cannot take.
fn take_reply(
    replica: &mut Replica,
    alloc: Global,
    reply: &[u8],
    out: &mut String,
) -> Result<(), TurnError>
    requires { IsSome (phase_ask replica.old.known.phase) }
    ensures { (wrap : ℕ) (turns : List ReplicaTurn) → StandsFor replica.old wrap (named script_names turns) →
        ReplyTaken wrap turns reply.now (string_bytes out.old) (string_bytes out.new) replica.new result }
{
    match replica.answer(alloc, reply) {
        Ok(read) => {
            put_read(out, read)?;
            Ok(())
        }
        Err(AnswerError::Mem) => Err(TurnError::Mem),
        Err(AnswerError::Unreadable) => Err(TurnError::Refused),
        Err(AnswerError::Jump { .. }) => Err(TurnError::Refused),
        Err(AnswerError::Torn { .. }) => Err(TurnError::Refused),
    }
}

/// Has the replica take the reply to its subscribe request. Conditions: the request is out, and the bytes are a reply. A reply
/// that grants nothing is a refusal.
fn take_lease(
    replica: &mut Replica,
    alloc: Global,
    reply: &[u8],
    out: &mut String,
) -> Result<(), TurnError>
    requires out { IsTrue replica.old.inbox.out }
    requires reply { HasSomeStatus reply.now }
    ensures { (wrap : ℕ) (turns : List ReplicaTurn) (held : HeldReply) → StandsFor replica.old wrap (named script_names turns) → IsHeldAs (Some reply.now) held →
        HeldTaken wrap turns held (string_bytes out.old) (string_bytes out.new) replica.new result }
{
    match lease_of(alloc, reply)? {
        Some(lease) => take_name(replica, alloc, lease.sid, out),
        None => {
            replica.not_subscribed();
            put_status(out, "accept ", status_of(alloc, reply)?)?;
            Ok(())
        }
    }
}

/// Has the replica take the name under which its subscribe request was granted. Condition: the request is out. `Unknown` and
/// `Full` are no answers to a name.
fn take_name(
    replica: &mut Replica,
    alloc: Global,
    sid: Sid,
    out: &mut String,
) -> Result<(), TurnError>
    requires { IsTrue replica.old.inbox.out }
    ensures { (wrap : ℕ) (turns : List ReplicaTurn) (name : ℕ) → StandsFor replica.old wrap (named script_names turns) → sid.0 ≡ script_names name →
        NameTaken wrap turns name (string_bytes out.old) (string_bytes out.new) replica.new result }
{
    match replica.subscribed(alloc, sid) {
        Ok(()) => {
            put(out, "accept 200\n")?;
            Ok(())
        }
        Err(NotifyError::Mem) => Err(TurnError::Mem),
        Err(NotifyError::Unknown) => Err(TurnError::Refused),
        Err(NotifyError::Full { .. }) => Err(TurnError::Refused),
        Err(NotifyError::Jump { .. }) => Err(TurnError::Refused),
        Err(NotifyError::Torn { .. }) => Err(TurnError::Refused),
    }
}

/// Has the replica take the note of a number, or answers why not.
fn take_note(
    replica: &mut Replica,
    alloc: Global,
    number: u32,
    note: Note,
    out: &mut String,
) -> Result<(), TurnError>
    ensures { (wrap : ℕ) (turns : List ReplicaTurn) (told : Told) → StandsFor replica.old wrap (named script_names turns) →
        note ≡ on_wire wrap (named_note script_names told) → NoteTaken wrap turns number told (string_bytes out.old) (string_bytes out.new) replica.new result }
{
    let answer = replica.notify(alloc, note);
    if !was_noticed(&answer) {
        return Err(TurnError::Mem);
    }
    if !can_be_told(&answer) {
        return Err(TurnError::Refused);
    }
    put_delivered(out, u64::from(number), answer)?;
    Ok(())
}

/// Returns the first number of the server, if the last turn named one, and 0 otherwise.
fn first_in(last: Last) -> u32
    ensures { result ≡ first_in last }
{
    match last {
        Last::OfFirst { number } => number,
        Last::NoTurn => 0,
        Last::OfTrack => 0,
        Last::Other => 0,
    }
}

/// Returns what the turn was that found something.
fn last_found(one: &Found) -> Last
    ensures { result ≡ last_found one.now }
{
    match one {
        Found::Folder { .. } => Last::Other,
        Found::Track { .. } => Last::OfTrack,
    }
}
