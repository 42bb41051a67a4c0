//! The server: what it keeps, and its calls.

ghost use Rattle.std.specs.Prelude.{◌≡◌, ◌<◌, ◌≤◌, ◌^◌, ◌∷◌, ◌++◌, List, [], length, false, true, slice_index, is_some, Some, None, IfOk, IfErr, IfSome, OnOk, OnErr};
ghost use Rattle.cds_catalog.specs.History.{end_of};
ghost use Rattle.cds_catalog.specs.Scans.{bad_record};
ghost use Rattle.cds_commands.specs.Commands.{Command, Start, Stops, Ticks, is_stopped, scans_of};
ghost use Rattle.cds_control.specs.Making.{made_to};
ghost use Rattle.cds_gena.specs.Subscribed.{least_wrap};
ghost use Rattle.cds_moderator.specs.Moderating.{next_span};
ghost use Rattle.cds_server.specs.Asking.{ChangesNone, Fits, asked_command, asked_note, asked_reply, command_in, note_in, reply_in, said};
ghost use Rattle.cds_server.specs.Due.{AllGoOut, due};
ghost use Rattle.cds_server.specs.Outcome.{GoesOut, and_command};
ghost use Rattle.cds_server.specs.Replies.{Replied, command_at, note_at};
ghost use Rattle.cds_server.specs.Route.{asks_events};
ghost use Rattle.cds_server.specs.Serving.{StandsFor, Scanned, IsOfWhole, IsServing, published_of};

use crate::asking::{Asking, EventRequest};
use crate::events::{When, settle};
use crate::made::{Answered, Made, Settled};
use crate::notes::{FirstNote, Notes};
use crate::reading::read_asked;
use crate::replying::write_made;
use crate::ticking::{note_body, tell};
use cds_base::{Bytes, Mem};
use cds_control::made_to;
use cds_gena::{Addresses, Book};
use cds_http::Message;
use cds_moderator::Moderator;
use cds_object::Records;
use cds_scan::Scan;
use cds_soap::Action;
use cds_store::{ApplyError, Keeping, Span, Store, View};
use std::alloc::Global;
use std::marker::Model;
use uuid::Uuid;

/// A server that has accepted some commands: scans, subscriptions, their renewals and ends, and ticks. It keeps no list of them,
/// but always stands for one.
#[derive(Drop)]
pub struct Server {
    pub(crate) store: Store,
    /// The subscriptions, and the name of number 0. The reset token is the text of that name.
    pub(crate) book: Book,
    /// The changes that are not released yet.
    moderator: Moderator,
    /// Whether the server was told to stop.
    stopped: bool,
}

impl Model for Server {
    ghost use Rattle.cds_server.specs.Serving.{Serving, IsServing};

    ghost Value = { Serving };

    ghost view = { λ s. record { store = s.store; book = s.book; moderated = s.moderator.moderated; stopped = s.stopped } };

    ghost invariant = { λ s. IsServing (record { store = s.store; book = s.book; moderated = s.moderator.moderated; stopped = s.stopped }) };
}

impl Server {
    /// Makes a server before any command: its library is empty. It begins with two boot words, of which its names are made, and
    /// with its first number. After SEQ 4294967295 comes SEQ 1, as UPnP Device Architecture 2.0 has it.
    pub fn new(alloc: Global, boot: [u64; 2], first: u32) -> Result<Server, Mem>
        ensures { IfOk result (λ server. StandsFor server (record { high = slice_index boot 0; low = slice_index boot 1; first = first; wrap = 4294967295 }) []) }
    {
        Server::with_wrap(alloc, boot, first, u32::MAX)
    }

    /// Makes such a server for which SEQ 1 comes after another SEQ, which is at least 256. It is for tests.
    pub fn with_wrap(alloc: Global, boot: [u64; 2], first: u32, wrap: u32) -> Result<Server, Mem>
        requires { least_wrap ≤ wrap }
        ensures { IfOk result (λ server. StandsFor server (record { high = slice_index boot 0; low = slice_index boot 1; first = first; wrap = wrap }) []) }
    {
        let book = Book::with_wrap(alloc, boot, wrap);
        let store = Store::new(alloc, first)?;
        Ok(Server {
            store,
            book,
            moderator: Moderator::new(alloc),
            stopped: false,
        })
    }

    /// Appends the reply to a message that came at a moment in milliseconds. The status is decided in this order:
    ///
    /// - 404 if the target is neither `/control` nor `/event`.
    /// - 405 if the method is not POST for `/control`, or neither SUBSCRIBE nor UNSUBSCRIBE for `/event`.
    /// - A control request gets 400 if it has no HOST of 1 to 255 ASCII letters, digits, `.`, `-`, `:`, `[` and `]`. Then its
    ///   body decides.
    /// - A request about a subscription gets 400 if SID stands beside CALLBACK or NT.
    /// - It gets 412 if a field is missing or not in its form, or if no subscription of the name lives.
    /// - It gets 503 if no subscription can be granted.
    ///
    /// Any other request about a subscription is accepted. If it grants one, the answer is its first note. All other messages
    /// leave the server as it was. If memory runs out, nothing is appended, and the server is as it was.
    pub fn handle(
        &mut self,
        alloc: Global,
        now: u64,
        message: &Message,
        out: &mut Vec<u8>,
    ) -> Result<Option<FirstNote>, Mem>
        ensures replied { (start : Start) (commands : List Command) → StandsFor self.old start commands
            → OnOk result (Replied start commands now message.now out.old.items out.new.items) }
        ensures stands { (start : Start) (commands : List Command) → StandsFor self.old start commands
            → OnOk result (StandsFor self.new start (and_command (command_at start commands now message.now) commands)) }
        ensures note { (start : Start) (commands : List Command) → StandsFor self.old start commands
            → IfOk result (λ note. note ≡ note_at start commands now message.now) }
        ensures unaccepted { (start : Start) (commands : List Command) → StandsFor self.old start commands
            → command_at start commands now message.now ≡ None → self.new ≡ self.old }
        ensures same { asks_events message.now.start ≡ false → self.new ≡ self.old }
        ensures none { asks_events message.now.start ≡ false → IfOk result (λ note. note ≡ None) }
        ensures delivered { IfOk result GoesOut }
        ensures kept { OnErr result (out.new.items ≡ out.old.items) }
        ensures stays { OnErr result (self.new ≡ self.old) }
    {
        // Only the proof needs this line.
        self.serves();
        let asking = read_asked(alloc, message)?;
        match asking {
            Asking::Subscription(request) => {
                let settled = self.settle(alloc, now, &request, out)?;
                Ok(settled.note)
            }
            other => {
                self.append_reply(alloc, now, other, out)?;
                Ok(None)
            }
        }
    }

    /// Makes known that a server stands for some commands. Only proofs need this.
    fn serves(&self)
        ensures { IsServing self.now }
    {
        let _ = &self.stopped;
    }

    /// Appends the reply to what is asked, if it changes no server.
    fn append_reply(
        &mut self,
        alloc: Global,
        now: u64,
        asking: Asking,
        out: &mut Vec<u8>,
    ) -> Result<(), Mem>
        requires { ChangesNone asking }
        ensures replied { (start : Start) (commands : List Command) → StandsFor self.old start commands
            → OnOk result (out.new.items ≡ out.old.items ++ reply_in start commands now asking) }
        ensures kept { OnErr result (out.new.items ≡ out.old.items) }
        ensures stays { self.new ≡ self.old }
    {
        let answered = self.answer(alloc, now, &asking)?;
        let text = write_made(alloc, asking, answered.made)?;
        out.extend_from_slice(text.as_slice())?;
        Ok(())
    }

    /// Answers what was asked at a moment in milliseconds. A request about a subscription is accepted or refused as `handle` says,
    /// and its whole reply is made here. The rows of a page are only copied. `write_made` writes the rest. If memory runs out, the
    /// server is as it was.
    pub fn answer(&mut self, alloc: Global, now: u64, asking: &Asking) -> Result<Answered, Mem>
        ensures replied { (start : Start) (commands : List Command) → StandsFor self.old start commands
            → IfOk result (λ answered. said asking.now answered.made ≡ reply_in start commands now asking.now) }
        ensures stands { (start : Start) (commands : List Command) → StandsFor self.old start commands
            → OnOk result (StandsFor self.new start (and_command (command_in start commands now asking.now) commands)) }
        ensures note { (start : Start) (commands : List Command) → StandsFor self.old start commands
            → IfOk result (λ answered. answered.note ≡ note_in start commands now asking.now) }
        ensures accepted { (start : Start) (commands : List Command) → StandsFor self.old start commands
            → IfOk result (λ answered. answered.accepted ≡ is_some (command_in start commands now asking.now)) }
        ensures same { ChangesNone asking.now → self.new ≡ self.old }
        ensures fits { IfOk result (λ answered. Fits asking.now answered.made) }
        ensures delivered { IfOk result (λ answered. GoesOut answered.note) }
        ensures stays { OnErr result (self.new ≡ self.old) }
    {
        match asking {
            Asking::Ready(_) => Ok(unaccepted(Made::Ready)),
            Asking::Action { asked, .. } => {
                let made = self.act(alloc, &asked.action)?;
                Ok(unaccepted(Made::Action(made)))
            }
            Asking::Subscription(request) => {
                let mut text = Vec::new(alloc);
                let settled = self.settle(alloc, now, request, &mut text)?;
                Ok(Answered {
                    made: Made::Text(Bytes::from(text)),
                    note: settled.note,
                    accepted: settled.accepted,
                })
            }
        }
    }

    /// Makes what an action asks for.
    fn act(&self, alloc: Global, action: &Action) -> Result<cds_control::Made, Mem>
        ensures { IfOk result (λ made. made ≡ made_to (published_of self.now) action.now) }
    {
        let mut buffer = Uuid::encode_buffer();
        let id = Uuid::from_u128(self.book.names());
        let token = id.hyphenated().encode_lower(&mut buffer);
        made_to(alloc, &self.store, token, action)
    }

    /// Does what a request about a subscription asks for at a moment, and appends the reply.
    fn settle(
        &mut self,
        alloc: Global,
        now: u64,
        request: &EventRequest,
        out: &mut Vec<u8>,
    ) -> Result<Settled, Mem>
        ensures replied { (start : Start) (commands : List Command) → StandsFor self.old start commands
            → OnOk result (out.new.items ≡ out.old.items ++ asked_reply start commands now request.now.gena) }
        ensures stands { (start : Start) (commands : List Command) → StandsFor self.old start commands
            → OnOk result (StandsFor self.new start (and_command (asked_command start commands now request.now.gena) commands)) }
        ensures note { (start : Start) (commands : List Command) → StandsFor self.old start commands
            → IfOk result (λ settled. settled.note ≡ asked_note start commands now request.now.gena) }
        ensures accepted { (start : Start) (commands : List Command) → StandsFor self.old start commands
            → IfOk result (λ settled. settled.accepted ≡ is_some (asked_command start commands now request.now.gena)) }
        ensures unaccepted { (start : Start) (commands : List Command) → StandsFor self.old start commands
            → asked_command start commands now request.now.gena ≡ None → self.new ≡ self.old }
        ensures delivered { IfOk result (λ settled. GoesOut settled.note) }
        ensures kept { OnErr result (out.new.items ≡ out.old.items) }
        ensures stays { OnErr result (self.new ≡ self.old) }
    {
        let when = When {
            moment: now,
            number: self.store.system_update_id(),
        };
        settle(alloc, &mut self.book, when, request, out)
    }

    /// Takes what a scan found as the whole library, at a moment in milliseconds, and returns the numbers of its changes. The
    /// refusals are the store's: `BadRecords` comes only if a record cannot stand. If the scan is refused or memory runs out, the
    /// server is as it was.
    pub fn accept_records(
        &mut self,
        alloc: Global,
        now: u64,
        records: &Records,
    ) -> Result<Span, ApplyError>
        requires { length records.now < 2 ^ 32 }
        ensures scanned { (start : Start) (commands : List Command) → StandsFor self.old start commands
            → Scanned start commands records.now result self.old self.new }
        ensures whole { bad_record records.now ≡ None → IfErr result IsOfWhole }
        ensures kept { OnErr result (self.new ≡ self.old) }
    {
        let _ = now;
        self.moderator.reserve()?;
        let span = self.store.apply(alloc, records)?;
        tell(&mut self.moderator, span);
        Ok(span)
    }

    /// Takes what a scan of a folder found as the whole library, at a moment in milliseconds, and returns the numbers of its
    /// changes. The refusals are the store's. In a scan that `cds_scan` gave every record can stand, so `BadRecords` does not
    /// come of it. If the scan is refused or memory runs out, the server is as it was.
    pub fn accept_scan(&mut self, alloc: Global, now: u64, scan: &Scan) -> Result<Span, ApplyError>
        requires { length scan.now.records < 2 ^ 32 }
        ensures scanned { (start : Start) (commands : List Command) → StandsFor self.old start commands
            → Scanned start commands scan.now.records result self.old self.new }
        ensures whole { bad_record scan.now.records ≡ None → IfErr result IsOfWhole }
        ensures kept { OnErr result (self.new ≡ self.old) }
    {
        self.accept_records(alloc, now, &scan.records)
    }

    /// Ticks at a moment in milliseconds. The subscriptions that have run out end. If a release is due, the answer is its notes:
    /// one to each of the others, in the order in which they were granted. A subscription whose note has the last SEQ ends, and
    /// the released changes are forgotten. `None` comes exactly if no release is due. The body of the notes has fewer than
    /// 66,000,000 bytes. If memory runs out, the server is as it was.
    pub fn tick(&mut self, alloc: Global, now: u64) -> Result<Option<Notes>, Mem>
        ensures stands { (start : Start) (commands : List Command) → StandsFor self.old start commands
            → OnOk result (StandsFor self.new start (Ticks now ∷ commands)) }
        ensures notes { (start : Start) (commands : List Command) → StandsFor self.old start commands
            → IfOk result (λ notes. notes ≡ due start commands now) }
        ensures delivered { IfOk result (λ notes. IfSome notes AllGoOut) }
        ensures short { IfOk result (λ notes. IfSome notes (λ notes. length notes.body < 66000000)) }
        ensures kept { OnErr result (self.new ≡ self.old) }
    {
        match self.moderator.next_span(now) {
            None => {
                self.book.expire(now);
                Ok(None)
            }
            Some(span) => {
                let notes = self.release(alloc, now, span)?;
                Ok(Some(notes))
            }
        }
    }

    /// Returns the notes of a release that is due.
    fn release(&mut self, alloc: Global, now: u64, span: Span) -> Result<Notes, Mem>
        requires due { next_span now self.old.moderated ≡ Some span }
        ensures stands { (start : Start) (commands : List Command) → StandsFor self.old start commands
            → OnOk result (StandsFor self.new start (Ticks now ∷ commands)) }
        ensures notes { (start : Start) (commands : List Command) → StandsFor self.old start commands
            → IfOk result (λ notes. Some notes ≡ due start commands now) }
        ensures delivered { IfOk result AllGoOut }
        ensures short { IfOk result (λ notes. length notes.body < 66000000) }
        ensures kept { OnErr result (self.new ≡ self.old) }
    {
        let body = note_body(alloc, &self.store, span)?;
        let mut to = Addresses::new(alloc);
        self.book.next_notes(alloc, now, &mut to)?;
        let _ = self.moderator.release(now);
        self.store.forget(span.to);
        Ok(Notes { span, body, to })
    }

    /// Returns the number of the last change, or the first number (UPnP ContentDirectory:4 on SystemUpdateID).
    pub fn system_update_id(&self) -> u32
        ensures kept { result ≡ self.now.store.standing.number }
        ensures counted { (start : Start) (commands : List Command) → StandsFor self.now start commands
            → result ≡ end_of (scans_of start.first commands) }
    {
        self.store.system_update_id()
    }

    /// Tells the server to stop. It keeps what it has, and goes on to do whatever it is called for. This takes no memory.
    pub fn stop(&mut self)
        ensures stands { (start : Start) (commands : List Command) → StandsFor self.old start commands
            → StandsFor self.new start (Stops ∷ commands) }
        ensures same { self.new ≡ record self.old { stopped = true } }
    {
        self.stopped = true;
    }

    /// Returns whether the server was told to stop.
    pub fn stopped(&self) -> bool
        ensures kept { result ≡ self.now.stopped }
        ensures counted { (start : Start) (commands : List Command) → StandsFor self.now start commands
            → result ≡ is_stopped commands }
    {
        self.stopped
    }
}

/// Returns what was made, if no command was accepted.
fn unaccepted(made: Made) -> Answered
    ensures { result ≡ record { made = made; note = None; accepted = false } }
{
    Answered {
        made,
        note: None,
        accepted: false,
    }
}
