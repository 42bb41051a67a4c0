//! `Serving`: what threads need of a server that they share.

ghost use Rattle.std.specs.Prelude.{◌≡◌, IfErr, IsErrOf, IsOk, OnOk};
ghost use Rattle.cds_server.specs.Taking.{untaken};

use crate::Server;
use crate::asking::Asking;
use crate::made::Answered;
use crate::media::Media;
use crate::notes::{FirstNote, Notes};
use cds_base::Mem;
use cds_http::Message;
use cds_scan::Scan;
use cds_store::{ApplyError, Span};
use std::alloc::Global;
use thiserror::Error;
use uuid::Uuid;

/// Why a server did not take a scan. If memory ran out, it is always `Mem`.
#[derive(Debug, Drop, Error)]
pub enum TakeError {
    /// The store refused what the scan found.
    #[error("the scan was refused: {0}")]
    Apply(ApplyError),
    /// The catalog could not be kept, now or at an earlier scan. The server is closed: it takes no more scans.
    #[error("the catalog could not be kept")]
    Keeper,
    #[error("out of memory")]
    Mem,
}

/// A server that threads share. Its catalog may be kept outside. If that fails, the server is closed: it takes no more scans, and
/// goes on with all else.
pub trait Serving: Drop {
    ghost use Rattle.std.specs.Prelude.{◌≡◌, ◌≢◌, ◌<◌, ◌^◌, ◌∷◌, ◌++◌, List, length, false, is_some, None, IfErr, IfOk, IfSome, OnErr, OnOk};
    ghost use Rattle.cds_commands.specs.Commands.{Command, Start, Stops, Ticks, is_stopped};
    ghost use Rattle.cds_commands.specs.Names.{names_of};
    ghost use Rattle.cds_server.specs.Asking.{ChangesNone, Fits, command_in, note_in, reply_in, said};
    ghost use Rattle.cds_server.specs.Due.{AllGoOut, due};
    ghost use Rattle.cds_server.specs.Media.{media_by};
    ghost use Rattle.cds_server.specs.Outcome.{GoesOut, and_command};
    ghost use Rattle.cds_server.specs.Published.{device_name};
    ghost use Rattle.cds_server.specs.Replies.{Replied, command_at, note_at};
    ghost use Rattle.cds_server.specs.Route.{asks_events};
    ghost use Rattle.cds_server.specs.Taking.{ClosesBy, ServerTold, Takes};
    ghost use Rattle.cds_server.specs.declared.serving.TakeError.TheVariants.{Keeper};

    // It stands for these commands, which it accepted since this start. The newest stands first.
    ghost stands: { Self → Start → List Command → Type 0 };

    // What it tells of the faults of what keeps its catalog.
    ghost told: { Self → ServerTold };

    /// Appends the reply to a message that came at a moment in milliseconds, as `Server::handle` says.
    fn handle(
        &mut self,
        alloc: Global,
        now: u64,
        message: &Message,
        out: &mut Vec<u8>,
    ) -> Result<Option<FirstNote>, Mem>
        ensures replied { (start : Start) (commands : List Command) → stands self.old start commands
            → OnOk result (Replied start commands now message.now out.old.items out.new.items) }
        ensures stands { (start : Start) (commands : List Command) → stands self.old start commands
            → OnOk result (stands self.new start (and_command (command_at start commands now message.now) commands)) }
        ensures note { (start : Start) (commands : List Command) → stands self.old start commands
            → IfOk result (λ note. note ≡ note_at start commands now message.now) }
        ensures unaccepted { (start : Start) (commands : List Command) → stands self.old start commands
            → command_at start commands now message.now ≡ None → self.new ≡ self.old }
        ensures same { asks_events message.now.start ≡ false → self.new ≡ self.old }
        ensures none { asks_events message.now.start ≡ false → IfOk result (λ note. note ≡ None) }
        ensures delivered { IfOk result GoesOut }
        ensures kept { OnErr result (out.new.items ≡ out.old.items) }
        ensures stays { OnErr result (self.new ≡ self.old) }
        ensures told_stays { told self.new ≡ told self.old };

    /// Answers what was asked at a moment in milliseconds, as `Server::answer` says.
    fn answer(&mut self, alloc: Global, now: u64, asking: &Asking) -> Result<Answered, Mem>
        ensures replied { (start : Start) (commands : List Command) → stands self.old start commands
            → IfOk result (λ answered. said asking.now answered.made ≡ reply_in start commands now asking.now) }
        ensures stands { (start : Start) (commands : List Command) → stands self.old start commands
            → OnOk result (stands self.new start (and_command (command_in start commands now asking.now) commands)) }
        ensures note { (start : Start) (commands : List Command) → stands self.old start commands
            → IfOk result (λ answered. answered.note ≡ note_in start commands now asking.now) }
        ensures accepted { (start : Start) (commands : List Command) → stands self.old start commands
            → IfOk result (λ answered. answered.accepted ≡ is_some (command_in start commands now asking.now)) }
        ensures same { ChangesNone asking.now → self.new ≡ self.old }
        ensures fits { IfOk result (λ answered. Fits asking.now answered.made) }
        ensures delivered { IfOk result (λ answered. GoesOut answered.note) }
        ensures stays { OnErr result (self.new ≡ self.old) }
        ensures told_stays { told self.new ≡ told self.old };

    /// Takes what a scan of a folder found as the whole library, at a moment in milliseconds, as `Server::accept_scan` does.
    /// `Keeper` comes exactly if the server is closed afterwards, and it closes only if its count of faults rises in the call. Any
    /// other refusal leaves the server as it was.
    fn take_scan(&mut self, alloc: Global, now: u64, scan: &Scan) -> Result<(), TakeError>
        requires { length scan.now.records < 2 ^ 32 }
        ensures takes { (start : Start) (commands : List Command) → stands self.old start commands
            → Takes stands start commands scan.now.records result self.new }
        ensures closes { ClosesBy result (told self.old) (told self.new) }
        ensures kept { IfErr result (λ refusal. refusal ≢ Keeper → self.new ≡ self.old) };

    /// Returns the file of the track with an id. `None` comes exactly if the id names no track.
    fn media(&self, alloc: Global, id: u32) -> Result<Option<Media>, Mem>
        ensures { (start : Start) (commands : List Command) → stands self.now start commands
            → IfOk result (λ media. media ≡ media_by start commands id) };

    /// Returns the UUID of the device that the server is. This takes no memory.
    fn device_name(&self) -> Uuid
        ensures { (start : Start) (commands : List Command) → stands self.now start commands
            → result ≡ device_name (names_of start) };

    /// Ticks at a moment in milliseconds, as `Server::tick` says.
    fn tick(&mut self, alloc: Global, now: u64) -> Result<Option<Notes>, Mem>
        ensures stands { (start : Start) (commands : List Command) → stands self.old start commands
            → OnOk result (stands self.new start (Ticks now ∷ commands)) }
        ensures notes { (start : Start) (commands : List Command) → stands self.old start commands
            → IfOk result (λ notes. notes ≡ due start commands now) }
        ensures delivered { IfOk result (λ notes. IfSome notes AllGoOut) }
        ensures short { IfOk result (λ notes. IfSome notes (λ notes. length notes.body < 66000000)) }
        ensures kept { OnErr result (self.new ≡ self.old) }
        ensures told_stays { told self.new ≡ told self.old };

    /// Tells the server to stop. It keeps what it has, and goes on to do whatever it is called for. This takes no memory.
    fn stop(&mut self)
        ensures stands { (start : Start) (commands : List Command) → stands self.old start commands
            → stands self.new start (Stops ∷ commands) }
        ensures told_stays { told self.new ≡ told self.old };

    /// Returns whether the server was told to stop.
    fn stopped(&self) -> bool
        ensures { (start : Start) (commands : List Command) → stands self.now start commands
            → result ≡ is_stopped commands };
}

impl Serving for Server {
    ghost use Rattle.cds_server.specs.Serving.{StandsFor};
    ghost use Rattle.cds_server.specs.Taking.{unfailing};

    ghost stands = { StandsFor };

    ghost told = { λ _. unfailing };

    fn handle(
        &mut self,
        alloc: Global,
        now: u64,
        message: &Message,
        out: &mut Vec<u8>,
    ) -> Result<Option<FirstNote>, Mem> {
        Server::handle(self, alloc, now, message, out)
    }

    fn answer(&mut self, alloc: Global, now: u64, asking: &Asking) -> Result<Answered, Mem> {
        Server::answer(self, alloc, now, asking)
    }

    fn take_scan(&mut self, alloc: Global, now: u64, scan: &Scan) -> Result<(), TakeError> {
        taken(self.accept_scan(alloc, now, scan))
    }

    fn media(&self, alloc: Global, id: u32) -> Result<Option<Media>, Mem> {
        Server::media(self, alloc, id)
    }

    fn device_name(&self) -> Uuid {
        Server::device_name(self)
    }

    fn tick(&mut self, alloc: Global, now: u64) -> Result<Option<Notes>, Mem> {
        Server::tick(self, alloc, now)
    }

    fn stop(&mut self) {
        Server::stop(self);
    }

    fn stopped(&self) -> bool {
        Server::stopped(self)
    }
}

/// Returns what comes of a scan, by the answer of the server that keeps nothing outside.
fn taken(answer: Result<Span, ApplyError>) -> Result<(), TakeError>
    ensures ok { OnOk answer (IsOk result) }
    ensures refused { IfErr answer (λ refusal. IsErrOf result (untaken refusal)) }
{
    match answer {
        Ok(_) => Ok(()),
        Err(refusal) => Err(untaken(refusal)),
    }
}

/// Returns a refusal of the store as one of a server.
fn untaken(refusal: ApplyError) -> TakeError
    ensures { result ≡ untaken refusal }
{
    match refusal {
        ApplyError::Mem => TakeError::Mem,
        other => TakeError::Apply(other),
    }
}
