//! A server that threads share in turns.

ghost use Rattle.std.specs.Prelude.{◌≡◌, ◌<◌, ◌^◌, List, [], ◌∷◌, ◌++◌, is_some, length, slice_index, IfOk, IfSome, OnErr, OnOk};
ghost use Rattle.cds_commands.specs.Commands.{Command, Start, Stops, Ticks, is_stopped};
ghost use Rattle.cds_server.specs.Asking.{command_in};
ghost use Rattle.cds_commands.specs.Names.{names_of};
ghost use Rattle.cds_server.specs.Due.{AllGoOut, due};
ghost use Rattle.cds_server.specs.Published.{device_name};
ghost use Rattle.cds_server.specs.Serving.{StandsFor};
ghost use Rattle.cds_serve.specs.Acts.{IsAnswerGiven, IsFileNamed, IsScanAnswer, scan_adds};
ghost use Rattle.cds_serve.specs.Served.{CanBeClosed, Stands, added};

use cds_base::Mem;
use cds_scan::Scan;
use cds_server::{Answered, Asking, Media, Notes, Server, Serving, TakeError};
use cds_turn::StandsFor;
use std::alloc::Global;
use std::marker::Model;
use std::snapshot::Snapshot;
use uuid::Uuid;

/// What a server is opened with; no command changes it. It has two boot words, of which the server's names are made, and the
/// first number.
#[derive(Drop)]
pub struct ServerStart {
    pub boot: [u64; 2],
    pub first: u32,
}

impl Model for ServerStart {
    ghost use Rattle.std.specs.Prelude.{slice_index};
    ghost use Rattle.cds_commands.specs.Commands.{Start};

    ghost Value = { Start };

    ghost view = { λ o. record { high = slice_index o.boot 0; low = slice_index o.boot 1; first = o.first; wrap = 4294967295 } };
}

/// One command that a server accepted. No value of it is made: only contracts speak of commands.
pub struct ServerCommand {}

impl Model for ServerCommand {
    ghost use Rattle.cds_commands.specs.Commands.{Command, Stops};

    ghost Value = { Command };

    ghost view = { λ _. Stops };
}

/// A server that threads share in turns. Contracts see the server and what it was opened with.
#[derive(Drop)]
pub struct Served<V> {
    server: V,
    /// It takes no memory.
    opening: Snapshot<ServerStart>,
}

impl<V> Model for Served<V> {
    ghost use Rattle.cds_serve.specs.Served.{Opened};

    ghost Value = { Opened V };

    ghost view = { λ s. record { server = s.server; start = s.opening.value } };
}

impl<V: Serving> StandsFor for Served<V> {
    ghost use Rattle.cds_serve.specs.Served.{Stands};

    type Command = ServerCommand;

    type Start = ServerStart;

    ghost start = { λ served. served.start };

    ghost stands = { Stands V.stands };
}

impl Served<Server> {
    /// Makes a server before any command, opened with two boot words and its first number.
    pub fn new(alloc: Global, boot: [u64; 2], first: u32) -> Result<Served<Server>, Mem>
        ensures start { IfOk result (λ served. served.start ≡ record { high = slice_index boot 0; low = slice_index boot 1; first = first; wrap = 4294967295 }) }
        ensures stands { IfOk result (λ served. Stands StandsFor served served.start []) }
    {
        let opening = ServerStart { boot, first };
        let server = Server::new(alloc, boot, first)?;
        Ok(Served {
            server,
            opening: Snapshot::of(&opening),
        })
    }
}

impl<V: Serving> Served<V> {
    /// Makes it of a server before any command that was opened so.
    pub fn of(server: V, opening: &ServerStart) -> Served<V>
        requires { V.stands server opening.now [] }
        ensures start { result.start ≡ opening.now }
        ensures stands { Stands V.stands result result.start [] }
    {
        Served {
            server,
            opening: Snapshot::of(opening),
        }
    }

    /// Returns the server.
    pub fn server(&self) -> &V
        ensures { result.now ≡ self.now.server }
    {
        &self.server
    }

    /// Has the server answer what was asked, as `Server::answer` says.
    pub(crate) fn answer(
        &mut self,
        alloc: Global,
        now: u64,
        asking: &Asking,
    ) -> Result<Answered, Mem>
        ensures given { (start : Start) (found : List Command) → Stands V.stands self.old start found → IsAnswerGiven start found now asking.now result }
        ensures stands { (start : Start) (found : List Command) → Stands V.stands self.old start found
            → OnOk result (Stands V.stands self.new start (added (command_in start found now asking.now) ++ found)) }
        ensures accepted { (start : Start) (found : List Command) → Stands V.stands self.old start found
            → IfOk result (λ answered. answered.accepted ≡ is_some (command_in start found now asking.now)) }
        ensures stays { OnErr result (self.new ≡ self.old) }
    {
        self.server.answer(alloc, now, asking)
    }

    /// Has the server take what a scan found, as `Serving::take_scan` says.
    pub(crate) fn take_scan(
        &mut self,
        alloc: Global,
        now: u64,
        scan: &Scan,
    ) -> Result<(), TakeError>
        requires { length scan.now.records < 2 ^ 32 }
        ensures answer { (start : Start) (found : List Command) → Stands V.stands self.old start found
            → IsScanAnswer (CanBeClosed V.told V.stands start) start found scan.now.records result }
        ensures stands { (start : Start) (found : List Command) → Stands V.stands self.old start found
            → Stands V.stands self.new start (scan_adds scan.now.records result ++ found) }
    {
        self.server.take_scan(alloc, now, scan)
    }

    /// Returns the file of the track with an id, as `Server::media` says.
    pub(crate) fn media(&self, alloc: Global, id: u32) -> Result<Option<Media>, Mem>
        ensures { (start : Start) (found : List Command) → Stands V.stands self.now start found → IsFileNamed start found id result }
    {
        self.server.media(alloc, id)
    }

    /// Has the server tick, as `Server::tick` says.
    pub(crate) fn tick(&mut self, alloc: Global, now: u64) -> Result<Option<Notes>, Mem>
        ensures stands { (start : Start) (found : List Command) → Stands V.stands self.old start found
            → OnOk result (Stands V.stands self.new start (Ticks now ∷ found)) }
        ensures notes { (start : Start) (found : List Command) → Stands V.stands self.old start found
            → IfOk result (λ notes. notes ≡ due start found now) }
        ensures delivered { IfOk result (λ notes. IfSome notes AllGoOut) }
        ensures stays { OnErr result (self.new ≡ self.old) }
    {
        self.server.tick(alloc, now)
    }

    /// Tells the server to stop.
    pub(crate) fn stop(&mut self)
        ensures { (start : Start) (found : List Command) → Stands V.stands self.old start found → Stands V.stands self.new start (Stops ∷ found) }
    {
        self.server.stop();
    }

    /// Returns the UUID of the device that the server is.
    pub fn device_name(&self) -> Uuid
        ensures { (start : Start) (found : List Command) → Stands V.stands self.now start found → result ≡ device_name (names_of start) }
    {
        self.server.device_name()
    }

    /// Returns whether the server was told to stop.
    pub fn stopped(&self) -> bool
        ensures { (start : Start) (found : List Command) → Stands V.stands self.now start found → result ≡ is_stopped found }
    {
        self.server.stopped()
    }
}
