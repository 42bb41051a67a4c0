//! The outside in memory as a whole: what gives the objects and takes them back.

ghost use Rattle.std.specs.Prelude.{◌≡◌, ◌==◌, ◌≤◌, ◌||◌, if◌then◌else◌, not, [], ◌∷◌, ◌++◌, length, Some, IfOk, OnErr};
ghost use Rattle.cds_outside.specs.Asked.{ForClock, ForDatagrams, ForDoor, ForFolder, ForLink, ForSpawner, OutsideRose, gave_nothing};
ghost use Rattle.cds_memory.specs.Clocks.{clock_told, fresh_clock};
ghost use Rattle.cds_memory.specs.Datagrams.{datagrams_told, fresh_datagrams};
ghost use Rattle.cds_memory.specs.Doors.{door_told, fresh_door, fresh_spawner, spawner_told};
ghost use Rattle.cds_outside.specs.Datagrams.{IsUnheard};
ghost use Rattle.cds_outside.specs.Entries.{IsUnasked};
ghost use Rattle.cds_outside.specs.Outside.{Told, raised};
ghost use Rattle.cds_outside.specs.Told.{IsFresh, IsUnsent, unasked_door, unasked_spawner};
ghost use Rattle.cds_memory.specs.Exterior.{IsFirstOf, asked_of, folder_afresh};
ghost use Rattle.cds_memory.specs.Folders.{told_of};
ghost use Rattle.cds_memory.specs.Links.{fresh_link, link_told_of};
ghost use Rattle.cds_memory.specs.Memory.{next_fails};

use crate::asking::{Ask, traced};
use crate::streams::is_listed;
use crate::{MemClock, MemDatagrams, MemDoor, MemFolder, MemLink, MemSpawner};
use cds_base::{Bytes, Numbers, Sequence};
use cds_outside::{Datagrams, Outside, OutsideFault, Trace};
use std::alloc::Global;
use std::marker::{Model, Send};
use std::sync::Wait;

/// The objects that the outside in memory gives, each kind in its order.
#[derive(Drop)]
pub struct MemObjects<R> {
    pub folders: Sequence<MemFolder>,
    pub links: Sequence<MemLink>,
    pub clocks: Sequence<MemClock>,
    pub doors: Sequence<MemDoor<R>>,
    pub spawners: Sequence<MemSpawner>,
    pub datagrams: Sequence<MemDatagrams>,
}

impl<R> MemObjects<R> {
    /// Makes no objects, which take no memory.
    pub fn new(alloc: Global) -> Self
        ensures folders { result.folders ≡ [] }
        ensures links { result.links ≡ [] }
        ensures clocks { result.clocks ≡ [] }
        ensures doors { result.doors ≡ [] }
        ensures spawners { result.spawners ≡ [] }
        ensures datagrams { result.datagrams ≡ [] }
    {
        MemObjects {
            folders: Sequence::new(alloc),
            links: Sequence::new(alloc),
            clocks: Sequence::new(alloc),
            doors: Sequence::new(alloc),
            spawners: Sequence::new(alloc),
            datagrams: Sequence::new(alloc),
        }
    }
}

/// Gives the objects in memory that it was made with, whatever the paths and ports. It fails at the calls that it was told, and
/// if no such object is left.
#[derive(Drop)]
pub struct MemOutside<R> {
    folders: Vec<MemFolder>,
    links: Vec<MemLink>,
    clocks: Vec<MemClock>,
    doors: Vec<MemDoor<R>>,
    spawners: Vec<MemSpawner>,
    datagrams: Vec<MemDatagrams>,
    asked: Trace<Ask>,
    ended: Trace<MemFolder>,
    ended_links: Trace<MemLink>,
    ended_datagrams: Trace<MemDatagrams>,
    /// The replies of the datagrams that came back last.
    replies: Option<Sequence<Bytes>>,
    connections: u64,
    started: u64,
    given: u64,
    calls: u64,
    faults: u64,
    fails: Numbers,
}

impl<R> Model for MemOutside<R> {
    ghost use Rattle.std.specs.Prelude.{map};
    ghost use Rattle.cds_memory.specs.Exterior.{OutsideState, asked_of};

    ghost Value = { OutsideState };

    ghost view = { λ s.
        record {
          folders = s.folders.items;
          links = s.links.items;
          clocks = s.clocks.items;
          doors = s.doors.items;
          spawners = s.spawners.items;
          datagrams = s.datagrams.items;
          asked = map asked_of s.asked;
          ended = s.ended;
          ended_links = s.ended_links;
          ended_datagrams = s.ended_datagrams;
          connections = s.connections;
          started = s.started;
          given = s.given;
          calls = s.calls;
          faults = s.faults;
          fails = s.fails;
        } };
}

impl<R> MemOutside<R> {
    /// Makes an outside that gives these objects. `fails` are the numbers of the calls that are to fail, counted from 1 over the
    /// calls that ask for an object.
    pub fn new(objects: MemObjects<R>, fails: Numbers) -> Self
        ensures { result ≡ record {
          folders = objects.folders;
          links = objects.links;
          clocks = objects.clocks;
          doors = objects.doors;
          spawners = objects.spawners;
          datagrams = objects.datagrams;
          asked = [];
          ended = [];
          ended_links = [];
          ended_datagrams = [];
          connections = 0;
          started = 0;
          given = 0;
          calls = 0;
          faults = 0;
          fails = fails;
        } }
    {
        let MemObjects {
            folders,
            links,
            clocks,
            doors,
            spawners,
            datagrams,
        } = objects;
        MemOutside {
            folders: folders.into_vec(),
            links: links.into_vec(),
            clocks: clocks.into_vec(),
            doors: doors.into_vec(),
            spawners: spawners.into_vec(),
            datagrams: datagrams.into_vec(),
            asked: Trace::new(),
            ended: Trace::new(),
            ended_links: Trace::new(),
            ended_datagrams: Trace::new(),
            replies: None,
            connections: 0,
            started: 0,
            given: 0,
            calls: 0,
            faults: 0,
            fails,
        }
    }

    /// Returns how many calls failed, and how many objects with faults came back.
    pub fn faults(&self) -> u64
        ensures { result ≡ self.now.faults }
    {
        self.faults
    }

    /// Returns how many connections the doors that came back gave.
    pub fn connections(&self) -> u64
        ensures { result ≡ self.now.connections }
    {
        self.connections
    }

    /// Returns how many jobs the spawners that came back started.
    pub fn started(&self) -> u64
        ensures { result ≡ self.now.started }
    {
        self.started
    }

    /// Returns how many datagrams those that came back gave.
    pub fn given(&self) -> u64
        ensures { result ≡ self.now.given }
    {
        self.given
    }

    /// Returns the replies of the datagrams that came back last, in their order.
    pub fn replies(&self) -> &[Bytes] {
        match &self.replies {
            Some(replies) => replies.as_slice(),
            None => &[],
        }
    }

    /// Counts a call that asks for an object, and returns whether the object is given. `has_one` says whether there is one.
    fn admits(&mut self, ask: Ask, has_one: bool) -> bool
        ensures answer { not result ≡ (not has_one || next_fails self.old.fails self.old.calls) }
        ensures asked { self.new.asked ≡ self.old.asked ++ asked_of ask ∷ [] }
        ensures calls { self.new.calls ≡ raised self.old.calls 1 }
        ensures faults { self.new.faults ≡ (if result then self.old.faults else raised self.old.faults 1) }
        ensures never_falls { self.old.faults ≤ self.new.faults }
        ensures folders { self.new.folders ≡ self.old.folders }
        ensures links { self.new.links ≡ self.old.links }
        ensures clocks { self.new.clocks ≡ self.old.clocks }
        ensures doors { self.new.doors ≡ self.old.doors }
        ensures spawners { self.new.spawners ≡ self.old.spawners }
        ensures datagrams { self.new.datagrams ≡ self.old.datagrams }
        ensures ended { self.new.ended ≡ self.old.ended }
        ensures ended_links { self.new.ended_links ≡ self.old.ended_links }
        ensures ended_datagrams { self.new.ended_datagrams ≡ self.old.ended_datagrams }
        ensures connections { self.new.connections ≡ self.old.connections }
        ensures started { self.new.started ≡ self.old.started }
        ensures given { self.new.given ≡ self.old.given }
        ensures fails { self.new.fails ≡ self.old.fails }
    {
        drop(self.asked.push(ask));
        self.calls = self.calls.saturating_add(1);
        let is_given = has_one && !is_listed(self.fails.as_slice(), self.calls);
        if !is_given {
            self.faults = self.faults.saturating_add(1);
        }
        is_given
    }
}

impl<R: Wait + Clone + Send + Drop + 'static> Outside for MemOutside<R> {
    ghost use Rattle.cds_memory.specs.Exterior.{outside_told};

    type F = MemFolder;

    type L = MemLink;

    type C = MemClock;

    type D = MemDoor<R>;

    type W = MemSpawner;

    type U = MemDatagrams;

    ghost told = { outside_told };

    fn folder(&mut self, _alloc: Global, path: &str) -> Result<MemFolder, OutsideFault>
        ensures failed { gave_nothing result ≡ ((length self.old.folders == 0) || next_fails self.old.fails self.old.calls) }
        ensures first { IfOk result (λ folder. IsFirstOf folder_afresh folder self.old.folders self.new.folders) }
        ensures left { OnErr result (self.new.folders ≡ self.old.folders) }
        ensures links_stay { self.new.links ≡ self.old.links }
        ensures clocks_stay { self.new.clocks ≡ self.old.clocks }
        ensures doors_stay { self.new.doors ≡ self.old.doors }
        ensures spawners_stay { self.new.spawners ≡ self.old.spawners }
        ensures datagrams_stay { self.new.datagrams ≡ self.old.datagrams }
        ensures calls { self.new.calls ≡ raised self.old.calls 1 }
        ensures same_fails { self.new.fails ≡ self.old.fails }
        ensures unasked { IfOk result (λ folder. IsUnasked (told_of folder)) }
        ensures asked { Told (Some self.old.asked) (λ list. Some self.new.asked ≡ Some (list ++ ForFolder path.now ∷ [])) }
        ensures ended_stay { self.new.ended ≡ self.old.ended }
        ensures ended_links_stay { self.new.ended_links ≡ self.old.ended_links }
        ensures ended_datagrams_stay { self.new.ended_datagrams ≡ self.old.ended_datagrams }
        ensures connections_stay { self.new.connections ≡ self.old.connections }
        ensures started_stay { self.new.started ≡ self.old.started }
        ensures given_stay { self.new.given ≡ self.old.given }
        ensures rose { OutsideRose result self.old.faults self.new.faults }
        ensures never_falls { self.old.faults ≤ self.new.faults }
    {
        let has_one = !self.folders.is_empty();
        if !self.admits(
            Ask::Folder {
                path: traced(path.as_bytes()),
            },
            has_one,
        ) {
            return Err(OutsideFault::Failed);
        }
        Ok(self.folders.remove(0).afresh())
    }

    fn link(&mut self, alloc: Global) -> Result<MemLink, OutsideFault>
        ensures failed { gave_nothing result ≡ ((length self.old.links == 0) || next_fails self.old.fails self.old.calls) }
        ensures first { IfOk result (λ link. IsFirstOf fresh_link link self.old.links self.new.links) }
        ensures left { OnErr result (self.new.links ≡ self.old.links) }
        ensures folders_stay { self.new.folders ≡ self.old.folders }
        ensures clocks_stay { self.new.clocks ≡ self.old.clocks }
        ensures doors_stay { self.new.doors ≡ self.old.doors }
        ensures spawners_stay { self.new.spawners ≡ self.old.spawners }
        ensures datagrams_stay { self.new.datagrams ≡ self.old.datagrams }
        ensures calls { self.new.calls ≡ raised self.old.calls 1 }
        ensures same_fails { self.new.fails ≡ self.old.fails }
        ensures unsent { IfOk result (λ link. IsUnsent (link_told_of link)) }
        ensures asked { Told (Some self.old.asked) (λ list. Some self.new.asked ≡ Some (list ++ ForLink ∷ [])) }
        ensures ended_stay { self.new.ended ≡ self.old.ended }
        ensures ended_links_stay { self.new.ended_links ≡ self.old.ended_links }
        ensures ended_datagrams_stay { self.new.ended_datagrams ≡ self.old.ended_datagrams }
        ensures connections_stay { self.new.connections ≡ self.old.connections }
        ensures started_stay { self.new.started ≡ self.old.started }
        ensures given_stay { self.new.given ≡ self.old.given }
        ensures rose { OutsideRose result self.old.faults self.new.faults }
        ensures never_falls { self.old.faults ≤ self.new.faults }
    {
        let has_one = !self.links.is_empty();
        if !self.admits(Ask::Link, has_one) {
            return Err(OutsideFault::Failed);
        }
        Ok(self.links.remove(0).afresh(alloc))
    }

    fn clock(&mut self, _alloc: Global) -> Result<MemClock, OutsideFault>
        ensures failed { gave_nothing result ≡ ((length self.old.clocks == 0) || next_fails self.old.fails self.old.calls) }
        ensures first { IfOk result (λ clock. IsFirstOf fresh_clock clock self.old.clocks self.new.clocks) }
        ensures left { OnErr result (self.new.clocks ≡ self.old.clocks) }
        ensures folders_stay { self.new.folders ≡ self.old.folders }
        ensures links_stay { self.new.links ≡ self.old.links }
        ensures doors_stay { self.new.doors ≡ self.old.doors }
        ensures spawners_stay { self.new.spawners ≡ self.old.spawners }
        ensures datagrams_stay { self.new.datagrams ≡ self.old.datagrams }
        ensures calls { self.new.calls ≡ raised self.old.calls 1 }
        ensures same_fails { self.new.fails ≡ self.old.fails }
        ensures fresh { IfOk result (λ clock. IsFresh (clock_told clock)) }
        ensures asked { Told (Some self.old.asked) (λ list. Some self.new.asked ≡ Some (list ++ ForClock ∷ [])) }
        ensures ended_stay { self.new.ended ≡ self.old.ended }
        ensures ended_links_stay { self.new.ended_links ≡ self.old.ended_links }
        ensures ended_datagrams_stay { self.new.ended_datagrams ≡ self.old.ended_datagrams }
        ensures connections_stay { self.new.connections ≡ self.old.connections }
        ensures started_stay { self.new.started ≡ self.old.started }
        ensures given_stay { self.new.given ≡ self.old.given }
        ensures rose { OutsideRose result self.old.faults self.new.faults }
        ensures never_falls { self.old.faults ≤ self.new.faults }
    {
        let has_one = !self.clocks.is_empty();
        if !self.admits(Ask::Clock, has_one) {
            return Err(OutsideFault::Failed);
        }
        Ok(self.clocks.remove(0).afresh())
    }

    fn door(&mut self, _alloc: Global, port: u16) -> Result<MemDoor<R>, OutsideFault>
        ensures failed { gave_nothing result ≡ ((length self.old.doors == 0) || next_fails self.old.fails self.old.calls) }
        ensures first { IfOk result (λ door. IsFirstOf (λ _. fresh_door) door self.old.doors self.new.doors) }
        ensures left { OnErr result (self.new.doors ≡ self.old.doors) }
        ensures folders_stay { self.new.folders ≡ self.old.folders }
        ensures links_stay { self.new.links ≡ self.old.links }
        ensures clocks_stay { self.new.clocks ≡ self.old.clocks }
        ensures spawners_stay { self.new.spawners ≡ self.old.spawners }
        ensures datagrams_stay { self.new.datagrams ≡ self.old.datagrams }
        ensures calls { self.new.calls ≡ raised self.old.calls 1 }
        ensures same_fails { self.new.fails ≡ self.old.fails }
        ensures unasked { IfOk result (λ door. door_told door ≡ unasked_door) }
        ensures asked { Told (Some self.old.asked) (λ list. Some self.new.asked ≡ Some (list ++ ForDoor port ∷ [])) }
        ensures ended_stay { self.new.ended ≡ self.old.ended }
        ensures ended_links_stay { self.new.ended_links ≡ self.old.ended_links }
        ensures ended_datagrams_stay { self.new.ended_datagrams ≡ self.old.ended_datagrams }
        ensures connections_stay { self.new.connections ≡ self.old.connections }
        ensures started_stay { self.new.started ≡ self.old.started }
        ensures given_stay { self.new.given ≡ self.old.given }
        ensures rose { OutsideRose result self.old.faults self.new.faults }
        ensures never_falls { self.old.faults ≤ self.new.faults }
    {
        let has_one = !self.doors.is_empty();
        if !self.admits(Ask::Door { port }, has_one) {
            return Err(OutsideFault::Failed);
        }
        Ok(self.doors.remove(0).afresh())
    }

    fn spawner(&mut self, _alloc: Global) -> Result<MemSpawner, OutsideFault>
        ensures failed { gave_nothing result ≡ ((length self.old.spawners == 0) || next_fails self.old.fails self.old.calls) }
        ensures first { IfOk result (λ spawner. IsFirstOf fresh_spawner spawner self.old.spawners self.new.spawners) }
        ensures left { OnErr result (self.new.spawners ≡ self.old.spawners) }
        ensures folders_stay { self.new.folders ≡ self.old.folders }
        ensures links_stay { self.new.links ≡ self.old.links }
        ensures clocks_stay { self.new.clocks ≡ self.old.clocks }
        ensures doors_stay { self.new.doors ≡ self.old.doors }
        ensures datagrams_stay { self.new.datagrams ≡ self.old.datagrams }
        ensures calls { self.new.calls ≡ raised self.old.calls 1 }
        ensures same_fails { self.new.fails ≡ self.old.fails }
        ensures unasked { IfOk result (λ spawner. spawner_told spawner ≡ unasked_spawner) }
        ensures asked { Told (Some self.old.asked) (λ list. Some self.new.asked ≡ Some (list ++ ForSpawner ∷ [])) }
        ensures ended_stay { self.new.ended ≡ self.old.ended }
        ensures ended_links_stay { self.new.ended_links ≡ self.old.ended_links }
        ensures ended_datagrams_stay { self.new.ended_datagrams ≡ self.old.ended_datagrams }
        ensures connections_stay { self.new.connections ≡ self.old.connections }
        ensures started_stay { self.new.started ≡ self.old.started }
        ensures given_stay { self.new.given ≡ self.old.given }
        ensures rose { OutsideRose result self.old.faults self.new.faults }
        ensures never_falls { self.old.faults ≤ self.new.faults }
    {
        let has_one = !self.spawners.is_empty();
        if !self.admits(Ask::Spawner, has_one) {
            return Err(OutsideFault::Failed);
        }
        Ok(self.spawners.remove(0).afresh())
    }

    fn datagrams(&mut self, _alloc: Global, port: u16) -> Result<MemDatagrams, OutsideFault>
        ensures failed { gave_nothing result ≡ ((length self.old.datagrams == 0) || next_fails self.old.fails self.old.calls) }
        ensures first { IfOk result (λ datagrams. IsFirstOf fresh_datagrams datagrams self.old.datagrams self.new.datagrams) }
        ensures left { OnErr result (self.new.datagrams ≡ self.old.datagrams) }
        ensures folders_stay { self.new.folders ≡ self.old.folders }
        ensures links_stay { self.new.links ≡ self.old.links }
        ensures clocks_stay { self.new.clocks ≡ self.old.clocks }
        ensures doors_stay { self.new.doors ≡ self.old.doors }
        ensures spawners_stay { self.new.spawners ≡ self.old.spawners }
        ensures calls { self.new.calls ≡ raised self.old.calls 1 }
        ensures same_fails { self.new.fails ≡ self.old.fails }
        ensures unheard { IfOk result (λ datagrams. IsUnheard (datagrams_told datagrams)) }
        ensures asked { Told (Some self.old.asked) (λ list. Some self.new.asked ≡ Some (list ++ ForDatagrams port ∷ [])) }
        ensures ended_stay { self.new.ended ≡ self.old.ended }
        ensures ended_links_stay { self.new.ended_links ≡ self.old.ended_links }
        ensures ended_datagrams_stay { self.new.ended_datagrams ≡ self.old.ended_datagrams }
        ensures connections_stay { self.new.connections ≡ self.old.connections }
        ensures started_stay { self.new.started ≡ self.old.started }
        ensures given_stay { self.new.given ≡ self.old.given }
        ensures rose { OutsideRose result self.old.faults self.new.faults }
        ensures never_falls { self.old.faults ≤ self.new.faults }
    {
        let has_one = !self.datagrams.is_empty();
        if !self.admits(Ask::Datagrams { port }, has_one) {
            return Err(OutsideFault::Failed);
        }
        Ok(self.datagrams.remove(0).afresh())
    }

    fn end_folder(&mut self, folder: MemFolder) {
        let folder = self.ended.push(folder);
        self.faults = self.faults.saturating_add(folder.entry_faults().min(1));
    }

    fn end_link(&mut self, link: MemLink) {
        let link = self.ended_links.push(link);
        self.faults = self.faults.saturating_add(link.faults().min(1));
    }

    fn end_door(&mut self, door: MemDoor<R>) {
        self.connections = self.connections.saturating_add(door.connections());
        self.faults = self.faults.saturating_add(door.faults().min(1));
    }

    fn end_spawner(&mut self, spawner: MemSpawner) {
        self.started = self.started.saturating_add(spawner.started());
        self.faults = self.faults.saturating_add(spawner.faults().min(1));
    }

    fn end_datagrams(&mut self, datagrams: MemDatagrams) {
        let datagrams = self.ended_datagrams.push(datagrams);
        self.given = self.given.saturating_add(datagrams.given());
        self.faults = self.faults.saturating_add(datagrams.faults().min(1));
        self.replies = Some(datagrams.into_replies());
    }
}
