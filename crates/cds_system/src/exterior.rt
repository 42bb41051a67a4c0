//! The outside of the system: it gives folders, links, clocks, doors, spawners and datagrams. It tells nothing of what it was asked.

ghost use Rattle.std.specs.Prelude.{◌≡◌};

use crate::backoff::Shared;
use crate::clocks::{RealClock, ahead};
use crate::datagrams::RealDatagrams;
use crate::doors::RealDoor;
use crate::files::{RealFolder, real_folder};
use crate::links::{RealLink, remembered};
use crate::spawners::RealSpawner;
use cds_base::Mem;
use cds_outside::{Outside, OutsideFault};
use std::alloc::Global;
use std::marker::Send;
use std::net::Net;
use std::rt::Files;
use std::sync::Wait;
use std::time::Clock;

/// Gives the objects of the system. Its links share what they remember of addresses that did not answer.
#[derive(Drop)]
pub struct RealOutside<R: Files + AllocGlobal + Net + Clock + Wait + Clone + Drop> {
    rt: R,
    ahead: u64,
    backoff: Option<Shared>,
    connections: u64,
    started: u64,
    datagrams: u64,
    faults: u64,
}

impl<R: Files + AllocGlobal + Net + Clock + Wait + Clone + Drop> RealOutside<R> {
    /// Makes an outside of which no call has failed. If the system tells the milliseconds since 1970, its clocks begin with them.
    pub fn new(rt: R) -> Self
        ensures connections { result.connections ≡ 0 }
        ensures started { result.started ≡ 0 }
        ensures datagrams { result.datagrams ≡ 0 }
        ensures faults { result.faults ≡ 0 }
    {
        let ahead = ahead(&rt);
        RealOutside {
            rt,
            ahead,
            backoff: None,
            connections: 0,
            started: 0,
            datagrams: 0,
            faults: 0,
        }
    }
}

/// Returns another owner of the runtime.
fn another<R: Clone>(rt: &R) -> Result<R, Mem> {
    Ok(rt.clone()?)
}

impl<R: Files + AllocGlobal + Net + Clock + Wait + Clone + Drop + Send + 'static> Outside
    for RealOutside<R>
where
    R::File: Send + 'static,
    R::Dir: Send + 'static,
{
    ghost use Rattle.std.specs.Prelude.{None};

    type F = RealFolder<R>;

    type L = RealLink<R>;

    type C = RealClock<R>;

    type D = RealDoor<R>;

    type W = RealSpawner;

    type U = RealDatagrams<R>;

    ghost told = { λ s.
        record {
          faults = s.faults;
          asked = None;
          ended = None;
          ended_links = None;
          connections = s.connections;
          started = s.started;
          ended_datagrams = None;
          datagrams = s.datagrams;
        } };

    fn folder(&mut self, alloc: Global, path: &str) -> Result<RealFolder<R>, OutsideFault> {
        match real_folder(&self.rt, alloc, path) {
            Ok(folder) => Ok(folder),
            Err(OutsideFault::Mem) => Err(OutsideFault::Mem),
            Err(OutsideFault::Failed) => {
                self.faults = self.faults.saturating_add(1);
                Err(OutsideFault::Failed)
            }
        }
    }

    fn link(&mut self, alloc: Global) -> Result<RealLink<R>, OutsideFault> {
        let rt = another(&self.rt)?;
        let backoff = remembered(alloc, &mut self.backoff)?;
        Ok(RealLink::sharing(rt, backoff))
    }

    fn clock(&mut self, _alloc: Global) -> Result<RealClock<R>, OutsideFault> {
        let rt = another(&self.rt)?;
        Ok(RealClock::new(rt, self.ahead))
    }

    fn door(&mut self, alloc: Global, port: u16) -> Result<RealDoor<R>, OutsideFault> {
        let rt = another(&self.rt)?;
        match RealDoor::open(rt, alloc, port) {
            Ok(door) => Ok(door),
            Err(OutsideFault::Mem) => Err(OutsideFault::Mem),
            Err(OutsideFault::Failed) => {
                self.faults = self.faults.saturating_add(1);
                Err(OutsideFault::Failed)
            }
        }
    }

    fn spawner(&mut self, _alloc: Global) -> Result<RealSpawner, OutsideFault> {
        Ok(RealSpawner::new())
    }

    fn datagrams(&mut self, alloc: Global, port: u16) -> Result<RealDatagrams<R>, OutsideFault> {
        let rt = another(&self.rt)?;
        match RealDatagrams::open(rt, alloc, port) {
            Ok(datagrams) => Ok(datagrams),
            Err(OutsideFault::Mem) => Err(OutsideFault::Mem),
            Err(OutsideFault::Failed) => {
                self.faults = self.faults.saturating_add(1);
                Err(OutsideFault::Failed)
            }
        }
    }

    fn end_folder(&mut self, folder: RealFolder<R>) {
        let faults = folder.entry_faults();
        drop(folder);
        self.faults = self.faults.saturating_add(faults.min(1));
    }

    fn end_link(&mut self, link: RealLink<R>) {
        let faults = link.faults();
        drop(link);
        self.faults = self.faults.saturating_add(faults.min(1));
    }

    fn end_door(&mut self, door: RealDoor<R>) {
        let (connections, faults) = (door.connections(), door.faults());
        drop(door);
        self.connections = self.connections.saturating_add(connections);
        self.faults = self.faults.saturating_add(faults.min(1));
    }

    fn end_spawner(&mut self, spawner: RealSpawner) {
        self.started = self.started.saturating_add(spawner.started());
        self.faults = self.faults.saturating_add(spawner.faults().min(1));
    }

    fn end_datagrams(&mut self, datagrams: RealDatagrams<R>) {
        let (given, faults) = (datagrams.given(), datagrams.faults());
        drop(datagrams);
        self.datagrams = self.datagrams.saturating_add(given);
        self.faults = self.faults.saturating_add(faults.min(1));
    }
}
