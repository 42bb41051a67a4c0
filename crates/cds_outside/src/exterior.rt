//! The outside as a whole: what gives the objects and takes them back.

use crate::{Clock, Datagrams, Door, Folder, Link, Spawner};
use cds_base::Mem;
use std::alloc::Global;
use std::convert::From;
use std::error::Error;
use std::fmt;
use std::marker::Send;

/// Why the outside gave no object.
#[derive(Clone, Copy, Debug, PartialEq, Eq)]
pub enum OutsideFault {
    /// The outside failed, and its count of faults says so.
    Failed,
    /// Memory ran out.
    Mem,
}

impl fmt::Display for OutsideFault {
    fn fmt<W: fmt::Write>(&self, f: &mut fmt::Formatter<W>) -> fmt::Result {
        match self {
            OutsideFault::Failed => write!(f, "the outside failed"),
            OutsideFault::Mem => write!(f, "out of memory"),
        }
    }
}

impl Error for OutsideFault {}

impl From<Mem> for OutsideFault {
    ghost use Rattle.std.specs.Prelude.{◌≡◌};
    ghost use Rattle.cds_outside.specs.declared.exterior.OutsideFault.TheVariants.{Mem};

    ghost from_gives = { λ _ e. e ≡ Mem };

    fn from(_e: cds_base::Mem) -> Self {
        OutsideFault::Mem
    }
}

/// Gives a program the objects of the outside, and takes them back. Nothing was asked yet of an object that it gives. `Failed`
/// comes only if the count of faults rises.
pub trait Outside {
    ghost use Rattle.std.specs.Prelude.{◌≡◌, ◌≤◌, min, [], ◌∷◌, ◌++◌, Some, IfOk};
    ghost use Rattle.cds_outside.specs.Outside.{raised, Told};
    ghost use Rattle.cds_outside.specs.Entries.{IsUnasked};
    ghost use Rattle.cds_outside.specs.Asked.{ForClock, ForDatagrams, ForDoor, ForFolder, ForLink, ForSpawner, OutsideRose};
    ghost use Rattle.cds_outside.specs.Datagrams.{IsUnheard};
    ghost use Rattle.cds_outside.specs.Told.{IsFresh, IsUnsent, OutsideTold, asked_then, unasked_door, unasked_spawner};

    type F: Folder + Send + Drop + 'static;

    type L: Link + Send + Drop + 'static;

    type C: Clock + Send + Drop + 'static;

    type D: Door + Send + Drop + 'static;

    type W: Spawner + Send + Drop + 'static;

    type U: Datagrams + Send + Drop + 'static;

    // What it tells of itself.
    ghost told: { Self → OutsideTold };

    /// Returns the folder at a path.
    fn folder(&mut self, alloc: Global, path: &str) -> Result<Self::F, OutsideFault>
        ensures unasked { IfOk result (λ folder. IsUnasked (Self.F.told folder)) }
        ensures asked { Told (told self.old).asked (λ list. (told self.new).asked ≡ Some (list ++ ForFolder path.now ∷ [])) }
        ensures others_stay { told self.new ≡ asked_then (told self.old) (told self.new) }
        ensures rose { OutsideRose result (told self.old).faults (told self.new).faults }
        ensures never_falls { (told self.old).faults ≤ (told self.new).faults };

    /// Returns a link.
    fn link(&mut self, alloc: Global) -> Result<Self::L, OutsideFault>
        ensures unsent { IfOk result (λ link. IsUnsent (Self.L.told link)) }
        ensures asked { Told (told self.old).asked (λ list. (told self.new).asked ≡ Some (list ++ ForLink ∷ [])) }
        ensures others_stay { told self.new ≡ asked_then (told self.old) (told self.new) }
        ensures rose { OutsideRose result (told self.old).faults (told self.new).faults }
        ensures never_falls { (told self.old).faults ≤ (told self.new).faults };

    /// Returns a clock.
    fn clock(&mut self, alloc: Global) -> Result<Self::C, OutsideFault>
        ensures fresh { IfOk result (λ clock. IsFresh (Self.C.told clock)) }
        ensures asked { Told (told self.old).asked (λ list. (told self.new).asked ≡ Some (list ++ ForClock ∷ [])) }
        ensures others_stay { told self.new ≡ asked_then (told self.old) (told self.new) }
        ensures rose { OutsideRose result (told self.old).faults (told self.new).faults }
        ensures never_falls { (told self.old).faults ≤ (told self.new).faults };

    /// Returns the door at a port.
    fn door(&mut self, alloc: Global, port: u16) -> Result<Self::D, OutsideFault>
        ensures unasked { IfOk result (λ door. Self.D.told door ≡ unasked_door) }
        ensures asked { Told (told self.old).asked (λ list. (told self.new).asked ≡ Some (list ++ ForDoor port ∷ [])) }
        ensures others_stay { told self.new ≡ asked_then (told self.old) (told self.new) }
        ensures rose { OutsideRose result (told self.old).faults (told self.new).faults }
        ensures never_falls { (told self.old).faults ≤ (told self.new).faults };

    /// Returns a spawner.
    fn spawner(&mut self, alloc: Global) -> Result<Self::W, OutsideFault>
        ensures unasked { IfOk result (λ spawner. Self.W.told spawner ≡ unasked_spawner) }
        ensures asked { Told (told self.old).asked (λ list. (told self.new).asked ≡ Some (list ++ ForSpawner ∷ [])) }
        ensures others_stay { told self.new ≡ asked_then (told self.old) (told self.new) }
        ensures rose { OutsideRose result (told self.old).faults (told self.new).faults }
        ensures never_falls { (told self.old).faults ≤ (told self.new).faults };

    /// Returns the datagrams of a port.
    fn datagrams(&mut self, alloc: Global, port: u16) -> Result<Self::U, OutsideFault>
        ensures unheard { IfOk result (λ datagrams. IsUnheard (Self.U.told datagrams)) }
        ensures asked { Told (told self.old).asked (λ list. (told self.new).asked ≡ Some (list ++ ForDatagrams port ∷ [])) }
        ensures others_stay { told self.new ≡ asked_then (told self.old) (told self.new) }
        ensures rose { OutsideRose result (told self.old).faults (told self.new).faults }
        ensures never_falls { (told self.old).faults ≤ (told self.new).faults };

    /// Takes a folder back. It takes no memory. The count of faults rises exactly if the folder's count of faults of entries is
    /// above 0.
    fn end_folder(&mut self, folder: Self::F)
        ensures faults { (told self.new).faults ≡ raised (told self.old).faults (min 1 (Self.F.told folder).entry_faults) }
        ensures ended { Told (told self.old).ended (λ list. (told self.new).ended ≡ Some (list ++ Self.F.told folder ∷ [])) }
        ensures others_stay { told self.new ≡ record (told self.old) { faults = (told self.new).faults; ended = (told self.new).ended } }
        ensures never_falls { (told self.old).faults ≤ (told self.new).faults };

    /// Takes a link back. It takes no memory. The count of faults rises exactly if the link's count of faults is above 0.
    fn end_link(&mut self, link: Self::L)
        ensures faults { (told self.new).faults ≡ raised (told self.old).faults (min 1 (Self.L.told link).faults) }
        ensures ended_links { Told (told self.old).ended_links (λ list. (told self.new).ended_links ≡ Some (list ++ Self.L.told link ∷ [])) }
        ensures others_stay { told self.new ≡ record (told self.old) { faults = (told self.new).faults; ended_links = (told self.new).ended_links } }
        ensures never_falls { (told self.old).faults ≤ (told self.new).faults };

    /// Takes a handle of a door back, and adds the number of connections that it gave. It takes no memory. The count of faults
    /// rises exactly if the handle's count of faults is above 0.
    fn end_door(&mut self, door: Self::D)
        ensures faults { (told self.new).faults ≡ raised (told self.old).faults (min 1 (Self.D.told door).faults) }
        ensures connections { (told self.new).connections ≡ raised (told self.old).connections (Self.D.told door).connections }
        ensures others_stay { told self.new ≡ record (told self.old) { faults = (told self.new).faults; connections = (told self.new).connections } }
        ensures never_falls { (told self.old).faults ≤ (told self.new).faults };

    /// Takes a spawner back, and adds the number of jobs that it started. It takes no memory. The count of faults rises exactly
    /// if the spawner's count of faults is above 0.
    fn end_spawner(&mut self, spawner: Self::W)
        ensures faults { (told self.new).faults ≡ raised (told self.old).faults (min 1 (Self.W.told spawner).faults) }
        ensures started { (told self.new).started ≡ raised (told self.old).started (Self.W.told spawner).started }
        ensures others_stay { told self.new ≡ record (told self.old) { faults = (told self.new).faults; started = (told self.new).started } }
        ensures never_falls { (told self.old).faults ≤ (told self.new).faults };

    /// Takes the datagrams of a port back, and adds the number of those that it gave. It takes no memory. The count of faults rises
    /// exactly if their count of faults is above 0.
    fn end_datagrams(&mut self, datagrams: Self::U)
        ensures faults { (told self.new).faults ≡ raised (told self.old).faults (min 1 (Self.U.told datagrams).faults) }
        ensures ended_datagrams { Told (told self.old).ended_datagrams (λ list. (told self.new).ended_datagrams ≡ Some (list ++ Self.U.told datagrams ∷ [])) }
        ensures given { (told self.new).datagrams ≡ raised (told self.old).datagrams (Self.U.told datagrams).given }
        ensures others_stay { told self.new ≡ record (told self.old) { faults = (told self.new).faults; ended_datagrams = (told self.new).ended_datagrams; datagrams = (told self.new).datagrams } }
        ensures never_falls { (told self.old).faults ≤ (told self.new).faults };
}
