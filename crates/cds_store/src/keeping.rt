//! The contract for whatever keeps the catalog of a server. Under it one implementation can replace another.

ghost use Rattle.std.specs.Prelude.{◌≡◌, ◌≤◌, ◌<◌, ◌^◌, length, max, IfOk, OnErr};
ghost use Rattle.cds_object.specs.Tree.{row_of, is_container_row};
ghost use Rattle.cds_catalog.specs.History.{History};
ghost use Rattle.cds_store.specs.Rows.{rows_of};
ghost use Rattle.cds_store.specs.Stands.{StandsFor, IsStore, AddsChanges, AddsContainers};
ghost use Rattle.cds_store.specs.Applied.{Applied};

use crate::{ApplyError, Span, View};
use cds_base::Mem;
use cds_object::{Events, Records, Row};
use std::alloc::Global;

/// A catalog that is kept from scan to scan, with the changes that are not forgotten. It stands for a history of scans.
/// After a scan it stands for that history with the new scan. It is a view of the rows that stand.
pub trait Keeping: View {
    ghost use Rattle.cds_store.specs.Stands.{Stored};

    // What stands now, and the changes that are kept.
    ghost stored: { Self → Stored };

    /// Takes what a scan found as the whole library, and returns the numbers of the changes. Deletions come first, in
    /// descending order of places. Additions and modifications come next, in ascending order. If the scan is refused or
    /// memory runs out, all stays as it was.
    fn apply(&mut self, alloc: Global, records: &Records) -> Result<Span, ApplyError>
        requires { length records.now < 2 ^ 32 }
        ensures { (history : History) → StandsFor (stored self.old) history → Applied history records.now result (stored self.old) (stored self.new) };

    /// Returns whether an object is a container.
    fn is_container(&self, id: u32) -> bool
        ensures { result ≡ is_container_row (row_of id (rows_of (stored self.now).standing.rows)) };

    /// Returns the number up to which changes are forgotten. At first it is the first number.
    fn forgotten(&self) -> u32
        ensures { result ≡ (stored self.now).forgotten };

    /// Appends the events of the changes of a span to `out` (UPnP ContentDirectory:4 on LastChange): those above
    /// `from`, up to `to`. If memory runs out, `out` stays as it was.
    fn changes_after(&self, alloc: Global, span: Span, out: &mut Events) -> Result<(), Mem>
        requires { (stored self.now).forgotten ≤ span.from }
        ensures told { IfOk result (λ _. AddsChanges (stored self.now) span out.old out.new) }
        ensures kept { OnErr result (out.new ≡ out.old) };

    /// Appends the containers of a span to `out` (UPnP ContentDirectory:4 on ContainerUpdateIDs), in ascending order of
    /// ids. These are the containers that a change above `from`, up to `to`, adds or names as parent, except those that
    /// one of these changes deletes. Each comes with the last such number. If memory runs out, `out` stays as it was.
    fn containers_after(
        &self,
        alloc: Global,
        span: Span,
        out: &mut Vec<(u32, u32)>,
    ) -> Result<(), Mem>
        requires { (stored self.now).forgotten ≤ span.from }
        ensures told { IfOk result (λ _. AddsContainers (stored self.now) span out.old.items out.new.items) }
        ensures kept { OnErr result (out.new.items ≡ out.old.items) };

    /// Forgets the changes up to `to`, a number that was reached. Rows stay, and no memory is taken.
    fn forget(&mut self, to: u32)
        requires { to ≤ (stored self.old).standing.number }
        ensures forgotten { (stored self.new).forgotten ≡ max (stored self.old).forgotten to }
        ensures stays { (stored self.new).standing ≡ (stored self.old).standing }
        ensures stands { (history : History) → StandsFor (stored self.old) history → StandsFor (stored self.new) history };

    /// Makes known what holds of whatever is kept. Only proofs need this.
    fn facts(&self)
        ensures { IsStore (stored self.now) };

    // It shows the rows that stand, and the newest number.
    ghost shows: { (s : Self) → (Self.rows s ≡ rows_of (stored s).standing.rows) × (Self.number s ≡ (stored s).standing.number) };
}
