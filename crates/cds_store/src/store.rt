//! The store of a server, with children and rows found by binary search.

ghost use Rattle.std.specs.Prelude.{◌≡◌, IfOk};
ghost use Rattle.cds_store.specs.Stands.{StandsFor, no_scans};

use crate::catalog::Catalog;
use crate::containers::containers_within;
use crate::halving::row_by_id;
use crate::kept::{events_within, retain_after};
use crate::offspring::{Child, children_in, ids_of, offspring_after, offspring_of, page_of};
use crate::planning::plan;
use crate::resolving::resolve;
use crate::subtrees::mark_all;
use crate::{ApplyError, Keeping, Span, View};
use cds_base::Mem;
use cds_changes::EventWithParent;
use cds_object::{Events, Records, Row};
use std::alloc::Global;
use std::fmt::{Debug, Formatter};
use std::marker::Model;
use std::{fmt, mem};

/// The catalog of a server after all its scans, with the changes that are not forgotten. Rows and children are found by
/// binary search. Before any change of a scan is made, all of them are resolved to ids and all memory is taken.
/// Contracts see:
///
/// - What stands: the number of the newest change, how many ids were drawn, and the rows with their places.
/// - The number up to which changes are forgotten.
/// - The events of the changes above that number.
///
/// The store stands for a history of scans if all this is what the history gives.
#[derive(Drop)]
pub struct Store {
    pub(crate) catalog: Catalog,
    forgotten: u32,
    kept: Vec<EventWithParent>,
    offspring: Vec<Child>,
}

impl Model for Store {
    ghost use Rattle.cds_store.specs.Stands.{Stored};
    ghost use Rattle.cds_store.specs.Offspring.{IsIndexed};

    ghost Value = { Stored };

    ghost view = { λ s. record { standing = s.catalog; forgotten = s.forgotten; kept = s.kept.items } };

    ghost invariant = { λ s. IsIndexed (record { standing = s.catalog; forgotten = s.forgotten; kept = s.kept.items }) s.offspring.items };
}

/// Prints the name alone. To derive this for all that it holds would be costly to prove, and nothing prints it.
impl Debug for Store {
    fn fmt<W: fmt::Write>(&self, f: &mut Formatter<W>) -> fmt::Result {
        f.debug_struct("Store").finish_non_exhaustive()
    }
}

impl Store {
    /// Returns a store before any scan: the root alone, at the first number.
    pub fn new(alloc: Global, first: u32) -> Result<Store, Mem>
        ensures stands { IfOk result (λ store. StandsFor store (no_scans first)) }
        ensures forgotten { IfOk result (λ store. store.forgotten ≡ first) }
    {
        let catalog = Catalog::new(alloc, first)?;
        let offspring = offspring_of(alloc, catalog.rows())?;
        Ok(Store {
            catalog,
            forgotten: first,
            kept: Vec::new(alloc),
            offspring,
        })
    }
}

impl View for Store {
    ghost use Rattle.cds_store.specs.Rows.{rows_of};
    ghost use Rattle.cds_store.specs.Stands.{Stored};

    ghost rows = { λ (s : Stored). rows_of s.standing.rows };

    ghost number = { λ (s : Stored). s.standing.number };

    fn get(&self, id: u32) -> Option<&Row> {
        row_by_id(self.catalog.rows(), id)
    }

    fn row(&self, at: usize) -> Option<&Row> {
        match self.catalog.rows().get(at) {
            None => None,
            Some(placed) => Some(&placed.row),
        }
    }

    fn len(&self) -> usize {
        self.catalog.rows().len()
    }

    fn children(
        &self,
        alloc: Global,
        id: u32,
        start: u32,
        count: u32,
        out: &mut Vec<u32>,
    ) -> Result<u32, Mem> {
        let children = children_in(self.offspring.as_slice(), id);
        let ids = ids_of(alloc, page_of(children, start, count))?;
        out.extend_from_slice(ids.as_slice())?;
        Ok(children.len() as u32)
    }

    fn system_update_id(&self) -> u32 {
        self.catalog.number()
    }

    fn view_facts(&self) {
        let _newest = self.catalog.number();
    }
}

impl Keeping for Store {
    ghost use Rattle.std.specs.Prelude.{refl};
    ghost use Rattle.cds_store.specs.Stands.{Stored};

    ghost stored = { λ (s : Stored). s };

    fn apply(&mut self, alloc: Global, records: &Records) -> Result<Span, ApplyError> {
        let changes = plan(alloc, &self.catalog, records)?;
        let from = self.catalog.number();
        if changes.is_empty() {
            return Ok(Span { from, to: from });
        }
        let marked = mark_all(alloc, changes)?;
        let scan = resolve(alloc, &self.catalog, marked)?;
        let offspring = offspring_after(alloc, self.offspring.as_slice(), &scan)?;
        self.catalog.commit(scan, &mut self.kept)?;
        drop(mem::replace(&mut self.offspring, offspring));
        let to = self.catalog.number();
        Ok(Span { from, to })
    }

    fn is_container(&self, id: u32) -> bool {
        match self.get(id) {
            None => false,
            Some(row) => row.content.is_folder(),
        }
    }

    fn forgotten(&self) -> u32 {
        self.forgotten
    }

    fn changes_after(&self, alloc: Global, span: Span, out: &mut Events) -> Result<(), Mem> {
        let events = events_within(alloc, self.kept.as_slice(), span)?;
        out.extend(events.as_slice())?;
        Ok(())
    }

    fn containers_after(
        &self,
        alloc: Global,
        span: Span,
        out: &mut Vec<(u32, u32)>,
    ) -> Result<(), Mem> {
        let containers = containers_within(alloc, self.kept.as_slice(), span)?;
        out.extend_from_slice(containers.as_slice())?;
        Ok(())
    }

    fn forget(&mut self, to: u32) {
        self.forgotten = self.forgotten.max(to);
        retain_after(&mut self.kept, self.forgotten);
    }

    fn facts(&self) {
        let _ = &self.catalog;
    }

    ghost shows = { λ s. (refl, refl) };
}
