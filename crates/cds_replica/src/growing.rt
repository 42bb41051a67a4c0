//! How a listing begins and grows.

ghost use Rattle.std.specs.Prelude.{◌≡◌, ℕ, ◌+◌, ◌^◌, ◌<◌, ◌≤◌, ◌∷◌, ◌++◌, [], false, nat_eq, length, drop, OnOk, IfOk, IfErr, vec_len, vec_capacity};
ghost use Rattle.cds_load.specs.Stages.{Lists, Loads, put_rows, put_containers, listing_of, listed, listed_children, after_page};
ghost use Rattle.cds_replica.specs.Ended.{is_end};
ghost use Rattle.cds_replica.specs.Holding.{listing_in, GivesBack, with_part};
ghost use Rattle.cds_replica.specs.Order.{KeysAscend, id_of_row, id_of_waiting};
ghost use Rattle.cds_replica.specs.Phases.{ends_load};

use crate::listing::{Container, Listing};
use crate::order::put_in_order;
use cds_object::Row;
use std::alloc::{AllocError, Global};

impl Listing {
    /// Returns what a load begins with: the root's row, and the root waits. Without memory the row comes back.
    pub fn new(alloc: Global, root: Row) -> Result<Listing, Row>
        ensures ok { IfOk result (λ listing. listing_in listing ≡ listing_of root) }
        ensures err { IfErr result (λ row. row ≡ root) }
    {
        let mut rows = Vec::new(alloc);
        let mut waiting = Vec::new(alloc);
        if reserve(&mut rows, &mut waiting, 1).is_err() {
            return Err(root);
        }
        put_object(&mut rows, &mut waiting, root);
        let part = Vec::new(alloc);
        Ok(Listing {
            rows,
            waiting,
            part,
        })
    }

    /// Returns what a page that fits leads to, if it does not end the load. Without memory both come back.
    pub fn with_page(self, alloc: Global, page: Vec<Row>) -> Result<Listing, (Listing, Vec<Row>)>
        requires short { length self.part.items + length page.items < 2 ^ 32 }
        requires goes_on { ends_load (listing_in self) page.items ≡ false }
        ensures ok { IfOk result (λ listing. (number : ℕ) → after_page number (listing_in self) page.items ≡ Loads (Lists number (listing_in listing))) }
        ensures err { IfErr result (λ back. GivesBack self page back) }
    {
        if self.is_last(page.as_slice()) {
            self.with_last_page(alloc, page)
        } else {
            self.with_more(page)
        }
    }

    /// Returns whether a page is its container's last.
    fn is_last(&self, page: &[Row]) -> bool
        ensures { result ≡ nat_eq (length (self.now.part.items ++ page.now)) (listed_children (listing_in self.now)) }
    {
        self.part.len() + page.len() == self.children() as usize
    }

    /// Returns whether a page ends the load.
    pub fn ends_load(&self, page: &[Row]) -> bool
        ensures { result ≡ ends_load (listing_in self.now) page.now }
    {
        self.is_last(page) && self.ends_with(page)
    }

    /// Returns the listing with a page that is not the container's last.
    fn with_more(self, mut page: Vec<Row>) -> Result<Listing, (Listing, Vec<Row>)>
        requires { length self.part.items + length page.items < 2 ^ 32 }
        ensures ok { IfOk result (λ listing. listing_in listing ≡ with_part (listing_in self) page.items) }
        ensures err { IfErr result (λ back. GivesBack self page back) }
    {
        let Listing {
            rows,
            waiting,
            mut part,
        } = self;
        let appended = part.append(&mut page);
        let listing = Listing {
            rows,
            waiting,
            part,
        };
        match appended {
            Ok(()) => Ok(listing),
            Err(_) => Err((listing, page)),
        }
    }

    /// Returns the listing after the last page of a container, if another one waits.
    fn with_last_page(
        self,
        alloc: Global,
        mut page: Vec<Row>,
    ) -> Result<Listing, (Listing, Vec<Row>)>
        requires short { length self.part.items + length page.items < 2 ^ 32 }
        requires goes_on { is_end (listing_in self) page.items ≡ false }
        ensures ok { IfOk result (λ listing. (number : ℕ) → listed number (put_rows (self.part.items ++ page.items) self.rows.items)
            (put_containers (self.part.items ++ page.items) (drop 1 self.waiting.items)) ≡ Loads (Lists number (listing_in listing))) }
        ensures err { IfErr result (λ back. GivesBack self page back) }
    {
        let Listing {
            mut rows,
            mut waiting,
            mut part,
        } = self;
        let more = part.len() + page.len();
        if reserve(&mut rows, &mut waiting, more).is_err() || part.append(&mut page).is_err() {
            let listing = Listing {
                rows,
                waiting,
                part,
            };
            return Err((listing, page));
        }
        drop_first(&mut waiting);
        put_objects(&mut rows, &mut waiting, part);
        let part = Vec::new(alloc);
        Ok(Listing {
            rows,
            waiting,
            part,
        })
    }
}

/// Makes room for this many rows and for as many containers.
fn reserve(rows: &mut Vec<Row>, waiting: &mut Vec<Container>, more: usize) -> Result<(), AllocError>
    ensures rows { rows.new.items ≡ rows.old.items }
    ensures waiting { waiting.new.items ≡ waiting.old.items }
    ensures rows_room { OnOk result (vec_len rows.new + more ≤ vec_capacity rows.new) }
    ensures waiting_room { OnOk result (vec_len waiting.new + more ≤ vec_capacity waiting.new) }
{
    rows.reserve(more)?;
    waiting.reserve(more)?;
    Ok(())
}

/// Puts a row in its place, and its container, if it is one's, among those that wait.
fn put_object(rows: &mut Vec<Row>, waiting: &mut Vec<Container>, row: Row)
    requires rows_room { vec_len rows.old < vec_capacity rows.old }
    requires waiting_room { vec_len waiting.old < vec_capacity waiting.old }
    requires rows_ascend { KeysAscend id_of_row rows.old.items }
    requires waiting_ascend { KeysAscend id_of_waiting waiting.old.items }
    ensures rows { rows.new.items ≡ put_rows (row ∷ []) rows.old.items }
    ensures waiting { waiting.new.items ≡ put_containers (row ∷ []) waiting.old.items }
    ensures rows_ascend { KeysAscend id_of_row rows.new.items }
    ensures waiting_ascend { KeysAscend id_of_waiting waiting.new.items }
    ensures rows_len { vec_len rows.new ≡ vec_len rows.old + 1 }
    ensures waiting_len { vec_len waiting.new ≤ vec_len waiting.old + 1 }
    ensures rows_capacity { vec_capacity rows.old ≤ vec_capacity rows.new }
    ensures waiting_capacity { vec_capacity waiting.old ≤ vec_capacity waiting.new }
{
    if let Some(container) = Container::of(&row) {
        put_in_order(waiting, container);
    }
    put_in_order(rows, row);
}

/// Puts each of these rows in its place, and the containers among them among those that wait.
fn put_objects(rows: &mut Vec<Row>, waiting: &mut Vec<Container>, objects: Vec<Row>)
    requires rows_room { vec_len rows.old + vec_len objects ≤ vec_capacity rows.old }
    requires waiting_room { vec_len waiting.old + vec_len objects ≤ vec_capacity waiting.old }
    requires rows_ascend { KeysAscend id_of_row rows.old.items }
    requires waiting_ascend { KeysAscend id_of_waiting waiting.old.items }
    ensures rows { rows.new.items ≡ put_rows objects.items rows.old.items }
    ensures waiting { waiting.new.items ≡ put_containers objects.items waiting.old.items }
    ensures rows_ascend { KeysAscend id_of_row rows.new.items }
    ensures waiting_ascend { KeysAscend id_of_waiting waiting.new.items }
{
    for row in objects {
        put_object(rows, waiting, row);
    }
}

/// Drops the first container, if one waits.
fn drop_first(waiting: &mut Vec<Container>)
    requires { KeysAscend id_of_waiting waiting.old.items }
    ensures items { waiting.new.items ≡ drop 1 waiting.old.items }
    ensures ascend { KeysAscend id_of_waiting waiting.new.items }
    ensures len { vec_len waiting.new ≤ vec_len waiting.old }
    ensures capacity { vec_capacity waiting.new ≡ vec_capacity waiting.old }
{
    if !waiting.is_empty() {
        let _listed = waiting.remove(0);
    }
}
