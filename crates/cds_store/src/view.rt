//! The contract for whatever shows a library at a moment. Browse and Search work over it, so a copy of a catalog is browsed as the
//! catalog itself is.

ghost use Rattle.std.specs.Prelude.{◌≡◌, ◌<◌, ◌^◌, true, length, option_copied, slice_get, IfOk, OnErr};
ghost use Rattle.cds_object.specs.Tree.{row_of, children_of, is_container_row};
ghost use Rattle.cds_store.specs.Rows.{AddsPage};
ghost use Rattle.cds_store.specs.Views.{IsView};

use cds_base::Mem;
use cds_object::Row;
use std::alloc::Global;

/// The rows of a library at a moment, in ascending order of ids, and the number of the newest change. The rows need not be a tree:
/// a parent may have no row.
pub trait View {
    ghost use Rattle.std.specs.Prelude.{ℕ, List};
    ghost use Rattle.cds_object.specs.Object.{ObjectRow};

    // The rows, in ascending order of ids.
    ghost rows: { Self → List ObjectRow };

    // The number of the newest change.
    ghost number: { Self → ℕ };

    /// Returns the row of an object, or `None` if no object has the id.
    fn get(&self, id: u32) -> Option<&Row>
        ensures { option_copied result ≡ row_of id (rows self.now) };

    /// Returns the row at a place, counted from 0 in ascending order of ids.
    fn row(&self, at: usize) -> Option<&Row>
        ensures { option_copied result ≡ slice_get (rows self.now) at };

    /// Returns the number of rows.
    fn len(&self) -> usize
        ensures exact { result ≡ length (rows self.now) }
        ensures few { length (rows self.now) < 2 ^ 32 };

    /// Appends the ids of the children of a container to `out`, in ascending order: at most `count` from the place
    /// `start` on, counted from 0. Returns how many children there are.
    fn children(
        &self,
        alloc: Global,
        id: u32,
        start: u32,
        count: u32,
        out: &mut Vec<u32>,
    ) -> Result<u32, Mem>
        requires { is_container_row (row_of id (rows self.now)) ≡ true }
        ensures total { IfOk result (λ total. total ≡ length (children_of id (rows self.now))) }
        ensures page { IfOk result (λ _. AddsPage id start count (rows self.now) out.old.items out.new.items) }
        ensures kept { OnErr result (out.new.items ≡ out.old.items) };

    /// Returns the number of the newest change, or the first number (UPnP ContentDirectory:4 on SystemUpdateID).
    fn system_update_id(&self) -> u32
        ensures { result ≡ number self.now };

    /// Makes known what holds of the rows of every view. Only proofs need this.
    fn view_facts(&self)
        ensures { IsView (rows self.now) };
}
