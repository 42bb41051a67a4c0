//! Browse over a view: the checks, and the page.

ghost use Rattle.std.specs.Prelude.{◌≡◌, ◌∷◌, [], true, Some, length, take, drop, IfOk};
ghost use Rattle.cds_object.specs.Tree.{row_of, children_of, is_container_row};
ghost use Rattle.cds_catalog.specs.Catalog.{catalog};
ghost use Rattle.cds_catalog.specs.History.{History, end_of};
ghost use Rattle.cds_store.specs.Views.{ShowsHistory};
ghost use Rattle.cds_object.specs.Updates.{update_of};
ghost use Rattle.cds_browse.specs.Paging.{row_named, ids_of, most_rows, page_of, Answers};
ghost use Rattle.cds_browse.specs.Browsing.{target_named, target_at, target_asked, can_answer, matches, browse_answer};

use crate::ordered::ordered_children;
use crate::page::Target;
use crate::paging::{most_rows, named, page_among, update_of};
use crate::{BrowseError, Page};
use cds_base::{Mem, Numbers};
use cds_criteria::SortKeys;
use cds_object::Row;
use cds_soap::BrowseRequest;
use cds_store::View;
use std::alloc::Global;

/// Returns the page that Browse asks for, over the rows of a view. The checks come in this order:
///
/// - `InvalidArgs` exactly if the flag is neither `BrowseMetadata` nor `BrowseDirectChildren`, or if the object itself is asked
///   from a place above 0.
/// - `NoObject` exactly if no object has the id, in plain decimal.
/// - `NoContainer` exactly if children of a track are asked.
/// - `BadSort` exactly if `SortKeys::read` refuses the sort criteria.
pub fn browse<V: View>(alloc: Global, view: &V, asked: &BrowseRequest) -> Result<Page, BrowseError>
    ensures answers { Answers (browse_answer (V.number view.now) (V.rows view.now) asked.now) result }
    ensures afresh { (history : History) → ShowsHistory (V.number view.now) (V.rows view.now) history →
        Answers (browse_answer (end_of history) (catalog history) asked.now) result }
{
    answer(alloc, view, asked)
}

/// Returns the page, or the refusal, by the checks in their order.
fn answer<V: View>(alloc: Global, view: &V, asked: &BrowseRequest) -> Result<Page, BrowseError>
    ensures { Answers (browse_answer (V.number view.now) (V.rows view.now) asked.now) result }
{
    let Some(target) = target_asked(asked) else {
        return Err(BrowseError::InvalidArgs);
    };
    let Some(row) = named(alloc, view, asked.object.as_str())? else {
        return Err(BrowseError::NoObject);
    };
    if !can_answer(target, row) {
        return Err(BrowseError::NoContainer);
    }
    let keys = SortKeys::read(alloc, asked.sort.as_str())?;
    let page = page_of(alloc, view, target, row, &keys, asked)?;
    Ok(page)
}

/// Returns what is asked of an object, by the flag.
fn target_named(flag: &str) -> Option<Target>
    ensures { result ≡ target_named flag.now }
{
    if flag == "BrowseMetadata" {
        Some(Target::Itself)
    } else if flag == "BrowseDirectChildren" {
        Some(Target::Children)
    } else {
        None
    }
}

/// Returns what is asked of an object, if it can be asked from this place on.
fn target_asked(asked: &BrowseRequest) -> Option<Target>
    ensures { result ≡ target_asked asked.now }
{
    match target_named(asked.flag.as_str()) {
        None => None,
        Some(Target::Itself) => if asked.start == 0 {
            Some(Target::Itself)
        } else {
            None
        },
        Some(Target::Children) => Some(Target::Children),
    }
}

/// Returns whether an object has what is asked of it.
fn can_answer(target: Target, row: &Row) -> bool
    ensures { result ≡ can_answer target row.now }
{
    match target {
        Target::Itself => true,
        Target::Children => row.content.is_folder(),
    }
}

/// Returns the page of an object's own row.
fn itself(alloc: Global, id: u32, update: u32) -> Result<Page, Mem>
    ensures { IfOk result (λ page. page ≡ record { ids = id ∷ []; total = 1; update = update }) }
{
    let mut ids = Numbers::new(alloc);
    ids.push(id)?;
    Ok(Page {
        ids,
        total: 1,
        update,
    })
}

/// Returns the page of a container's children, in ascending order of ids.
fn children<V: View>(
    alloc: Global,
    view: &V,
    id: u32,
    update: u32,
    asked: &BrowseRequest,
) -> Result<Page, Mem>
    requires { is_container_row (row_of id (V.rows view.now)) ≡ true }
    ensures { IfOk result (λ page. page ≡ record {
      ids = ids_of (take (most_rows asked.now.count) (drop asked.now.start (children_of id (V.rows view.now))));
      total = length (children_of id (V.rows view.now));
      update = update;
    }) }
{
    let mut ids = Vec::new(alloc);
    let most = most_rows(asked.count);
    let total = view.children(alloc, id, asked.start, most, &mut ids)?;
    Ok(Page {
        ids: Numbers::from(ids),
        total,
        update,
    })
}

/// Returns the page of a container's children, in the order of keys.
fn sorted<V: View>(
    alloc: Global,
    view: &V,
    row: &Row,
    keys: &SortKeys,
    update: u32,
    asked: &BrowseRequest,
) -> Result<Page, Mem>
    requires { update ≡ update_of (V.number view.now) row.now (V.rows view.now) }
    ensures { IfOk result (λ page.
        page ≡ page_of (V.number view.now) (V.rows view.now) row.now keys.now asked.now.start asked.now.count (children_of row.now.id (V.rows view.now))) }
{
    view.view_facts();
    let ids = ordered_children(alloc, view, row.id.0, keys)?;
    page_among(alloc, ids.as_slice(), asked.start, asked.count, update)
}

/// Returns the page that is asked of an object. The object must have what is asked.
fn page_of<V: View>(
    alloc: Global,
    view: &V,
    target: Target,
    row: &Row,
    keys: &SortKeys,
    asked: &BrowseRequest,
) -> Result<Page, Mem>
    requires stands { row_named asked.now.object (V.rows view.now) ≡ Some row.now }
    requires has { can_answer target row.now ≡ true }
    requires start { target_at asked.now.start (Some target) ≡ Some target }
    ensures { IfOk result (λ page.
        page ≡ page_of (V.number view.now) (V.rows view.now) row.now keys.now asked.now.start asked.now.count (matches target row.now (V.rows view.now))) }
{
    view.view_facts();
    let update = update_of(view, row);
    match target {
        Target::Itself => itself(alloc, row.id.0, update),
        Target::Children => {
            // Without keys the page comes from the index of children.
            if keys.is_empty() {
                children(alloc, view, row.id.0, update, asked)
            } else {
                sorted(alloc, view, row, keys, update, asked)
            }
        }
    }
}
