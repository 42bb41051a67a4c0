//! Search over a view: the checks, and the page.

ghost use Rattle.std.specs.Prelude.{◌≡◌, IfOk, option_copied};
ghost use Rattle.cds_catalog.specs.Catalog.{catalog};
ghost use Rattle.cds_catalog.specs.History.{History, end_of};
ghost use Rattle.cds_store.specs.Views.{ShowsHistory};
ghost use Rattle.cds_browse.specs.Paging.{row_named, page_of, Answers};
ghost use Rattle.cds_browse.specs.Searching.{container_in, found_in, search_answer};

use crate::ordered::ordered_matches;
use crate::paging::{named, page_among, update_of};
use crate::{BrowseError, Page};
use cds_base::Mem;
use cds_criteria::{SearchCriteria, SortKeys};
use cds_object::Row;
use cds_soap::SearchRequest;
use cds_store::View;
use std::alloc::Global;

/// Returns the page that Search asks for, over the rows of a view: the objects below a container that meet the criteria. The
/// checks come in this order:
///
/// - `NoContainer` exactly if no container has the id, in plain decimal.
/// - `BadCriteria` exactly if `SearchCriteria::read` refuses the search criteria.
/// - `BadSort` exactly if `SortKeys::read` refuses the sort criteria.
pub fn search<V: View>(alloc: Global, view: &V, asked: &SearchRequest) -> Result<Page, BrowseError>
    ensures answers { Answers (search_answer (V.number view.now) (V.rows view.now) asked.now) result }
    ensures afresh { (history : History) → ShowsHistory (V.number view.now) (V.rows view.now) history →
        Answers (search_answer (end_of history) (catalog history) asked.now) result }
{
    answer(alloc, view, asked)
}

/// Returns the page, or the refusal, by the checks in their order.
fn answer<V: View>(alloc: Global, view: &V, asked: &SearchRequest) -> Result<Page, BrowseError>
    ensures { Answers (search_answer (V.number view.now) (V.rows view.now) asked.now) result }
{
    let Some(row) = container(alloc, view, asked.container.as_str())? else {
        return Err(BrowseError::NoContainer);
    };
    let criteria = SearchCriteria::read(alloc, asked.criteria.as_str())?;
    let keys = SortKeys::read(alloc, asked.sort.as_str())?;
    let page = page_of(alloc, view, row, &criteria, &keys, asked)?;
    Ok(page)
}

/// Returns the row of the container whose id is this text.
fn container<'a, V: View>(alloc: Global, view: &'a V, text: &str) -> Result<Option<&'a Row>, Mem>
    ensures { IfOk result (λ row. option_copied row ≡ container_in (row_named text.now (V.rows view.now))) }
{
    match named(alloc, view, text)? {
        None => Ok(None),
        Some(row) => if row.content.is_folder() {
            Ok(Some(row))
        } else {
            Ok(None)
        },
    }
}

/// Returns the page of the objects below a container that meet the criteria, in the order of keys.
fn page_of<V: View>(
    alloc: Global,
    view: &V,
    row: &Row,
    criteria: &SearchCriteria,
    keys: &SortKeys,
    asked: &SearchRequest,
) -> Result<Page, Mem>
    ensures { IfOk result (λ page.
        page ≡ page_of (V.number view.now) (V.rows view.now) row.now keys.now asked.now.start asked.now.count (found_in criteria.now row.now.id (V.rows view.now))) }
{
    view.view_facts();
    let update = update_of(view, row);
    let ids = ordered_matches(alloc, view, row.id.0, criteria, keys)?;
    page_among(alloc, ids.as_slice(), asked.start, asked.count, update)
}
