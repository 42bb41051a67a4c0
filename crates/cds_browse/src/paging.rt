//! The object that a text names, its update number, and pages of ids.

ghost use Rattle.std.specs.Prelude.{◌≡◌, ◌<◌, ◌^◌, length, take, drop, IfOk, option_copied};
ghost use Rattle.std.specs.Str.{bytes_eq};
ghost use Rattle.std.specs.Fmt.{decimal};
ghost use Rattle.cds_object.specs.Updates.{holder_of, container_update_in, container_update_of, update_of};
ghost use Rattle.cds_browse.specs.Paging.{row_named, most_rows};

use crate::{PAGE_LIMIT, Page};
use cds_base::{Mem, Numbers, put_number, read_u32};
use cds_object::Row;
use cds_store::View;
use std::alloc::Global;

/// Returns whether a text is a number in plain decimal.
fn is_decimal_of(alloc: Global, text: &str, number: u32) -> Result<bool, Mem>
    ensures { IfOk result (λ is. is ≡ bytes_eq text.now (decimal number)) }
{
    let mut written = String::new(alloc);
    put_number(&mut written, u64::from(number))?;
    Ok(text == written.as_str())
}

/// Returns the row of the object whose id is this text.
pub(crate) fn named<'a, V: View>(
    alloc: Global,
    view: &'a V,
    text: &str,
) -> Result<Option<&'a Row>, Mem>
    ensures { IfOk result (λ row. option_copied row ≡ row_named text.now (V.rows view.now)) }
{
    view.view_facts();
    let Some(id) = read_u32(text.as_bytes()) else {
        return Ok(None);
    };
    if is_decimal_of(alloc, text, id)? {
        Ok(view.get(id))
    } else {
        Ok(None)
    }
}

/// Returns the row of a row's parent.
fn holder_of<'a, V: View>(view: &'a V, row: &Row) -> Option<&'a Row>
    ensures { option_copied result ≡ holder_of row.now.parent (V.rows view.now) }
{
    match row.parent {
        None => None,
        Some(parent) => view.get(parent.0),
    }
}

/// Returns the containerUpdateID of a row, and 0 if it has none.
fn container_update_in(row: &Row) -> u32
    ensures { result ≡ container_update_in row.now.trackers }
{
    match row.trackers {
        None => 0,
        Some(trackers) => trackers.container_update,
    }
}

/// Returns the containerUpdateID of a container, and 0 if there is none.
fn container_update_of(row: Option<&Row>) -> u32
    ensures { result ≡ container_update_of (option_copied row.entry) }
{
    match row {
        None => 0,
        Some(row) => container_update_in(row),
    }
}

/// Returns the update number of an object.
pub(crate) fn update_of<V: View>(view: &V, row: &Row) -> u32
    ensures { result ≡ update_of (V.number view.now) row.now (V.rows view.now) }
{
    if row.id.0 == 0 {
        view.system_update_id()
    } else if row.content.is_folder() {
        container_update_in(row)
    } else {
        container_update_of(holder_of(view, row))
    }
}

/// Returns the largest number of rows of a page, for a count. A count of 0 stands for the longest page.
pub(crate) fn most_rows(count: u32) -> u32
    ensures { result ≡ most_rows count }
{
    if count == 0 {
        PAGE_LIMIT
    } else {
        count.min(PAGE_LIMIT)
    }
}

/// Returns at most `count` of the ids, from the place `start` on.
fn slice_of(ids: &[u32], start: u32, count: u32) -> &[u32]
    ensures { result.now ≡ take count (drop start ids.now) }
{
    let (_, rest) = ids.split_at(ids.len().min(start as usize));
    let (page, _) = rest.split_at(rest.len().min(count as usize));
    page
}

/// Returns the page of all ids that match, which stand in their order.
pub(crate) fn page_among(
    alloc: Global,
    ids: &[u32],
    start: u32,
    count: u32,
    update: u32,
) -> Result<Page, Mem>
    requires { length ids.now < 2 ^ 32 }
    ensures { IfOk result (λ page. page ≡ record { ids = take (most_rows count) (drop start ids.now); total = length ids.now; update = update }) }
{
    let mut page = Vec::new(alloc);
    page.extend_from_slice(slice_of(ids, start, most_rows(count)))?;
    Ok(Page {
        ids: Numbers::from(page),
        total: ids.len() as u32,
        update,
    })
}
