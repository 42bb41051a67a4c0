//! What is made of actions, over what is published.

ghost use Rattle.std.specs.Prelude.{◌≡◌, ◌≤◌, [], ◌∷◌, ◌++◌, length, Ok, IfOk, OnOk};
ghost use Rattle.cds_browse.specs.Browsing.{browse_answer};
ghost use Rattle.cds_browse.specs.Paging.{longest_page};
ghost use Rattle.cds_browse.specs.Searching.{search_answer};
ghost use Rattle.cds_soap.specs.declared.answer.Answer.TheVariants as answer;
ghost use Rattle.cds_control.specs.Answering.{code_of, rows_with};
ghost use Rattle.cds_control.specs.Capabilities.{search_capabilities, sort_capabilities};
ghost use Rattle.cds_control.specs.Making.{made_page, made_to};
ghost use Rattle.cds_control.specs.declared.made.Made.TheVariants as make;

use crate::made::Made;
use cds_base::{Mem, Text};
use cds_browse::{BrowseError, Page, browse, search};
use cds_object::{Row, Rows};
use cds_soap::{Action, Answer, BrowseRequest, SearchRequest};
use cds_store::View;
use std::alloc::Global;

/// Returns what is made of an action over what a view shows, with a reset token. The rows of a page are only copied.
/// `write_made` writes the rest.
pub fn made_to<V: View>(alloc: Global, view: &V, token: &str, action: &Action) -> Result<Made, Mem>
    ensures { IfOk result (λ made.
        made ≡ made_to (record { token = token.now; number = V.number view.now; rows = V.rows view.now }) action.now) }
{
    match action {
        Action::Browse(asked) => browsed(alloc, view, asked),
        Action::Search(asked) => searched(alloc, view, asked),
        Action::GetSystemUpdateId => Ok(Made::Answer(Answer::Number(view.system_update_id()))),
        Action::GetServiceResetToken => told(alloc, token),
        Action::GetSearchCapabilities => search_capabilities(alloc),
        Action::GetSortCapabilities => sort_capabilities(alloc),
    }
}

/// Returns a fault.
fn fault(code: u16) -> Made
    ensures { result ≡ make.Answer (answer.Fault code) }
{
    Made::Answer(Answer::Fault { code })
}

/// Returns a text, as an answer.
fn told(alloc: Global, text: &str) -> Result<Made, Mem>
    ensures { IfOk result (λ made. made ≡ make.Answer (answer.Text text.now)) }
{
    let text = Text::read(alloc, text)?;
    Ok(Made::Answer(Answer::Text(text)))
}

/// Returns the names of the properties that can be searched for, as an answer.
fn search_capabilities(alloc: Global) -> Result<Made, Mem>
    ensures { IfOk result (λ made. made ≡ make.Answer (answer.Text search_capabilities)) }
{
    told(
        alloc,
        "@id,@parentID,dc:title,upnp:class,upnp:artist,upnp:album,upnp:genre,upnp:originalTrackNumber,upnp:objectUpdateID,\
         upnp:containerUpdateID,res@size,res@duration",
    )
}

/// Returns the names of the properties that can be sorted by, as an answer.
fn sort_capabilities(alloc: Global) -> Result<Made, Mem>
    ensures { IfOk result (λ made. made ≡ make.Answer (answer.Text sort_capabilities)) }
{
    told(
        alloc,
        "dc:title,upnp:artist,upnp:album,upnp:genre,upnp:originalTrackNumber,upnp:objectUpdateID",
    )
}

/// Returns the code of a refusal.
fn code_of(refusal: BrowseError) -> u16
    ensures { result ≡ code_of refusal }
{
    match refusal {
        BrowseError::InvalidArgs => 402,
        BrowseError::NoObject => 701,
        BrowseError::NoContainer => 710,
        BrowseError::BadCriteria { .. } => 708,
        BrowseError::BadSort { .. } => 709,
        BrowseError::Mem => 603,
    }
}

/// Returns what is made of Browse.
fn browsed<V: View>(alloc: Global, view: &V, asked: &BrowseRequest) -> Result<Made, Mem>
    ensures { IfOk result (λ made. made ≡ made_page (V.rows view.now) (browse_answer (V.number view.now) (V.rows view.now) asked.now)) }
{
    match browse(alloc, view, asked) {
        Ok(page) => page_made(alloc, view, &page),
        Err(BrowseError::Mem) => Err(Mem),
        Err(refusal) => Ok(fault(code_of(refusal))),
    }
}

/// Returns what is made of Search.
fn searched<V: View>(alloc: Global, view: &V, asked: &SearchRequest) -> Result<Made, Mem>
    ensures { IfOk result (λ made. made ≡ made_page (V.rows view.now) (search_answer (V.number view.now) (V.rows view.now) asked.now)) }
{
    match search(alloc, view, asked) {
        Ok(page) => page_made(alloc, view, &page),
        Err(BrowseError::Mem) => Err(Mem),
        Err(refusal) => Ok(fault(code_of(refusal))),
    }
}

/// Returns a page with copies of its rows.
fn page_made<V: View>(alloc: Global, view: &V, page: &Page) -> Result<Made, Mem>
    requires few { length page.now.ids ≤ longest_page }
    ensures { IfOk result (λ made. made ≡ made_page (V.rows view.now) (Ok page.now)) }
{
    let rows = copies(alloc, view, page.ids.as_slice())?;
    Ok(Made::Page {
        rows,
        returned: page.ids.len() as u32,
        total: page.total,
        update: page.update,
    })
}

/// Returns copies of the rows of these ids.
fn copies<V: View>(alloc: Global, view: &V, ids: &[u32]) -> Result<Rows, Mem>
    ensures { IfOk result (λ rows. rows ≡ rows_with ids.now (V.rows view.now)) }
{
    let mut rows = Vec::new(alloc);
    rows.reserve(ids.len())?;
    for id in ids {
        push_copy(alloc, view, *id, &mut rows)?;
    }
    Ok(Rows::from(rows))
}

/// Appends a copy of the row of an id.
fn push_copy<V: View>(alloc: Global, view: &V, id: u32, rows: &mut Vec<Row>) -> Result<(), Mem>
    ensures { OnOk result (rows.new.items ≡ rows.old.items ++ rows_with (id ∷ []) (V.rows view.now)) }
{
    match view.get(id) {
        None => Ok(()),
        Some(row) => {
            let copy = row.copy(alloc)?;
            rows.push(copy)?;
            Ok(())
        }
    }
}
