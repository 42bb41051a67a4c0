//! How elements of DIDL-Lite are read as rows.

ghost use Rattle.std.specs.Prelude.{◌≡◌, IfOk, codes, option_copied};
ghost use Rattle.cds_markup.specs.Children.{nodes_in, elements_in, element_in, is_named};
ghost use Rattle.cds_didl.specs.Spelled.{didl_space};
ghost use Rattle.cds_didl.specs.Reading.{trackers_of, container_of, content_with, item_of};
ghost use Rattle.cds_didl.specs.Didl.{row_or, row_said, rows_from, rows_said, FindsRow, FindsRows};

use crate::error::Fault;
use crate::properties::{is_container, is_track, number_needed, number_said, parent_said, title};
use crate::resource::{Sound, resource_of, sound_of};
use crate::work::{Work, work_of};
use cds_base::Mem;
use cds_markup::{Element, Node};
use cds_object::{Content, ObjectId, Row, Rows, TrackContent, Trackers};
use std::alloc::Global;

/// Returns how a container tracks the changes of its children.
#[tactic(auto, unfolding(crate::specs::Reading::trackers_of))]
fn trackers_of(alloc: Global, element: &Element) -> Result<Option<Trackers>, Mem>
    ensures { IfOk result (λ trackers. trackers ≡ trackers_of element.now) }
{
    let child_count = match number_said(element, "childCount") {
        Some(child_count) => child_count,
        None => return Ok(None),
    };
    let container_update = match number_needed(alloc, element, "containerUpdateID")? {
        Some(container_update) => container_update,
        None => return Ok(None),
    };
    let deleted = match number_needed(alloc, element, "totalDeletedChildCount")? {
        Some(deleted) => deleted,
        None => return Ok(None),
    };
    Ok(Some(Trackers {
        container_update,
        child_count,
        deleted,
    }))
}

/// Returns the row of a container.
#[tactic(auto, unfolding(crate::specs::Reading::container_of))]
fn container_of(alloc: Global, element: &Element) -> Result<Option<Row>, Mem>
    ensures { IfOk result (λ row. row ≡ container_of element.now) }
{
    let id = match number_said(element, "id") {
        Some(id) => id,
        None => return Ok(None),
    };
    let parent = match parent_said(id, element) {
        Some(parent) => parent,
        None => return Ok(None),
    };
    let title = match title(alloc, element)? {
        Some(title) => title,
        None => return Ok(None),
    };
    match is_container(alloc, element)? {
        Some(()) => (),
        None => return Ok(None),
    }
    let object_update = match number_needed(alloc, element, "objectUpdateID")? {
        Some(object_update) => object_update,
        None => return Ok(None),
    };
    let trackers = match trackers_of(alloc, element)? {
        Some(trackers) => trackers,
        None => return Ok(None),
    };
    Ok(Some(Row {
        id: ObjectId(id),
        parent,
        content: Content::Folder { title },
        object_update,
        trackers: Some(trackers),
    }))
}

/// Returns what a track says, by its work and its sound.
fn content_with(work: Work, sound: &Sound) -> Content
    ensures { result ≡ content_with work sound.now }
{
    Content::Track(TrackContent {
        title: work.title,
        artist: work.artist,
        album: work.album,
        genre: work.genre,
        number: work.number,
        size: sound.size,
        duration: sound.duration,
        rate: sound.rate,
        channels: sound.channels,
        bits: sound.bits,
    })
}

/// Returns the row of an item.
#[tactic(auto, unfolding(crate::specs::Reading::item_of))]
fn item_of(alloc: Global, element: &Element) -> Result<Option<Row>, Mem>
    ensures { IfOk result (λ row. row ≡ item_of element.now) }
{
    let id = match number_said(element, "id") {
        Some(id) => id,
        None => return Ok(None),
    };
    let parent = match parent_said(id, element) {
        Some(parent) => parent,
        None => return Ok(None),
    };
    match is_track(alloc, element)? {
        Some(()) => (),
        None => return Ok(None),
    }
    let object_update = match number_needed(alloc, element, "objectUpdateID")? {
        Some(object_update) => object_update,
        None => return Ok(None),
    };
    let work = match work_of(alloc, element)? {
        Some(work) => work,
        None => return Ok(None),
    };
    let resource = match resource_of(alloc, id, element)? {
        Some(resource) => resource,
        None => return Ok(None),
    };
    let sound = match sound_of(resource) {
        Some(sound) => sound,
        None => return Ok(None),
    };
    Ok(Some(Row {
        id: ObjectId(id),
        parent,
        content: content_with(work, &sound),
        object_update,
        trackers: None,
    }))
}

/// Returns whether an element has this name in the namespace of DIDL-Lite.
#[tactic(auto, unfolding(crate::specs::Spelled::didl_space))]
fn is_didl(element: &Element, local: &str) -> bool
    ensures { result ≡ is_named didl_space local.now element.now }
{
    element.is_named("urn:schemas-upnp-org:metadata-1-0/DIDL-Lite/", local)
}

/// Returns the row. If there is none, refuses the child with this number.
fn row_or(number: usize, row: Option<Row>) -> Result<Row, Fault>
    ensures { result ≡ row_or number row }
{
    match row {
        Some(row) => Ok(row),
        None => Err(Fault::BadRow { number }),
    }
}

/// Returns the row that the child with this number says.
#[tactic(auto, unfolding(crate::specs::Didl::row_said))]
fn row_said(alloc: Global, number: usize, element: &Element) -> Result<Row, Fault>
    ensures { FindsRow (row_said number element.now) result }
{
    if is_didl(element, "container") {
        let row = container_of(alloc, element)?;
        return row_or(number, row);
    }
    if is_didl(element, "item") {
        let row = item_of(alloc, element)?;
        return row_or(number, row);
    }
    Err(Fault::NotRow { number })
}

/// Returns the element that a node is, if it is one.
fn element_in(node: &Node) -> Option<&Element>
    ensures { option_copied result ≡ element_in node.now }
{
    match node {
        Node::Text(_) => None,
        Node::Child(element) => Some(element),
    }
}

/// Returns the rows of the elements among nodes.
fn rows_in(alloc: Global, nodes: &[Node]) -> Result<Rows, Fault>
    ensures { FindsRows (rows_from 0 (elements_in nodes.now)) result }
{
    let mut rows = Rows::new(alloc);
    let mut number = 0;
    for node in nodes {
        match element_in(node) {
            Some(element) => {
                let row = row_said(alloc, number, element)?;
                rows.push(row)?;
                number += 1;
            }
            None => (),
        }
    }
    Ok(rows)
}

/// Returns the rows that a document's element says.
#[tactic(auto, unfolding(crate::specs::Didl::rows_said))]
pub fn rows_said(alloc: Global, element: &Element) -> Result<Rows, Fault>
    ensures { FindsRows (rows_said element.now) result }
{
    if is_didl(element, "DIDL-Lite") {
        rows_in(alloc, element.children.as_slice())
    } else {
        Err(Fault::Root)
    }
}
