//! How the properties of objects are read from elements and attributes.

ghost use Rattle.std.specs.Prelude.{◌≡◌, ◌==◌, ◌^◌, IfOk, IfSome, codes, is_none, option_map};
ghost use Rattle.cds_base.specs.Number.{number_below};
ghost use Rattle.cds_markup.specs.Children.{is_any, named, nodes_in};
ghost use Rattle.cds_didl.specs.Spelled.{dc_space, upnp_space, container_class, track_class};
ghost use Rattle.cds_didl.specs.Reading.{needed, maybe, number_said, number_needed, number_there, number_maybe, parent_in, parent_said, class_said};

use cds_base::{Mem, Text, read_u32, read_u64};
use cds_markup::Element;
use cds_object::ObjectId;
use std::alloc::Global;

/// Returns the text of the child that must come once.
pub fn needed(
    alloc: Global,
    element: &Element,
    space: &str,
    local: &str,
) -> Result<Option<Text>, Mem>
    ensures { IfOk result (λ text. text ≡ needed space.now local.now element.now) }
{
    match element.only_child(space, local) {
        Some(child) => Ok(Some(child.own_text(alloc)?)),
        None => Ok(None),
    }
}

/// Returns the text of the title, which must come once.
#[tactic(auto, unfolding(crate::specs::Spelled::dc_space))]
pub fn title(alloc: Global, element: &Element) -> Result<Option<Text>, Mem>
    ensures { IfOk result (λ text. text ≡ needed dc_space (codes "title") element.now) }
{
    needed(alloc, element, "http://purl.org/dc/elements/1.1/", "title")
}

/// Returns the text of a property of UPnP that must come once.
#[tactic(auto, unfolding(crate::specs::Spelled::upnp_space))]
fn upnp(alloc: Global, element: &Element, local: &str) -> Result<Option<Text>, Mem>
    ensures { IfOk result (λ text. text ≡ needed upnp_space local.now element.now) }
{
    needed(
        alloc,
        element,
        "urn:schemas-upnp-org:metadata-1-0/upnp/",
        local,
    )
}

/// Returns whether a property of UPnP is there.
#[tactic(auto, unfolding(crate::specs::Spelled::upnp_space))]
fn has_upnp(element: &Element, local: &str) -> bool
    ensures { result ≡ is_any (named upnp_space local.now (nodes_in element.now)) }
{
    element.has_child("urn:schemas-upnp-org:metadata-1-0/upnp/", local)
}

/// Returns the text of a property of UPnP that may be missing. The outer `None` means that it comes more than once.
pub fn maybe_upnp(
    alloc: Global,
    element: &Element,
    local: &str,
) -> Result<Option<Option<Text>>, Mem>
    ensures { IfOk result (λ text. text ≡ maybe upnp_space local.now element.now) }
{
    if !has_upnp(element, local) {
        return Ok(Some(None));
    }
    match upnp(alloc, element, local)? {
        Some(text) => Ok(Some(Some(text))),
        None => Ok(None),
    }
}

/// Returns the number of 32 bits that an attribute is.
pub fn number_said(element: &Element, local: &str) -> Option<u32>
    ensures { result ≡ number_said (2 ^ 32) local.now element.now }
{
    match element.plain_attr(local) {
        Some(text) => read_u32(text.as_str().as_bytes()),
        None => None,
    }
}

/// Returns the number of 64 bits that an attribute is.
pub fn long_number_said(element: &Element, local: &str) -> Option<u64>
    ensures { result ≡ number_said (2 ^ 64) local.now element.now }
{
    match element.plain_attr(local) {
        Some(text) => read_u64(text.as_str().as_bytes()),
        None => None,
    }
}

/// Returns the number up to 255 that digits are.
fn read_byte(digits: &[u8]) -> Option<u8>
    ensures { result ≡ number_below (2 ^ 8) digits.now }
{
    match read_u32(digits) {
        Some(value) if value <= u32::from(u8::MAX) => Some(value as u8),
        _ => None,
    }
}

/// Returns the number up to 255 that an attribute is.
pub fn byte_said(element: &Element, local: &str) -> Option<u8>
    ensures { result ≡ number_said (2 ^ 8) local.now element.now }
{
    match element.plain_attr(local) {
        Some(text) => read_byte(text.as_str().as_bytes()),
        None => None,
    }
}

/// Returns the number of 32 bits of a property of UPnP that must come once.
pub fn number_needed(alloc: Global, element: &Element, local: &str) -> Result<Option<u32>, Mem>
    ensures { IfOk result (λ number. number ≡ number_needed local.now element.now) }
{
    match upnp(alloc, element, local)? {
        Some(text) => Ok(read_u32(text.as_str().as_bytes())),
        None => Ok(None),
    }
}

/// Returns the number of 32 bits that a text is, if there is a text. The outer `None` means that the text is no such number.
fn number_there(text: &Option<Text>) -> Option<Option<u32>>
    ensures { result ≡ number_there text.now }
{
    match text {
        None => Some(None),
        Some(text) => match read_u32(text.as_str().as_bytes()) {
            Some(number) => Some(Some(number)),
            None => None,
        },
    }
}

/// Returns the number of 32 bits of a property of UPnP that may be missing. The outer `None` means that it is not in its form.
pub fn number_maybe(
    alloc: Global,
    element: &Element,
    local: &str,
) -> Result<Option<Option<u32>>, Mem>
    ensures { IfOk result (λ number. number ≡ number_maybe local.now element.now) }
{
    match maybe_upnp(alloc, element, local)? {
        Some(text) => Ok(number_there(&text)),
        None => Ok(None),
    }
}

/// Returns the parent that a text is. The root has id 0 and no parent, and its text is `-1`. The outer `None` means that the text
/// is not in its form.
fn parent_in(id: u32, text: &str) -> Option<Option<ObjectId>>
    ensures exact { option_map (λ parent. option_map (λ p. p.0) parent) result ≡ parent_in id text.now }
    ensures rooted { IfSome result (λ parent. is_none (option_map (λ p. p.0) parent) ≡ (id == 0)) }
{
    if id == 0 {
        return if text == "-1" { Some(None) } else { None };
    }
    match read_u32(text.as_bytes()) {
        Some(parent) => Some(Some(ObjectId(parent))),
        None => None,
    }
}

/// Returns the parent of an object, which is none for the root. The outer `None` means that it is not in its form.
pub fn parent_said(id: u32, element: &Element) -> Option<Option<ObjectId>>
    ensures exact { option_map (λ parent. option_map (λ p. p.0) parent) result ≡ parent_said id element.now }
    ensures rooted { IfSome result (λ parent. is_none (option_map (λ p. p.0) parent) ≡ (id == 0)) }
{
    match element.plain_attr("parentID") {
        Some(text) => parent_in(id, text.as_str()),
        None => None,
    }
}

/// Returns `Some` if the class is this one.
fn is_class(alloc: Global, element: &Element, class: &str) -> Result<Option<()>, Mem>
    ensures { IfOk result (λ said. said ≡ class_said class.now element.now) }
{
    match upnp(alloc, element, "class")? {
        Some(text) if text.as_str() == class => Ok(Some(())),
        _ => Ok(None),
    }
}

/// Returns `Some` if the class is that of containers.
#[tactic(auto, unfolding(crate::specs::Spelled::container_class))]
pub fn is_container(alloc: Global, element: &Element) -> Result<Option<()>, Mem>
    ensures { IfOk result (λ said. said ≡ class_said container_class element.now) }
{
    is_class(alloc, element, "object.container")
}

/// Returns `Some` if the class is that of tracks.
#[tactic(auto, unfolding(crate::specs::Spelled::track_class))]
pub fn is_track(alloc: Global, element: &Element) -> Result<Option<()>, Mem>
    ensures { IfOk result (λ said. said ≡ class_said track_class element.now) }
{
    is_class(alloc, element, "object.item.audioItem.musicTrack")
}
