//! The resource of a track: where its bytes are, and what they are.

ghost use Rattle.std.specs.Prelude.{◌≡◌, ◌==◌, IfOk, codes, option_copied, string_bytes};
ghost use Rattle.std.specs.List.{ends_with};
ghost use Rattle.cds_markup.specs.Children.{named, nodes_in, only_of};
ghost use Rattle.cds_didl.specs.Spelled.{didl_space};
ghost use Rattle.cds_didl.specs.Reading.{own_text, duration_there, duration_said, rate_there, rate_said, media_path, where_media, resource_of, sound_of};

use crate::duration::duration_read;
use crate::properties::{byte_said, long_number_said};
use cds_base::{Mem, Text, put, put_number, read_u32};
use cds_markup::Element;
use std::alloc::Global;

/// What a resource says of the sound.
#[derive(Clone, Copy)]
pub struct Sound {
    pub size: u64,
    pub duration: Option<u64>,
    pub rate: u32,
    pub bits: u8,
    pub channels: u8,
}

/// Returns the duration in milliseconds, if there is one. The outer `None` means that it is not in its form.
fn duration_said(resource: &Element) -> Option<Option<u64>>
    ensures { result ≡ duration_said resource.now }
{
    match resource.plain_attr("duration") {
        None => Some(None),
        Some(text) => match duration_read(text.as_str().as_bytes()) {
            Some(milliseconds) => Some(Some(milliseconds)),
            None => None,
        },
    }
}

/// Returns the samples in a second, or 0 if nothing is said of them.
fn rate_said(resource: &Element) -> Option<u32>
    ensures { result ≡ rate_said resource.now }
{
    match resource.plain_attr("sampleFrequency") {
        None => Some(0),
        Some(text) => read_u32(text.as_str().as_bytes()),
    }
}

/// Returns what a resource says of the sound.
#[tactic(auto, unfolding(crate::specs::Reading::sound_of))]
pub fn sound_of(resource: &Element) -> Option<Sound>
    ensures { result ≡ sound_of resource.now }
{
    let size = long_number_said(resource, "size")?;
    let duration = duration_said(resource)?;
    let rate = rate_said(resource)?;
    let bits = byte_said(resource, "bitsPerSample")?;
    let channels = byte_said(resource, "nrAudioChannels")?;
    Some(Sound {
        size,
        duration,
        rate,
        bits,
        channels,
    })
}

/// Returns the path that the place of an object's bytes ends with.
fn media_path(alloc: Global, id: u32) -> Result<String, Mem>
    ensures { IfOk result (λ path. string_bytes path ≡ media_path id) }
{
    let mut path = String::new(alloc);
    put(&mut path, "/media/")?;
    put_number(&mut path, u64::from(id))?;
    Ok(path)
}

/// Returns whether a text ends with this one.
fn ends_so(text: &[u8], end: &[u8]) -> bool
    ensures { result ≡ ends_with (λ a b. a == b) text.now end.now }
{
    text.ends_with(end)
}

/// Returns whether the place of a resource ends with the path of this object.
fn is_media(alloc: Global, id: u32, resource: &Element) -> Result<bool, Mem>
    ensures { IfOk result (λ is. is ≡ ends_with (λ a b. a == b) (own_text resource.now) (media_path id)) }
{
    let path = media_path(alloc, id)?;
    let text = resource.own_text(alloc)?;
    Ok(ends_so(text.as_str().as_bytes(), path.as_str().as_bytes()))
}

/// Returns the child that is a resource, which must come once.
#[tactic(auto, unfolding(crate::specs::Spelled::didl_space))]
fn only_resource(element: &Element) -> Option<&Element>
    ensures { option_copied result ≡ only_of (named didl_space (codes "res") (nodes_in element.now)) }
{
    element.only_child("urn:schemas-upnp-org:metadata-1-0/DIDL-Lite/", "res")
}

/// Returns the resource of an item with this id.
pub fn resource_of(alloc: Global, id: u32, element: &Element) -> Result<Option<&Element>, Mem>
    ensures { IfOk result (λ resource. option_copied resource ≡ resource_of id element.now) }
{
    match only_resource(element) {
        Some(resource) if is_media(alloc, id, resource)? => Ok(Some(resource)),
        _ => Ok(None),
    }
}
