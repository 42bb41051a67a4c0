//! The filter that says which properties of objects are written.

ghost use Rattle.std.specs.Prelude.{◌≡◌, ◌==◌, ◌≤◌, ◌&&◌, ◌++◌, ◌∷◌, [], not, IfOk, OnOk, None, length, map};
ghost use Rattle.std.specs.List.{filter_map, prefix_len};
ghost use Rattle.cds_didl.specs.Filter.{without_front, without_back, trimmed, names_of, has_name, is_known, HaveTheKnown, name_in, known_in, filter_of, wants, wants_either, wants_resource};

use cds_base::{Bytes, Mem, Sequence};
use std::alloc::Global;
use std::marker::Model;

/// The names of all properties that a filter can leave out of an object. Of a text's names a filter keeps only these.
const KNOWN: [&str; 18] = [
    "@searchable",
    "container@searchable",
    "@childCount",
    "container@childCount",
    "upnp:objectUpdateID",
    "upnp:containerUpdateID",
    "upnp:totalDeletedChildCount",
    "upnp:artist",
    "upnp:album",
    "upnp:genre",
    "upnp:originalTrackNumber",
    "res",
    "res@protocolInfo",
    "res@size",
    "res@duration",
    "res@sampleFrequency",
    "res@bitsPerSample",
    "res@nrAudioChannels",
];

/// Says which properties are written of objects (UPnP ContentDirectory:4 on the filter of Browse and Search). Contracts see the
/// known names that it has, or `None` if it lets everything through.
#[derive(Drop, Debug)]
pub struct Filter {
    names: Option<Sequence<Bytes>>,
}

impl Model for Filter {
    ghost use Rattle.std.specs.Prelude.{ℕ, List, Option};

    ghost Value = { Option (List (List ℕ)) };

    ghost view = { λ f. f.names };
}

impl Filter {
    /// Returns the filter that lets everything through.
    pub fn all() -> Self
        ensures { result ≡ None }
    {
        Filter { names: None }
    }

    /// Reads the filter that a text is. `*` lets everything through. Any other text has names with commas between them, and
    /// spaces around a name are passed over. A name of no property says nothing and is not kept, so a filter has at most 18.
    #[tactic(auto, unfolding(crate::specs::Filter::filter_of))]
    pub fn read(alloc: Global, text: &str) -> Result<Self, Mem>
        ensures { IfOk result (λ filter. filter ≡ filter_of text.now) }
    {
        if text == "*" {
            return Ok(Filter { names: None });
        }
        let names = known_names(alloc, text.as_bytes())?;
        Ok(Filter { names: Some(names) })
    }

    /// Returns whether a property of this name is written.
    pub fn wants(&self, name: &str) -> bool
        ensures { result ≡ wants self.now name.now }
    {
        match &self.names {
            None => true,
            Some(names) => has_name(names.as_slice(), name.as_bytes()),
        }
    }

    /// Returns whether one of two names is wanted.
    pub fn wants_either(&self, name: &str, other: &str) -> bool
        ensures { result ≡ wants_either self.now name.now other.now }
    {
        self.wants(name) || self.wants(other)
    }

    /// Returns whether anything of a resource is wanted.
    #[tactic(auto, unfolding(crate::specs::Filter::wants_resource))]
    pub fn wants_resource(&self) -> bool
        ensures { result ≡ wants_resource self.now }
    {
        self.wants("res")
            || self.wants("res@protocolInfo")
            || self.wants("res@size")
            || self.wants("res@duration")
            || self.wants("res@sampleFrequency")
            || self.wants("res@bitsPerSample")
            || self.wants("res@nrAudioChannels")
    }
}

/// Returns whether the name is among these.
fn has_name(names: &[Bytes], name: &[u8]) -> bool
    ensures { result ≡ has_name names.now name.now }
{
    names.iter().any(|n| n.as_slice() == name)
}

/// Returns whether an object has a property of this name that a filter can leave out.
#[tactic(auto, unfolding(crate::specs::Filter::is_known))]
fn is_known(name: &[u8]) -> bool
    ensures { result ≡ is_known name.now }
{
    KNOWN.iter().any(|known| known.as_bytes() == name)
}

/// Returns whether a name is known and not yet among these.
fn is_new(found: &[Bytes], name: &[u8]) -> bool
    ensures { result ≡ (is_known name.now && not (has_name found.now name.now)) }
{
    is_known(name) && !has_name(found, name)
}

/// Adds a copy of a name.
fn push_copy(alloc: Global, names: &mut Sequence<Bytes>, name: &[u8]) -> Result<(), Mem>
    ensures { OnOk result (names.new ≡ names.old ++ name.now ∷ []) }
{
    let mut copy = Bytes::new(alloc);
    copy.extend(name)?;
    names.push(copy)
}

/// Adds a copy of a name, if it is known and not yet there.
fn note(alloc: Global, found: &mut Sequence<Bytes>, name: &[u8]) -> Result<(), Mem>
    ensures { OnOk result (HaveTheKnown found.new (found.old ++ name.now ∷ [])) }
{
    if is_new(found.as_slice(), name) {
        push_copy(alloc, found, name)
    } else {
        Ok(())
    }
}

/// Returns whether a byte ends a name.
fn is_comma(byte: u8) -> bool
    ensures { result ≡ (byte == 44) }
{
    byte == b','
}

/// Returns the known names that a text has between its commas, in the order of their first places.
fn found_names(alloc: Global, text: &[u8]) -> Result<Sequence<Bytes>, Mem>
    ensures { IfOk result (λ found. HaveTheKnown found (names_of text.now)) }
{
    let mut found = Sequence::new(alloc);
    for part in text.split(|byte| is_comma(*byte)) {
        note(alloc, &mut found, trimmed(part))?;
    }
    Ok(found)
}

/// Adds a copy of a name, if it was found.
fn push_found(
    alloc: Global,
    names: &mut Sequence<Bytes>,
    found: &[Bytes],
    name: &[u8],
) -> Result<(), Mem>
    ensures { OnOk result (names.new ≡ names.old ++ filter_map (name_in found.now) (name.now ∷ [])) }
{
    if has_name(found, name) {
        push_copy(alloc, names, name)
    } else {
        Ok(())
    }
}

/// Returns those of some names that were found, in their order.
fn in_order(alloc: Global, order: &[&str], found: &[Bytes]) -> Result<Sequence<Bytes>, Mem>
    ensures { IfOk result (λ names. names ≡ filter_map (name_in found.now) (map (λ n. n.now) order.now)) }
{
    let mut names = Sequence::new(alloc);
    for name in order {
        push_found(alloc, &mut names, found, name.as_bytes())?;
    }
    Ok(names)
}

/// Returns the known names that a text has between its commas, in the order of `KNOWN`. The text is gone through once.
fn known_names(alloc: Global, text: &[u8]) -> Result<Sequence<Bytes>, Mem>
    ensures { IfOk result (λ names. names ≡ known_in (names_of text.now)) }
{
    let found = found_names(alloc, text)?;
    in_order(alloc, &KNOWN, found.as_slice())
}

/// Returns the text without the spaces before and after it.
fn trimmed(text: &[u8]) -> &[u8]
    ensures { result.now ≡ trimmed text.now }
{
    without_back(without_front(text))
}

/// Counts the spaces that a text begins with.
fn spaces_before(text: &[u8]) -> usize
    ensures exact { result ≡ prefix_len (λ b. b == 32) text.now }
    ensures within { result ≤ length text.now }
{
    text.iter().take_while(|byte| **byte == b' ').count()
}

/// Returns the text without the spaces at its start.
fn without_front(text: &[u8]) -> &[u8]
    ensures { result.now ≡ without_front text.now }
{
    text.split_at(spaces_before(text)).1
}

/// Returns the text without the spaces at its end.
fn without_back(text: &[u8]) -> &[u8]
    ensures { result.now ≡ without_back text.now }
{
    let mut end = text.len();
    while end > 0 && text[end - 1] == b' ' {
        end -= 1;
    }
    text.split_at(end).0
}
