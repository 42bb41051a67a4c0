//! What elements of a StateEvent say by their names and their attributes.

ghost use Rattle.std.specs.Prelude.{◌≡◌, find, option_copied};
ghost use Rattle.cds_lastchange.specs.Attributes.{is_plain, value_of, number_of, flag_said, flag_of, class_said, class_of, added, modified, deleted, done, event_named, event_of, is_state_event};

use crate::{Class, Event};
use cds_base::read_u32;
use cds_markup::{Attr, Name};

/// The namespace of StateEvents.
const EVENT_SPACE: &str = "urn:schemas-upnp-org:av:cds-event";

/// Returns whether the attribute has this name and no namespace.
fn is_plain(attr: &Attr, local: &str) -> bool
    ensures { result ≡ is_plain local.now attr.now }
{
    attr.name.space.len() == 0 && attr.name.local.as_str() == local
}

/// Returns the first attribute that has this name and no namespace.
fn plain<'a>(attrs: &'a [Attr], local: &str) -> Option<&'a Attr>
    ensures { option_copied result ≡ find (is_plain local.now) attrs.now }
{
    for attr in attrs {
        if is_plain(attr, local) {
            return Some(attr);
        }
    }
    None
}

/// Returns the number of 32 bits that the attribute of this name says.
fn number_of(attrs: &[Attr], local: &str) -> Option<u32>
    ensures { result ≡ number_of local.now attrs.now }
{
    match plain(attrs, local) {
        Some(attr) => read_u32(attr.value.as_str().as_bytes()),
        None => None,
    }
}

/// Returns whether a text says that a change belongs to a subtree update. `0` and `false` say no, `1` and `true` say yes. Any
/// other text gives `None`.
fn flag_said(text: &str) -> Option<bool>
    ensures { result ≡ flag_said text.now }
{
    if text == "0" || text == "false" {
        Some(false)
    } else if text == "1" || text == "true" {
        Some(true)
    } else {
        None
    }
}

/// Returns whether the change belongs to a subtree update, as `stUpdate` says.
#[tactic(auto, unfolding(crate::specs::Attributes::flag_of))]
fn flag_of(attrs: &[Attr]) -> Option<bool>
    ensures { result ≡ flag_of attrs.now }
{
    match plain(attrs, "stUpdate") {
        Some(attr) => flag_said(attr.value.as_str()),
        None => None,
    }
}

/// Returns the class that a text names.
fn class_said(text: &str) -> Option<Class>
    ensures { result ≡ class_said text.now }
{
    if text == "object.container" {
        Some(Class::Container)
    } else if text == "object.item.audioItem.musicTrack" {
        Some(Class::Track)
    } else {
        None
    }
}

/// Returns the class of an added object.
#[tactic(auto, unfolding(crate::specs::Attributes::class_of))]
fn class_of(attrs: &[Attr]) -> Option<Class>
    ensures { result ≡ class_of attrs.now }
{
    match plain(attrs, "objClass") {
        Some(attr) => class_said(attr.value.as_str()),
        None => None,
    }
}

/// Returns the addition that these attributes say.
#[tactic(auto, unfolding(crate::specs::Attributes::added))]
fn added(attrs: &[Attr]) -> Option<Event>
    ensures { result ≡ added attrs.now }
{
    let id = number_of(attrs, "objID")?;
    let update = number_of(attrs, "updateID")?;
    let st = flag_of(attrs)?;
    let parent = number_of(attrs, "objParentID")?;
    let class = class_of(attrs)?;
    Some(Event::ObjAdd {
        id,
        update,
        st,
        parent,
        class,
    })
}

/// Returns the modification that these attributes say.
#[tactic(auto, unfolding(crate::specs::Attributes::modified))]
fn modified(attrs: &[Attr]) -> Option<Event>
    ensures { result ≡ modified attrs.now }
{
    let id = number_of(attrs, "objID")?;
    let update = number_of(attrs, "updateID")?;
    let st = flag_of(attrs)?;
    Some(Event::ObjMod { id, update, st })
}

/// Returns the deletion that these attributes say.
#[tactic(auto, unfolding(crate::specs::Attributes::deleted))]
fn deleted(attrs: &[Attr]) -> Option<Event>
    ensures { result ≡ deleted attrs.now }
{
    let id = number_of(attrs, "objID")?;
    let update = number_of(attrs, "updateID")?;
    let st = flag_of(attrs)?;
    Some(Event::ObjDel { id, update, st })
}

/// Returns the end of a subtree update that these attributes say.
#[tactic(auto, unfolding(crate::specs::Attributes::done))]
fn done(attrs: &[Attr]) -> Option<Event>
    ensures { result ≡ done attrs.now }
{
    let id = number_of(attrs, "objID")?;
    let update = number_of(attrs, "updateID")?;
    Some(Event::StDone { id, update })
}

/// Returns the event of this name in the namespace of StateEvents.
fn event_named(local: &str, attrs: &[Attr]) -> Option<Event>
    ensures { result ≡ event_named local.now attrs.now }
{
    if local == "objAdd" {
        added(attrs)
    } else if local == "objMod" {
        modified(attrs)
    } else if local == "objDel" {
        deleted(attrs)
    } else if local == "stDone" {
        done(attrs)
    } else {
        None
    }
}

/// Returns the event that an element is, or `None` if it is no event.
#[tactic(auto, unfolding(crate::specs::Attributes::event_of))]
pub(crate) fn event_of(name: &Name, attrs: &[Attr]) -> Option<Event>
    ensures { result ≡ event_of name.now attrs.now }
{
    if name.space.as_str() == EVENT_SPACE {
        event_named(name.local.as_str(), attrs)
    } else {
        None
    }
}

/// Returns whether an element is a list of events.
#[tactic(auto, unfolding(crate::specs::Attributes::is_state_event))]
pub(crate) fn is_state_event(name: &Name) -> bool
    ensures { result ≡ is_state_event name.now }
{
    name.space.as_str() == EVENT_SPACE && name.local.as_str() == "StateEvent"
}
