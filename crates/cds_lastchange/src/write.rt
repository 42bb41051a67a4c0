//! The one written form of a StateEvent.

ghost use Rattle.std.specs.Prelude.{◌≡◌, ◌≤◌, ◌++◌, OnOk, OnErr, string_bytes, length, codes};
ghost use Rattle.std.specs.List.{AllByRecursion};
ghost use Rattle.cds_base.specs.declared.limits.TheConstants.{INPUT_LIMIT};
ghost use Rattle.cds_lastchange.specs.Spelled.{change_text, flag_text, flagged_text, class_text, added_text, event_text, spelled, IsNumbered};
ghost use Rattle.cds_lastchange.specs.StateEvent.{IsStateEvent};

use crate::{Class, Event};
use cds_base::{Mem, put};
use cds_object::{put_attribute, put_number_attribute};
use std::alloc::Global;

/// Puts an object and the number of a change of it.
#[tactic(auto, unfolding(crate::specs::Spelled::change_text))]
fn put_change(out: &mut String, id: u32, update: u32) -> Result<(), Mem>
    ensures { OnOk result (string_bytes out.new ≡ string_bytes out.old ++ change_text id update) }
{
    put_number_attribute(out, "objID", u64::from(id))?;
    put_number_attribute(out, "updateID", u64::from(update))?;
    Ok(())
}

/// Returns the text that says whether a change belongs to a subtree update.
fn flag_text(st: bool) -> &'static str
    ensures { result.now ≡ flag_text st }
{
    if st { "1" } else { "0" }
}

/// Puts a change, and whether it belongs to a subtree update.
#[tactic(auto, unfolding(crate::specs::Spelled::flagged_text))]
fn put_flagged(out: &mut String, id: u32, update: u32, st: bool) -> Result<(), Mem>
    ensures { OnOk result (string_bytes out.new ≡ string_bytes out.old ++ flagged_text id update st) }
{
    put_change(out, id, update)?;
    put_attribute(out, "stUpdate", flag_text(st))?;
    Ok(())
}

/// Returns the name of a class.
#[tactic(auto, unfolding(crate::specs::Spelled::class_text))]
fn class_text(class: Class) -> &'static str
    ensures { result.now ≡ class_text class }
{
    match class {
        Class::Container => "object.container",
        Class::Track => "object.item.audioItem.musicTrack",
    }
}

/// Puts the parent and the class of an added object.
#[tactic(auto, unfolding(crate::specs::Spelled::added_text))]
fn put_added(out: &mut String, parent: u32, class: Class) -> Result<(), Mem>
    ensures { OnOk result (string_bytes out.new ≡ string_bytes out.old ++ added_text parent class) }
{
    put_number_attribute(out, "objParentID", u64::from(parent))?;
    put_attribute(out, "objClass", class_text(class))?;
    Ok(())
}

/// Puts an addition.
fn put_addition(
    out: &mut String,
    id: u32,
    update: u32,
    st: bool,
    parent: u32,
    class: Class,
) -> Result<(), Mem>
    ensures { OnOk result (string_bytes out.new ≡ string_bytes out.old ++ event_text (Event.ObjAdd id update st parent class)) }
{
    put(out, "<objAdd")?;
    put_flagged(out, id, update, st)?;
    put_added(out, parent, class)?;
    put(out, "/>")?;
    Ok(())
}

/// Puts a modification or a deletion. `name` is its `<` with the name after it.
fn put_flagged_event(
    out: &mut String,
    name: &str,
    id: u32,
    update: u32,
    st: bool,
) -> Result<(), Mem>
    ensures { OnOk result (string_bytes out.new ≡ string_bytes out.old ++ (name.now ++ flagged_text id update st ++ codes "/>")) }
{
    put(out, name)?;
    put_flagged(out, id, update, st)?;
    put(out, "/>")?;
    Ok(())
}

/// Puts the end of a subtree update.
fn put_done(out: &mut String, id: u32, update: u32) -> Result<(), Mem>
    ensures { OnOk result (string_bytes out.new ≡ string_bytes out.old ++ event_text (Event.StDone id update)) }
{
    put(out, "<stDone")?;
    put_change(out, id, update)?;
    put(out, "/>")?;
    Ok(())
}

/// Puts an event. Its numbers have 32 bits.
fn put_event(out: &mut String, event: Event) -> Result<(), Mem>
    ensures puts { OnOk result (string_bytes out.new ≡ string_bytes out.old ++ event_text event) }
    ensures numbered { IsNumbered event }
{
    match event {
        Event::ObjAdd {
            id,
            update,
            st,
            parent,
            class,
        } => put_addition(out, id, update, st, parent, class),
        Event::ObjMod { id, update, st } => put_flagged_event(out, "<objMod", id, update, st),
        Event::ObjDel { id, update, st } => put_flagged_event(out, "<objDel", id, update, st),
        Event::StDone { id, update } => put_done(out, id, update),
    }
}

/// Puts all of a StateEvent. The numbers of the events have 32 bits.
fn put_events(out: &mut String, events: &[Event]) -> Result<(), Mem>
    ensures puts { OnOk result (string_bytes out.new ≡ string_bytes out.old ++ spelled events.now) }
    ensures numbered { OnOk result (AllByRecursion IsNumbered events.now) }
{
    put(
        out,
        "<StateEvent xmlns=\"urn:schemas-upnp-org:av:cds-event\">",
    )?;
    for event in events {
        put_event(out, *event)?;
    }
    put(out, "</StateEvent>")?;
    Ok(())
}

/// Appends the one written form of these events. `Mem` leaves the bytes as they were.
pub fn write_state_event(alloc: Global, events: &[Event], out: &mut Vec<u8>) -> Result<(), Mem>
    ensures ok { OnOk result (out.new.items ≡ out.old.items ++ spelled events.now) }
    ensures err { OnErr result (out.new.items ≡ out.old.items) }
    ensures read_back { OnOk result (length (spelled events.now) ≤ INPUT_LIMIT → IsStateEvent (spelled events.now) events.now) }
{
    let mut text = String::new(alloc);
    put_events(&mut text, events)?;
    out.extend_from_slice(text.as_bytes())?;
    Ok(())
}
