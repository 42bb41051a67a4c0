//! Writes the body of a note.

ghost use Rattle.std.specs.Prelude.{◌≡◌, ◌++◌, codes, OnOk, OnErr, IfOk};
ghost use Rattle.std.specs.Fmt.{decimal};
ghost use Rattle.cds_base.specs.Escape.{escaped};
ghost use Rattle.cds_lastchange.specs.Spelled.{spelled};
ghost use Rattle.cds_notify.specs.Propertyset.{further_text, named, pair_text, pairs_text, property, propertyset_text};

use cds_base::Mem;
use cds_escape::{escaped_length, put_escaped};
use cds_lastchange::write_state_event;
use cds_object::Event;
use std::alloc::Global;

/// Appends bytes.
fn put(out: &mut Vec<u8>, piece: &[u8]) -> Result<(), Mem>
    ensures { OnOk result (out.new.items ≡ out.old.items ++ piece.now) }
{
    out.extend_from_slice(piece)?;
    Ok(())
}

/// Appends a number in decimal.
fn put_number(out: &mut Vec<u8>, number: u32) -> Result<(), Mem>
    ensures { OnOk result (out.new.items ≡ out.old.items ++ decimal number) }
{
    let digits = number.to_string(*out.allocator())?;
    out.extend_from_slice(digits.as_bytes())?;
    Ok(())
}

/// Appends a property.
#[tactic(auto, unfolding(crate::specs::Propertyset::property))]
fn put_property(out: &mut Vec<u8>, name: &[u8], text: &[u8]) -> Result<(), Mem>
    ensures { OnOk result (out.new.items ≡ out.old.items ++ property name.now text.now) }
{
    put(out, b"<e:property><")?;
    put_named(out, name, text)?;
    put(out, b"></e:property>")?;
    Ok(())
}

/// Appends the name of a variable, its text and its name again.
#[tactic(auto, unfolding(crate::specs::Propertyset::named))]
fn put_named(out: &mut Vec<u8>, name: &[u8], text: &[u8]) -> Result<(), Mem>
    ensures { OnOk result (out.new.items ≡ out.old.items ++ named name.now text.now) }
{
    put(out, name)?;
    put(out, b">")?;
    put(out, text)?;
    put(out, b"</")?;
    put(out, name)?;
    Ok(())
}

/// Appends a container and its update number.
fn put_pair(out: &mut Vec<u8>, pair: (u32, u32)) -> Result<(), Mem>
    ensures { OnOk result (out.new.items ≡ out.old.items ++ pair_text pair) }
{
    put_number(out, pair.0)?;
    put(out, b",")?;
    put_number(out, pair.1)?;
    Ok(())
}

/// Appends a comma and another container with its update number.
fn put_further(out: &mut Vec<u8>, pair: (u32, u32)) -> Result<(), Mem>
    ensures { OnOk result (out.new.items ≡ out.old.items ++ further_text pair) }
{
    put(out, b",")?;
    put_pair(out, pair)?;
    Ok(())
}

/// Appends pairs, separated by commas.
fn put_pairs(out: &mut Vec<u8>, pairs: &[(u32, u32)]) -> Result<(), Mem>
    ensures { OnOk result (out.new.items ≡ out.old.items ++ pairs_text pairs.now) }
{
    let Some((first, rest)) = pairs.split_first() else {
        return Ok(());
    };
    put_pair(out, *first)?;
    for pair in rest {
        put_further(out, *pair)?;
    }
    Ok(())
}

/// Appends the property of the number of the last change.
fn put_update_id(out: &mut Vec<u8>, number: u32) -> Result<(), Mem>
    ensures { OnOk result (out.new.items ≡ out.old.items ++ property (codes "SystemUpdateID") (decimal number)) }
{
    let mut text = Vec::new(*out.allocator());
    put_number(&mut text, number)?;
    put_property(out, b"SystemUpdateID", text.as_slice())?;
    Ok(())
}

/// Appends the property of the containers.
fn put_containers(out: &mut Vec<u8>, pairs: &[(u32, u32)]) -> Result<(), Mem>
    ensures { OnOk result (out.new.items ≡ out.old.items ++ property (codes "ContainerUpdateIDs") (pairs_text pairs.now)) }
{
    let mut text = Vec::new(*out.allocator());
    put_pairs(&mut text, pairs)?;
    put_property(out, b"ContainerUpdateIDs", text.as_slice())?;
    Ok(())
}

/// Returns the text of LastChange.
fn events_text(alloc: Global, events: &[Event]) -> Result<Vec<u8>, Mem>
    ensures { IfOk result (λ text. text.items ≡ escaped (spelled events.now)) }
{
    let mut bytes = Vec::new(alloc);
    write_state_event(alloc, events, &mut bytes)?;
    let size = escaped_length(bytes.as_slice())?;
    let mut text = Vec::new(alloc);
    text.reserve(size)?;
    put_escaped(bytes.as_slice(), &mut text);
    Ok(text)
}

/// Appends the property of the changes.
fn put_changes(out: &mut Vec<u8>, events: &[Event]) -> Result<(), Mem>
    ensures { OnOk result (out.new.items ≡ out.old.items ++ property (codes "LastChange") (escaped (spelled events.now))) }
{
    let text = events_text(*out.allocator(), events)?;
    put_property(out, b"LastChange", text.as_slice())?;
    Ok(())
}

/// Returns the whole body.
fn propertyset_text(
    alloc: Global,
    number: u32,
    containers: &[(u32, u32)],
    events: &[Event],
) -> Result<Vec<u8>, Mem>
    ensures { IfOk result (λ text. text.items ≡ propertyset_text number containers.now events.now) }
{
    let mut text = Vec::new(alloc);
    put(
        &mut text,
        b"<?xml version=\"1.0\"?><e:propertyset xmlns:e=\"urn:schemas-upnp-org:event-1-0\">",
    )?;
    put_update_id(&mut text, number)?;
    put_containers(&mut text, containers)?;
    put_changes(&mut text, events)?;
    put(&mut text, b"</e:propertyset>")?;
    Ok(text)
}

/// Appends the body of a note: the number of the last change, the containers that changed with their update numbers,
/// and the changes. If memory runs out, nothing is appended.
pub fn write_propertyset(
    alloc: Global,
    number: u32,
    containers: &[(u32, u32)],
    events: &[Event],
    out: &mut Vec<u8>,
) -> Result<(), Mem>
    ensures ok { OnOk result (out.new.items ≡ out.old.items ++ propertyset_text number containers.now events.now) }
    ensures err { OnErr result (out.new.items ≡ out.old.items) }
{
    let text = propertyset_text(alloc, number, containers, events)?;
    out.extend_from_slice(text.as_slice())?;
    Ok(())
}
