//! The text of a row, with the properties that a filter lets through.

ghost use Rattle.std.specs.Prelude.{◌≡◌, ◌++◌, OnOk, codes, string_bytes};
ghost use Rattle.cds_object.specs.Writing.{text_element, number_element, number_attribute};
ghost use Rattle.cds_object.specs.Fragment.{if_there, duration_attribute};
ghost use Rattle.cds_didl.specs.Filter.{wants_resource};
ghost use Rattle.cds_didl.specs.Fragment.{where_wanted, number_wanted, text_wanted, number_there, searchable_wanted, child_count_wanted, container_attributes, container_start, trackers_wanted, container_wanted, duration_wanted, rate_wanted, attribute_wanted, sound_wanted, resource_attributes_wanted, place_text, resource_wanted, work_wanted, resource_where, item_wanted, fragment_of};

use crate::Filter;
use crate::pieces::{put_attributes, put_item_front, put_known_duration, put_rate_attribute};
use cds_base::{Mem, Text, escape, put, put_number};
use cds_object::{
    Content, Row, TrackContent, Trackers, put_number_attribute, put_number_element,
    put_text_element,
};

/// Puts an element around a number, if its name is wanted.
fn put_number_wanted(out: &mut String, filter: &Filter, name: &str, number: u32) -> Result<(), Mem>
    ensures { OnOk result (string_bytes out.new ≡ string_bytes out.old ++ number_wanted filter.now name.now number) }
{
    if filter.wants(name) {
        put_number_element(out, name, u64::from(number))
    } else {
        Ok(())
    }
}

/// Puts an element around a text, if there is one.
fn put_text_there(out: &mut String, name: &str, text: &Option<Text>) -> Result<(), Mem>
    ensures { OnOk result (string_bytes out.new ≡ string_bytes out.old ++ if_there (text_element name.now) text.now) }
{
    match text {
        None => Ok(()),
        Some(text) => put_text_element(out, name, text.as_str()),
    }
}

/// Puts an element around a text, if there is one and its name is wanted.
fn put_text_wanted(
    out: &mut String,
    filter: &Filter,
    name: &str,
    text: &Option<Text>,
) -> Result<(), Mem>
    ensures { OnOk result (string_bytes out.new ≡ string_bytes out.old ++ text_wanted filter.now name.now text.now) }
{
    if filter.wants(name) {
        put_text_there(out, name, text)
    } else {
        Ok(())
    }
}

/// Puts an element around a number, if there is one and its name is wanted.
fn put_number_there(
    out: &mut String,
    filter: &Filter,
    name: &str,
    number: Option<u32>,
) -> Result<(), Mem>
    ensures { OnOk result (string_bytes out.new ≡ string_bytes out.old ++ number_there filter.now name.now number) }
{
    match number {
        None => Ok(()),
        Some(number) => put_number_wanted(out, filter, name, number),
    }
}

/// Puts a piece, if it is wanted.
fn put_wanted(out: &mut String, wanted: bool, piece: &str) -> Result<(), Mem>
    ensures { OnOk result (string_bytes out.new ≡ string_bytes out.old ++ where_wanted wanted piece.now) }
{
    if wanted { put(out, piece) } else { Ok(()) }
}

/// Puts that a container can be searched, if that is wanted.
fn put_searchable(out: &mut String, filter: &Filter) -> Result<(), Mem>
    ensures { OnOk result (string_bytes out.new ≡ string_bytes out.old ++ searchable_wanted filter.now) }
{
    put_wanted(
        out,
        filter.wants_either("@searchable", "container@searchable"),
        " searchable=\"1\"",
    )
}

/// Puts the attribute of how many children a container has.
fn put_count(out: &mut String, children: u32) -> Result<(), Mem>
    ensures { OnOk result (string_bytes out.new ≡ string_bytes out.old ++ number_attribute (codes "childCount") children) }
{
    put_number_attribute(out, "childCount", u64::from(children))
}

/// Puts how many children a container has, if that is wanted.
fn put_child_count(out: &mut String, filter: &Filter, children: u32) -> Result<(), Mem>
    ensures { OnOk result (string_bytes out.new ≡ string_bytes out.old ++ child_count_wanted filter.now children) }
{
    if filter.wants_either("@childCount", "container@childCount") {
        put_count(out, children)
    } else {
        Ok(())
    }
}

/// Puts an attribute of a resource, if it is wanted.
fn put_attribute_wanted(
    out: &mut String,
    filter: &Filter,
    property: &str,
    name: &str,
    number: u64,
) -> Result<(), Mem>
    ensures { OnOk result (string_bytes out.new ≡ string_bytes out.old ++ attribute_wanted filter.now property.now name.now number) }
{
    if filter.wants_either("res", property) {
        put_number_attribute(out, name, number)
    } else {
        Ok(())
    }
}

/// Puts an attribute of a resource that is a number of 8 bits, if it is wanted.
fn put_byte_wanted(
    out: &mut String,
    filter: &Filter,
    property: &str,
    name: &str,
    number: u8,
) -> Result<(), Mem>
    ensures { OnOk result (string_bytes out.new ≡ string_bytes out.old ++ attribute_wanted filter.now property.now name.now number) }
{
    put_attribute_wanted(out, filter, property, name, u64::from(number))
}

/// Puts the attributes of a container.
#[tactic(auto, unfolding(crate::specs::Fragment::container_attributes))]
fn put_container_attributes(
    out: &mut String,
    filter: &Filter,
    row: &Row,
    children: u32,
) -> Result<(), Mem>
    ensures { OnOk result (string_bytes out.new ≡ string_bytes out.old ++ container_attributes filter.now row.now children) }
{
    put_attributes(out, row)?;
    put_searchable(out, filter)?;
    put_child_count(out, filter, children)?;
    Ok(())
}

/// Puts the start of a container's element, up to and with its class.
#[tactic(auto, unfolding(crate::specs::Fragment::container_start))]
fn put_container_start(
    out: &mut String,
    filter: &Filter,
    row: &Row,
    title: &Text,
    children: u32,
) -> Result<(), Mem>
    ensures { OnOk result (string_bytes out.new ≡ string_bytes out.old ++ container_start filter.now row.now title.now children) }
{
    put(out, "<container")?;
    put_container_attributes(out, filter, row, children)?;
    put(out, ">")?;
    put_text_element(out, "dc:title", title.as_str())?;
    put(out, "<upnp:class>object.container</upnp:class>")?;
    Ok(())
}

/// Puts how a container tracks the changes of its children.
#[tactic(auto, unfolding(crate::specs::Fragment::trackers_wanted))]
fn put_trackers(
    out: &mut String,
    filter: &Filter,
    object_update: u32,
    trackers: &Trackers,
) -> Result<(), Mem>
    ensures { OnOk result (string_bytes out.new ≡ string_bytes out.old ++ trackers_wanted filter.now object_update trackers.now) }
{
    put_number_wanted(out, filter, "upnp:objectUpdateID", object_update)?;
    put_number_wanted(
        out,
        filter,
        "upnp:containerUpdateID",
        trackers.container_update,
    )?;
    put_number_wanted(out, filter, "upnp:totalDeletedChildCount", trackers.deleted)?;
    Ok(())
}

/// Puts a container's element.
#[tactic(auto, unfolding(crate::specs::Fragment::container_wanted))]
fn put_container(
    out: &mut String,
    filter: &Filter,
    row: &Row,
    title: &Text,
    trackers: &Trackers,
) -> Result<(), Mem>
    ensures { OnOk result (string_bytes out.new ≡ string_bytes out.old ++ container_wanted filter.now row.now title.now trackers.now) }
{
    put_container_start(out, filter, row, title, trackers.child_count)?;
    put_trackers(out, filter, row.object_update, trackers)?;
    put(out, "</container>")?;
    Ok(())
}

/// Puts the attribute of a duration, if it is known.
fn put_duration_there(out: &mut String, duration: Option<u64>) -> Result<(), Mem>
    ensures { OnOk result (string_bytes out.new ≡ string_bytes out.old ++ if_there duration_attribute duration) }
{
    match duration {
        None => Ok(()),
        Some(milliseconds) => put_known_duration(out, milliseconds),
    }
}

/// Puts the attribute of a duration, if it is known and wanted.
fn put_duration(out: &mut String, filter: &Filter, duration: Option<u64>) -> Result<(), Mem>
    ensures { OnOk result (string_bytes out.new ≡ string_bytes out.old ++ duration_wanted filter.now duration) }
{
    if filter.wants_either("res", "res@duration") {
        put_duration_there(out, duration)
    } else {
        Ok(())
    }
}

/// Puts the attribute of the samples in a second, if they are known and it is wanted.
fn put_rate(out: &mut String, filter: &Filter, rate: u32) -> Result<(), Mem>
    ensures { OnOk result (string_bytes out.new ≡ string_bytes out.old ++ rate_wanted filter.now rate) }
{
    if filter.wants_either("res", "res@sampleFrequency") {
        put_rate_attribute(out, rate)
    } else {
        Ok(())
    }
}

/// Puts the attributes of the bits and channels, if they are wanted.
#[tactic(auto, unfolding(crate::specs::Fragment::sound_wanted))]
fn put_sound(out: &mut String, filter: &Filter, track: &TrackContent) -> Result<(), Mem>
    ensures { OnOk result (string_bytes out.new ≡ string_bytes out.old ++ sound_wanted filter.now track.now) }
{
    put_byte_wanted(
        out,
        filter,
        "res@bitsPerSample",
        "bitsPerSample",
        track.bits,
    )?;
    put_byte_wanted(
        out,
        filter,
        "res@nrAudioChannels",
        "nrAudioChannels",
        track.channels,
    )?;
    Ok(())
}

/// Puts the attributes of a track's resource.
#[tactic(auto, unfolding(crate::specs::Fragment::resource_attributes_wanted))]
fn put_resource_attributes(
    out: &mut String,
    filter: &Filter,
    track: &TrackContent,
) -> Result<(), Mem>
    ensures { OnOk result (string_bytes out.new ≡ string_bytes out.old ++ resource_attributes_wanted filter.now track.now) }
{
    put(out, " protocolInfo=\"http-get:*:audio/flac:*\"")?;
    put_attribute_wanted(out, filter, "res@size", "size", track.size)?;
    put_duration(out, filter, track.duration)?;
    put_rate(out, filter, track.rate)?;
    put_sound(out, filter, track)?;
    Ok(())
}

/// Puts the place of a track's bytes.
#[tactic(auto, unfolding(crate::specs::Fragment::place_text))]
fn put_place(out: &mut String, base: &str, id: u32) -> Result<(), Mem>
    ensures { OnOk result (string_bytes out.new ≡ string_bytes out.old ++ place_text base.now id) }
{
    escape(base, out)?;
    put(out, "/media/")?;
    put_number(out, u64::from(id))?;
    Ok(())
}

/// Puts a track's resource.
#[tactic(auto, unfolding(crate::specs::Fragment::resource_wanted))]
fn put_resource(
    out: &mut String,
    filter: &Filter,
    base: &str,
    id: u32,
    track: &TrackContent,
) -> Result<(), Mem>
    ensures { OnOk result (string_bytes out.new ≡ string_bytes out.old ++ resource_wanted filter.now base.now id track.now) }
{
    put(out, "<res")?;
    put_resource_attributes(out, filter, track)?;
    put(out, ">")?;
    put_place(out, base, id)?;
    put(out, "</res>")?;
    Ok(())
}

/// Puts a track's resource, if anything of it is wanted.
fn put_resource_wanted(
    out: &mut String,
    filter: &Filter,
    base: &str,
    row: &Row,
    track: &TrackContent,
) -> Result<(), Mem>
    ensures { OnOk result (string_bytes out.new ≡ string_bytes out.old ++ resource_where filter.now base.now row.now.id track.now) }
{
    if filter.wants_resource() {
        put_resource(out, filter, base, row.id.0, track)
    } else {
        Ok(())
    }
}

/// Puts what a track's comments say beside its title, as far as it is wanted.
#[tactic(auto, unfolding(crate::specs::Fragment::work_wanted))]
fn put_work(out: &mut String, filter: &Filter, track: &TrackContent) -> Result<(), Mem>
    ensures { OnOk result (string_bytes out.new ≡ string_bytes out.old ++ work_wanted filter.now track.now) }
{
    put_text_wanted(out, filter, "upnp:artist", &track.artist)?;
    put_text_wanted(out, filter, "upnp:album", &track.album)?;
    put_text_wanted(out, filter, "upnp:genre", &track.genre)?;
    put_number_there(out, filter, "upnp:originalTrackNumber", track.number)?;
    Ok(())
}

/// Puts the number of an object's own last change, if it is wanted.
fn put_object_update(out: &mut String, filter: &Filter, row: &Row) -> Result<(), Mem>
    ensures { OnOk result (string_bytes out.new ≡ string_bytes out.old ++ number_wanted filter.now (codes "upnp:objectUpdateID") row.now.object_update) }
{
    put_number_wanted(out, filter, "upnp:objectUpdateID", row.object_update)
}

/// Puts an item's element.
#[tactic(auto, unfolding(crate::specs::Fragment::item_wanted))]
fn put_item(
    out: &mut String,
    filter: &Filter,
    base: &str,
    row: &Row,
    track: &TrackContent,
) -> Result<(), Mem>
    ensures { OnOk result (string_bytes out.new ≡ string_bytes out.old ++ item_wanted filter.now base.now row.now track.now) }
{
    put_item_front(out, row, track)?;
    put_work(out, filter, track)?;
    put_object_update(out, filter, row)?;
    put_resource_wanted(out, filter, base, row, track)?;
    put(out, "</item>")?;
    Ok(())
}

/// Puts the element of a row as `write_fragment` appends it, with the properties that the filter lets through. After a refusal
/// the text may have a part of it.
pub fn put_row(out: &mut String, row: &Row, filter: &Filter, base: &str) -> Result<(), Mem>
    ensures { OnOk result (string_bytes out.new ≡ string_bytes out.old ++ fragment_of filter.now base.now row.now) }
{
    match (&row.content, &row.trackers) {
        (Content::Folder { title }, Some(trackers)) => {
            put_container(out, filter, row, title, trackers)
        }
        (Content::Folder { .. }, None) => Ok(()),
        (Content::Track(track), _) => put_item(out, filter, base, row, track),
    }
}
