//! Pieces of a row's text that no filter changes.

ghost use Rattle.std.specs.Prelude.{◌≡◌, ◌++◌, ◌/◌, ◌%◌, OnOk, string_bytes};
ghost use Rattle.cds_object.specs.Fragment.{object_attributes, parent_text, two_digits, three_digits, duration_text, seconds_text, duration_attribute, rate_attribute, item_front};

use cds_base::{Mem, put, put_number};
use cds_object::{Row, TrackContent, put_number_attribute, put_text_element};

/// Puts the id of an object's parent.
fn put_parent(out: &mut String, row: &Row) -> Result<(), Mem>
    ensures { OnOk result (string_bytes out.new ≡ string_bytes out.old ++ parent_text row.now.parent) }
{
    match row.parent {
        None => put(out, "-1")?,
        Some(parent) => put_number(out, u64::from(parent.0))?,
    }
    Ok(())
}

/// Puts the attributes that every object has.
#[tactic(auto, unfolding(cds_object::specs::Fragment::object_attributes))]
pub fn put_attributes(out: &mut String, row: &Row) -> Result<(), Mem>
    ensures { OnOk result (string_bytes out.new ≡ string_bytes out.old ++ object_attributes row.now) }
{
    put(out, " id=\"")?;
    put_number(out, u64::from(row.id.0))?;
    put(out, "\" parentID=\"")?;
    put_parent(out, row)?;
    put(out, "\" restricted=\"1\"")?;
    Ok(())
}

/// Puts a number in at least two digits.
fn put_two_digits(out: &mut String, number: u64) -> Result<(), Mem>
    ensures { OnOk result (string_bytes out.new ≡ string_bytes out.old ++ two_digits number) }
{
    if number < 10 {
        put(out, "0")?;
    }
    put_number(out, number)?;
    Ok(())
}

/// Puts a number in at least three digits.
fn put_three_digits(out: &mut String, number: u64) -> Result<(), Mem>
    ensures { OnOk result (string_bytes out.new ≡ string_bytes out.old ++ three_digits number) }
{
    if number < 100 {
        put(out, "0")?;
    }
    put_two_digits(out, number)?;
    Ok(())
}

/// Puts a duration in milliseconds as hours, minutes, seconds and milliseconds.
#[tactic(auto, unfolding(cds_object::specs::Fragment::duration_text))]
fn put_duration(out: &mut String, milliseconds: u64) -> Result<(), Mem>
    ensures { OnOk result (string_bytes out.new ≡ string_bytes out.old ++ duration_text milliseconds) }
{
    put_number(out, milliseconds / 3_600_000)?;
    put(out, ":")?;
    put_two_digits(out, milliseconds / 60_000 % 60)?;
    put(out, ":")?;
    put_seconds(out, milliseconds)?;
    Ok(())
}

/// Puts the seconds of a duration and its milliseconds.
#[tactic(auto, unfolding(cds_object::specs::Fragment::seconds_text))]
fn put_seconds(out: &mut String, milliseconds: u64) -> Result<(), Mem>
    ensures { OnOk result (string_bytes out.new ≡ string_bytes out.old ++ seconds_text milliseconds) }
{
    put_two_digits(out, milliseconds / 1000 % 60)?;
    put(out, ".")?;
    put_three_digits(out, milliseconds % 1000)?;
    Ok(())
}

/// Puts the attribute of a duration.
#[tactic(auto, unfolding(cds_object::specs::Fragment::duration_attribute))]
pub fn put_known_duration(out: &mut String, milliseconds: u64) -> Result<(), Mem>
    ensures { OnOk result (string_bytes out.new ≡ string_bytes out.old ++ duration_attribute milliseconds) }
{
    put(out, " duration=\"")?;
    put_duration(out, milliseconds)?;
    put(out, "\"")?;
    Ok(())
}

/// Puts the attribute of the samples in a second, if they are known.
#[tactic(auto, unfolding(cds_object::specs::Fragment::rate_attribute))]
pub fn put_rate_attribute(out: &mut String, rate: u32) -> Result<(), Mem>
    ensures { OnOk result (string_bytes out.new ≡ string_bytes out.old ++ rate_attribute rate) }
{
    if rate == 0 {
        Ok(())
    } else {
        put_number_attribute(out, "sampleFrequency", u64::from(rate))
    }
}

/// Puts the start of an item's element, up to and with its class.
#[tactic(auto, unfolding(cds_object::specs::Fragment::item_front))]
pub fn put_item_front(out: &mut String, row: &Row, track: &TrackContent) -> Result<(), Mem>
    ensures { OnOk result (string_bytes out.new ≡ string_bytes out.old ++ item_front row.now track.now) }
{
    put(out, "<item")?;
    put_attributes(out, row)?;
    put(out, ">")?;
    put_text_element(out, "dc:title", track.title.as_str())?;
    put(
        out,
        "<upnp:class>object.item.audioItem.musicTrack</upnp:class>",
    )?;
    Ok(())
}
