//! Sort keys, and the order of rows that they name.

ghost use Rattle.std.specs.Prelude.{◌≡◌, ◌==◌, ◌≤◌, not, length, option_copied};
ghost use Rattle.std.specs.List.{prefix_len};
ghost use Rattle.std.specs.Str.{bytes_eq};
ghost use Rattle.cds_criteria.specs.Meaning.{text_shown, number_shown};
ghost use Rattle.cds_criteria.specs.Sorting.{key, key_of, items_from, items_read, text_keys, keys_read, shown_order, property_order, key_order, row_order};
ghost use Rattle.cds_criteria.specs.SortAnswer.{IsSortAnswer};

use crate::CriteriaError;
use crate::shown::{album_of, artist_of, genre_of, title_of, track_number_of};
use cds_base::{Sequence, Text};
use cds_object::Row;
use std::alloc::Global;
use std::cmp::Ordering;
use std::marker::Model;

/// The most bytes of sort criteria.
const LONGEST: usize = 4096;

/// A property that rows can be sorted by (UPnP ContentDirectory:4 on the sort capabilities).
#[derive(Clone, Copy, Debug, PartialEq, Eq)]
pub enum SortProperty {
    /// `dc:title`
    Title,
    /// `upnp:artist`
    Artist,
    /// `upnp:album`
    Album,
    /// `upnp:genre`
    Genre,
    /// `upnp:originalTrackNumber`
    TrackNumber,
    /// `upnp:objectUpdateID`
    ObjectUpdate,
}

/// One key of an order.
#[derive(Clone, Copy, Debug, PartialEq, Eq)]
pub struct SortKey {
    pub property: SortProperty,
    /// Whether greater values come first, as `-` says.
    pub falls: bool,
}

/// The order that sort criteria name: by these keys, each deciding if those before it are equal, and then by ids (UPnP
/// ContentDirectory:4 on SortCriteria). Contracts see the list of the keys.
#[derive(Drop, Debug)]
pub struct SortKeys {
    keys: Sequence<SortKey>,
}

impl Model for SortKeys {
    ghost use Rattle.std.specs.Prelude.{List};
    ghost use Rattle.cds_criteria.specs.declared.sort.SortKey.{SortKey};

    ghost Value = { List SortKey };

    ghost view = { λ s. s.keys };
}

impl SortKeys {
    /// Reads the keys that a text is. The empty text has none. Any other text is items with a comma between each and the next.
    /// An item is `+` or `-` and one of `dc:title`, `upnp:artist`, `upnp:album`, `upnp:genre`, `upnp:originalTrackNumber` and
    /// `upnp:objectUpdateID`. The text has at most 4,096 bytes. Any other text is refused as `BadSort`, at its first bad item.
    pub fn read(alloc: Global, text: &str) -> Result<Self, CriteriaError>
        ensures { IsSortAnswer (keys_read text.now) result }
    {
        if text.len() > LONGEST {
            return Err(CriteriaError::BadSort { at: LONGEST });
        }
        match text_keys(alloc, text.as_bytes()) {
            Ok(keys) => Ok(SortKeys { keys }),
            Err(refusal) => Err(refusal),
        }
    }

    /// Returns whether there is no key, so that rows are ordered by their ids alone.
    pub fn is_empty(&self) -> bool
        ensures { result ≡ (length self.now == 0) }
    {
        self.keys.is_empty()
    }

    /// Compares two rows: by each key in turn, and then by their ids. A property that a row lacks is least. Texts compare by
    /// bytes, numbers as numbers.
    pub fn compare(&self, a: &Row, b: &Row) -> Ordering
        ensures { result ≡ row_order self.now a.now b.now }
    {
        keys_order(self.keys.as_slice(), a, b)
    }
}

/// Returns the keys that a text is, however long it is.
fn text_keys(alloc: Global, text: &[u8]) -> Result<Sequence<SortKey>, CriteriaError>
    ensures { IsSortAnswer (text_keys text.now) result }
{
    match text {
        [] => Ok(Sequence::new(alloc)),
        [_first, ..] => items_keys(alloc, text),
    }
}

/// Returns the keys that the items of a text spell.
fn items_keys(alloc: Global, text: &[u8]) -> Result<Sequence<SortKey>, CriteriaError>
    ensures { IsSortAnswer (items_read (items_from 0 text.now)) result }
{
    let mut keys = Sequence::new(alloc);
    let mut rest = text;
    loop {
        let (item, after) = rest.split_at(item_length(rest));
        match key_of(item) {
            None => {
                return Err(CriteriaError::BadSort {
                    at: text.len() - rest.len(),
                });
            }
            Some(key) => keys.push(key)?,
        }
        if after.is_empty() {
            return Ok(keys);
        }
        rest = after.split_at(1).1;
    }
}

/// Counts the bytes before the first comma.
fn item_length(text: &[u8]) -> usize
    ensures exact { result ≡ prefix_len (λ b. not (b == 44)) text.now }
    ensures within { result ≤ length text.now }
{
    text.iter().take_while(|byte| **byte != b',').count()
}

/// Returns whether an item has these bytes.
fn is_item(item: &[u8], text: &str) -> bool
    ensures { result ≡ bytes_eq item.now text.now }
{
    item == text.as_bytes()
}

/// Returns the key with this property.
fn make_key(falls: bool, property: SortProperty) -> SortKey
    ensures { result ≡ key falls property }
{
    SortKey { property, falls }
}

/// Returns the key that an item spells.
fn key_of(item: &[u8]) -> Option<SortKey>
    ensures { result ≡ key_of item.now }
{
    if is_item(item, "+dc:title") {
        Some(make_key(false, SortProperty::Title))
    } else if is_item(item, "+upnp:artist") {
        Some(make_key(false, SortProperty::Artist))
    } else if is_item(item, "+upnp:album") {
        Some(make_key(false, SortProperty::Album))
    } else if is_item(item, "+upnp:genre") {
        Some(make_key(false, SortProperty::Genre))
    } else if is_item(item, "+upnp:originalTrackNumber") {
        Some(make_key(false, SortProperty::TrackNumber))
    } else if is_item(item, "+upnp:objectUpdateID") {
        Some(make_key(false, SortProperty::ObjectUpdate))
    } else if is_item(item, "-dc:title") {
        Some(make_key(true, SortProperty::Title))
    } else if is_item(item, "-upnp:artist") {
        Some(make_key(true, SortProperty::Artist))
    } else if is_item(item, "-upnp:album") {
        Some(make_key(true, SortProperty::Album))
    } else if is_item(item, "-upnp:genre") {
        Some(make_key(true, SortProperty::Genre))
    } else if is_item(item, "-upnp:originalTrackNumber") {
        Some(make_key(true, SortProperty::TrackNumber))
    } else if is_item(item, "-upnp:objectUpdateID") {
        Some(make_key(true, SortProperty::ObjectUpdate))
    } else {
        None
    }
}

/// Compares two texts. A lacking text is least.
fn texts_order(a: Option<&Text>, b: Option<&Text>) -> Ordering
    ensures { result ≡ shown_order (text_shown (option_copied a.entry)) (text_shown (option_copied b.entry)) }
{
    match (a, b) {
        (None, None) => Ordering::Equal,
        (None, Some(_)) => Ordering::Less,
        (Some(_), None) => Ordering::Greater,
        (Some(a), Some(b)) => a.cmp(b),
    }
}

/// Compares two numbers. A lacking number is least.
fn numbers_order(a: Option<u32>, b: Option<u32>) -> Ordering
    ensures { result ≡ shown_order (number_shown a) (number_shown b) }
{
    match (a, b) {
        (None, None) => Ordering::Equal,
        (None, Some(_)) => Ordering::Less,
        (Some(_), None) => Ordering::Greater,
        (Some(a), Some(b)) => a.cmp(&b),
    }
}

/// Compares two rows by a property.
fn property_order(property: SortProperty, a: &Row, b: &Row) -> Ordering
    ensures { result ≡ property_order property a.now b.now }
{
    match property {
        SortProperty::Title => title_of(&a.content).cmp(title_of(&b.content)),
        SortProperty::Artist => texts_order(artist_of(&a.content), artist_of(&b.content)),
        SortProperty::Album => texts_order(album_of(&a.content), album_of(&b.content)),
        SortProperty::Genre => texts_order(genre_of(&a.content), genre_of(&b.content)),
        SortProperty::TrackNumber => {
            numbers_order(track_number_of(&a.content), track_number_of(&b.content))
        }
        SortProperty::ObjectUpdate => a.object_update.cmp(&b.object_update),
    }
}

/// Compares two rows by a key.
fn key_order(key: SortKey, a: &Row, b: &Row) -> Ordering
    ensures { result ≡ key_order key a.now b.now }
{
    if key.falls {
        property_order(key.property, b, a)
    } else {
        property_order(key.property, a, b)
    }
}

/// Compares two rows by keys, and then by their ids.
fn keys_order(keys: &[SortKey], a: &Row, b: &Row) -> Ordering
    ensures { result ≡ row_order keys.now a.now b.now }
{
    for key in keys {
        match key_order(*key, a, b) {
            Ordering::Less => return Ordering::Less,
            Ordering::Greater => return Ordering::Greater,
            Ordering::Equal => {}
        }
    }
    a.id.0.cmp(&b.id.0)
}
