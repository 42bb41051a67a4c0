//! What criteria say of an object.

ghost use Rattle.std.specs.Prelude.{◌≡◌, Some, option_copied};
ghost use Rattle.std.specs.Option.{option_map};
ghost use Rattle.std.specs.Fmt.{decimal};
ghost use Rattle.cds_object.specs.Fragment.{parent_text, duration_text};
ghost use Rattle.cds_criteria.specs.Meaning.{text_shown, number_shown, compared, text_order, is_by_order, number_order, number_compared, shown_compared, shown_by, is_shown, same_truth};

use crate::folded::{has_folded, is_derived, text_order};
use crate::shown::{
    album_of, artist_of, class_text, container_update_of, duration_of, genre_of, size_of, title_of,
    track_number_of,
};
use crate::written::{Written, put_duration};
use crate::{Operator, Property};
use cds_base::{Text, read_u64};
use cds_object::{ObjectId, Row};
use itoa::Buffer;
use std::cmp::Ordering;

/// Returns what an operator says of an order, and of a value and a text.
fn compared(operator: Operator, order: Ordering, value: &[u8], text: &[u8]) -> bool
    ensures { result ≡ compared operator order value.now text.now }
{
    match operator {
        Operator::Equals => order.is_eq(),
        Operator::Differs => order.is_ne(),
        Operator::Below => order.is_lt(),
        Operator::AtMost => order.is_le(),
        Operator::Above => order.is_gt(),
        Operator::AtLeast => order.is_ge(),
        Operator::Contains => has_folded(value, text),
        Operator::DoesNotContain => !has_folded(value, text),
        Operator::DerivedFrom => is_derived(value, text),
    }
}

/// Returns what an operator says of a value and a text.
fn text_compared(operator: Operator, value: &[u8], text: &[u8]) -> bool
    ensures { result ≡ compared operator (text_order text.now value.now) value.now text.now }
{
    match operator {
        Operator::Equals => text_order(text, value).is_eq(),
        Operator::Differs => text_order(text, value).is_ne(),
        Operator::Below => text_order(text, value).is_lt(),
        Operator::AtMost => text_order(text, value).is_le(),
        Operator::Above => text_order(text, value).is_gt(),
        Operator::AtLeast => text_order(text, value).is_ge(),
        Operator::Contains => has_folded(value, text),
        Operator::DoesNotContain => !has_folded(value, text),
        Operator::DerivedFrom => is_derived(value, text),
    }
}

/// Returns whether an operator goes by the order of numbers.
fn is_by_order(operator: Operator) -> bool
    ensures { result ≡ is_by_order operator }
{
    match operator {
        Operator::Contains | Operator::DoesNotContain | Operator::DerivedFrom => false,
        _ => true,
    }
}

/// Compares a number with a value, if the value is a number of at most 64 bits.
fn number_order(number: u64, value: &[u8]) -> Option<Ordering>
    ensures { result ≡ number_order number value.now }
{
    match read_u64(value) {
        None => None,
        Some(other) => Some(number.cmp(&other)),
    }
}

/// Returns what an operator says of the order of a number, and of its text.
fn by_number(operator: Operator, order: Option<Ordering>, value: &[u8], text: &[u8]) -> bool
    ensures { result ≡ number_compared operator order value.now text.now }
{
    match order {
        Some(order) => compared(operator, order, value, text),
        None => {
            if is_by_order(operator) {
                false
            } else {
                compared(operator, Ordering::Equal, value, text)
            }
        }
    }
}

/// Returns what an operator says of a value and a number, which the object may lack.
fn number_met(operator: Operator, value: &[u8], number: Option<u64>) -> bool
    ensures { result ≡ shown_compared operator value.now (number_shown number) }
{
    match number {
        None => false,
        Some(number) => {
            let mut buffer = Buffer::new();
            let text = buffer.format(number);
            by_number(
                operator,
                number_order(number, value),
                value,
                text.as_bytes(),
            )
        }
    }
}

/// Returns what an operator says of a value and a text, which the object may lack.
fn text_met(operator: Operator, value: &[u8], text: Option<&Text>) -> bool
    ensures { result ≡ shown_compared operator value.now (text_shown (option_copied text.entry)) }
{
    match text {
        None => false,
        Some(text) => text_compared(operator, value, text.as_str().as_bytes()),
    }
}

/// Returns what an operator says of a value and an id.
fn id_met(operator: Operator, value: &[u8], id: ObjectId) -> bool
    ensures { result ≡ shown_compared operator value.now (text_shown (Some (decimal id.0))) }
{
    let mut buffer = Buffer::new();
    let text = buffer.format(id.0);
    text_compared(operator, value, text.as_bytes())
}

/// Returns what an operator says of a value and the id of a parent. The root's parent is -1.
fn parent_met(operator: Operator, value: &[u8], parent: Option<ObjectId>) -> bool
    ensures { result ≡ shown_compared operator value.now (text_shown (Some (parent_text (option_map (λ i. i.0) parent)))) }
{
    match parent {
        None => text_compared(operator, value, b"-1"),
        Some(id) => id_met(operator, value, id),
    }
}

/// Returns what an operator says of a value and a duration in milliseconds, which the object may lack.
fn duration_met(operator: Operator, value: &[u8], duration: Option<u64>) -> bool
    ensures { result ≡ shown_compared operator value.now (text_shown (option_map duration_text duration)) }
{
    match duration {
        None => false,
        Some(ms) => {
            let mut text = Written::new();
            put_duration(&mut text, ms);
            text_compared(operator, value, text.as_slice())
        }
    }
}

/// Returns the number as one of 64 bits.
fn wide(number: Option<u32>) -> Option<u64>
    ensures { result ≡ number }
{
    match number {
        None => None,
        Some(number) => Some(u64::from(number)),
    }
}

/// Returns what an operator says of a value and a property of a row.
pub(crate) fn compares(property: Property, operator: Operator, value: &[u8], row: &Row) -> bool
    ensures { result ≡ shown_compared operator value.now (shown_by property row.now) }
{
    let content = &row.content;
    match property {
        Property::Id => id_met(operator, value, row.id),
        Property::ParentId => parent_met(operator, value, row.parent),
        Property::Title => text_met(operator, value, Some(title_of(content))),
        Property::Class => text_compared(operator, value, class_text(content).as_bytes()),
        Property::Artist => text_met(operator, value, artist_of(content)),
        Property::Album => text_met(operator, value, album_of(content)),
        Property::Genre => text_met(operator, value, genre_of(content)),
        Property::TrackNumber => number_met(operator, value, wide(track_number_of(content))),
        Property::ObjectUpdate => number_met(operator, value, wide(Some(row.object_update))),
        Property::ContainerUpdate => {
            number_met(operator, value, wide(container_update_of(row.trackers)))
        }
        Property::Size => number_met(operator, value, size_of(content)),
        Property::Duration => duration_met(operator, value, duration_of(content)),
    }
}

/// Returns whether a row has a property.
pub(crate) fn is_there(property: Property, row: &Row) -> bool
    ensures { result ≡ is_shown (shown_by property row.now) }
{
    let content = &row.content;
    match property {
        Property::Id => true,
        Property::ParentId => true,
        Property::Title => true,
        Property::Class => true,
        Property::Artist => artist_of(content).is_some(),
        Property::Album => album_of(content).is_some(),
        Property::Genre => genre_of(content).is_some(),
        Property::TrackNumber => track_number_of(content).is_some(),
        Property::ObjectUpdate => true,
        Property::ContainerUpdate => container_update_of(row.trackers).is_some(),
        Property::Size => size_of(content).is_some(),
        Property::Duration => duration_of(content).is_some(),
    }
}

/// Returns whether existence is as it is asked for.
pub(crate) fn same_truth(there: bool, is: bool) -> bool
    ensures { result ≡ same_truth there is }
{
    if there { is } else { !is }
}
