//! Reads what a reply to SUBSCRIBE grants.

ghost use Rattle.std.specs.Prelude.{◌≡◌, codes, option_and_then, option_map};
ghost use Rattle.cds_gena.specs.SidText.{sid_in};
ghost use Rattle.cds_gena.specs.Leased.{has_status, lease_in, only_field};

use crate::gena::{field_of, seconds_of};
use crate::sid::Sid;
use cds_http::{Message, Start};
use http_header::HeaderMap;

/// A subscription that was granted or renewed: its name, and the number of seconds.
#[derive(Clone, Copy, Debug, PartialEq, Eq)]
pub struct Lease {
    pub sid: Sid,
    pub seconds: u32,
}

/// Returns whether a message is a reply with this status.
fn has_status(message: &Message, code: u16) -> bool
    ensures { result ≡ has_status code message.now.start }
{
    match &message.start {
        Start::Request { .. } => false,
        Start::Reply { status } => *status == code,
    }
}

/// Returns the SID that comes exactly once.
fn only_sid(fields: &HeaderMap) -> Option<&[u8]>
    ensures { option_map (λ value. value.now) result ≡ only_field (codes "sid") fields.now }
{
    let mut values = fields.get_all("sid").into_iter();
    match values.next() {
        None => None,
        Some(value) => {
            if values.next().is_some() {
                return None;
            }
            Some(value.as_bytes())
        }
    }
}

/// Returns the name in a SID that may be missing.
fn named(sid: Option<&[u8]>) -> Option<Sid>
    ensures { option_map (λ sid. sid.0) result ≡ option_and_then sid_in (option_map (λ x. x.now) sid.entry) }
{
    match sid {
        Some(text) => Sid::read(text),
        None => None,
    }
}

/// Returns what a reply to SUBSCRIBE grants (UPnP Device Architecture 2.0 on eventing): the name in its SID, for the
/// seconds of its TIMEOUT. The seconds are put within 1,800 and 86,400. They are 1,800 if TIMEOUT is missing or names
/// no seconds. `None` comes exactly if the message is no reply with status 200, or if SID does not come exactly once
/// with a name in it.
pub fn read_lease(message: &Message) -> Option<Lease>
    ensures { result ≡ lease_in message.now }
{
    if !has_status(message, 200) {
        return None;
    }
    match named(only_sid(&message.fields)) {
        Some(sid) => Some(Lease {
            sid,
            seconds: seconds_of(field_of(&message.fields, "timeout")),
        }),
        None => None,
    }
}
