//! Reads what a request about a subscription asks for.

ghost use Rattle.std.specs.Prelude.{◌≡◌, ◌==◌, ◌<◌, codes, length, take, drop, position, IfOk, IfSome, IsTrue, Ok, Some, None, option_map, option_and_then};
ghost use Rattle.std.specs.List.{list_all};
ghost use Rattle.std.specs.Char.{is_digit};
ghost use Rattle.std.specs.Result.{result_ok};
ghost use Rattle.url.specs.Parser.{parse_url};
ghost use Rattle.http_header.specs.Token.{lowercase};
ghost use Rattle.cds_base.specs.Number.{is_number_in};
ghost use Rattle.cds_gena.specs.SidText.{sid_in};
ghost use Rattle.cds_gena.specs.Asked.{Answers, IsDeliverable, asks_of_subscription, behind_spaces, callback_in, deliverable, enclosed, ending, field_of, gena_of, has_method, is_deliverable, is_event, renewing, seconds_by, seconds_in, seconds_of, subscribe_of, subscribing, url_in};

use crate::error::GenaError;
use crate::sid::Sid;
use cds_base::{Mem, read_u32};
use cds_http::{Message, Start};
use http_header::HeaderMap;
use std::alloc::Global;
use url::{ParseError, Url};

/// The fewest seconds for which a subscription is granted.
const LEAST_SECONDS: u32 = 1_800;

/// The most seconds for which a subscription is granted.
const MOST_SECONDS: u32 = 86_400;

/// What a request about a subscription asks for.
#[derive(Drop)]
pub enum Gena {
    /// A new subscription for this many seconds. Its notes are delivered at this URL.
    Subscribe { callback: Url, seconds: u32 },
    /// A subscription goes on for this many seconds.
    Renew { sid: Sid, seconds: u32 },
    /// A subscription ends.
    Unsubscribe { sid: Sid },
}

/// Returns whether a message is a request with this method.
pub fn has_method(message: &Message, name: &str) -> bool
    ensures { result ≡ has_method name.now message.now.start }
{
    match &message.start {
        Start::Request { method, .. } => method.as_str() == name,
        Start::Reply { .. } => false,
    }
}

/// Returns whether a message is a request with method SUBSCRIBE or UNSUBSCRIBE (UPnP Device Architecture 2.0 on
/// eventing).
pub fn asks_of_subscription(message: &Message) -> bool
    ensures { result ≡ asks_of_subscription message.now.start }
{
    has_method(message, "SUBSCRIBE") || has_method(message, "UNSUBSCRIBE")
}

/// Returns the first value of a field with this name, in letters of either case.
pub fn field_of<'a>(fields: &'a HeaderMap, name: &str) -> Option<&'a [u8]>
    ensures { option_map (λ value. value.now) result ≡ field_of (lowercase name.now) fields.now }
{
    match fields.get(name) {
        Some(value) => Some(value.as_bytes()),
        None => None,
    }
}

/// Returns the text without the spaces at its start.
fn behind_spaces(text: &[u8]) -> &[u8]
    ensures { result.now ≡ behind_spaces text.now }
{
    let mut rest = text;
    while let Some((first, more)) = rest.split_first() {
        if *first != b' ' {
            return rest;
        }
        rest = more;
    }
    rest
}

/// Returns the place of the first `>`.
fn closing(text: &[u8]) -> Option<usize>
    ensures exact { result ≡ position (λ c. c == 62) text.now }
    ensures inside { IfSome result (λ at. at < length text.now) }
{
    text.iter().position(|c| *c == b'>')
}

/// Returns what stands between `<` at the start and the first `>`.
fn enclosed(text: &[u8]) -> Option<&[u8]>
    ensures { option_map (λ inner. inner.now) result ≡ enclosed text.now }
{
    match text.split_first() {
        Some((b'<', rest)) => match closing(rest) {
            Some(at) => Some(rest.split_at(at).0),
            None => None,
        },
        _ => None,
    }
}

/// Returns whether notes can be delivered at a URL: its scheme is `http`, and it has a host.
pub fn is_deliverable(url: &Url) -> bool
    ensures { result ≡ is_deliverable url.now }
{
    url.scheme() == "http" && url.has_host()
}

/// Returns the URL, if notes can be delivered at it.
fn deliverable(url: Url) -> Option<Url>
    ensures { result ≡ deliverable url }
{
    if is_deliverable(&url) {
        Some(url)
    } else {
        None
    }
}

/// Returns the URL that a text is, if it is one.
fn parsed(alloc: Global, text: &str) -> Result<Option<Url>, Mem>
    ensures { IfOk result (λ url. url ≡ result_ok (parse_url None text.now)) }
{
    match Url::parse(alloc, text) {
        Ok(url) => Ok(Some(url)),
        Err(ParseError::OutOfMemory | ParseError::Overflow) => Err(Mem),
        Err(_) => Ok(None),
    }
}

/// Returns the URL that a text is, if notes can be delivered at it.
pub(crate) fn url_in(alloc: Global, text: &[u8]) -> Result<Option<Url>, Mem>
    ensures { IfOk result (λ url. url ≡ url_in text.now) }
{
    let Ok(text) = std::str::from_utf8(text) else {
        return Ok(None);
    };
    match parsed(alloc, text)? {
        Some(url) => Ok(deliverable(url)),
        None => Ok(None),
    }
}

/// Returns the first address of a CALLBACK.
fn callback_in(alloc: Global, text: &[u8]) -> Result<Option<Url>, Mem>
    ensures { IfOk result (λ url. url ≡ callback_in text.now) }
{
    match enclosed(behind_spaces(text)) {
        Some(inner) => url_in(alloc, inner),
        None => Ok(None),
    }
}

/// Returns the first address of a CALLBACK that may be missing.
fn callback_of(alloc: Global, text: Option<&[u8]>) -> Result<Option<Url>, Mem>
    ensures { IfOk result (λ url. url ≡ option_and_then callback_in (option_map (λ x. x.now) text.entry)) }
{
    match text {
        Some(text) => callback_in(alloc, text),
        None => Ok(None),
    }
}

/// Returns whether all bytes are digits.
fn all_digits(bytes: &[u8]) -> bool
    ensures { result ≡ list_all (λ byte. is_digit byte 10) bytes.now }
{
    bytes.iter().all(|byte| char::from(*byte).is_digit(10))
}

/// Returns whether there is at least one byte and all are digits.
fn is_number(bytes: &[u8]) -> bool
    ensures { result ≡ is_number_in 10 bytes.now }
{
    bytes.len() > 0 && all_digits(bytes)
}

/// Returns the seconds that digits grant.
fn seconds_by(digits: &[u8]) -> u32
    ensures { result ≡ seconds_by digits.now }
{
    if !is_number(digits) {
        return LEAST_SECONDS;
    }
    match read_u32(digits) {
        Some(seconds) => seconds.clamp(LEAST_SECONDS, MOST_SECONDS),
        None => MOST_SECONDS,
    }
}

/// Returns the first bytes of a TIMEOUT, in which its word stands.
fn word_of(text: &[u8]) -> &[u8]
    ensures { result.now ≡ take 7 text.now }
{
    text.split_at(7usize.min(text.len())).0
}

/// Returns the bytes after that word.
fn behind_word(text: &[u8]) -> &[u8]
    ensures { result.now ≡ drop 7 text.now }
{
    text.split_at(7usize.min(text.len())).1
}

/// Returns the seconds that a TIMEOUT grants.
fn seconds_in(text: &[u8]) -> u32
    ensures { result ≡ seconds_in text.now }
{
    if word_of(text).eq_ignore_ascii_case(b"second-") {
        seconds_by(behind_word(text))
    } else {
        LEAST_SECONDS
    }
}

/// Returns the seconds that a TIMEOUT grants if the field may be missing.
pub(crate) fn seconds_of(text: Option<&[u8]>) -> u32
    ensures { result ≡ seconds_of (option_map (λ x. x.now) text.entry) }
{
    match text {
        Some(text) => seconds_in(text),
        None => LEAST_SECONDS,
    }
}

/// Returns whether an NT names events.
fn is_event(text: Option<&[u8]>) -> bool
    ensures { result ≡ is_event (option_map (λ x. x.now) text.entry) }
{
    match text {
        Some(text) => text == b"upnp:event".as_slice(),
        None => false,
    }
}

/// Returns what a SUBSCRIBE with an NT of events asks for.
fn subscribing(alloc: Global, callback: Option<&[u8]>, seconds: u32) -> Result<Gena, GenaError>
    ensures { Answers result (subscribing (option_and_then callback_in (option_map (λ x. x.now) callback.entry)) seconds) }
{
    match callback_of(alloc, callback)? {
        Some(callback) => Ok(Gena::Subscribe { callback, seconds }),
        None => Err(GenaError::Precondition),
    }
}

/// Returns what a SUBSCRIBE with a SID asks for.
fn renewing(sid: &[u8], seconds: u32) -> Result<Gena, GenaError>
    ensures { Answers result (renewing (sid_in sid.now) seconds) }
{
    match Sid::read(sid) {
        Some(sid) => Ok(Gena::Renew { sid, seconds }),
        None => Err(GenaError::Precondition),
    }
}

/// Returns what an UNSUBSCRIBE asks for.
fn ending(sid: Option<&[u8]>) -> Result<Gena, GenaError>
    ensures { Answers result (ending (option_and_then sid_in (option_map (λ x. x.now) sid.entry))) }
{
    let Some(sid) = sid else {
        return Err(GenaError::Precondition);
    };
    match Sid::read(sid) {
        Some(sid) => Ok(Gena::Unsubscribe { sid }),
        None => Err(GenaError::Precondition),
    }
}

/// Returns what a SUBSCRIBE asks for.
fn subscribe_of(
    alloc: Global,
    sid: Option<&[u8]>,
    callback: Option<&[u8]>,
    nt: Option<&[u8]>,
    timeout: Option<&[u8]>,
) -> Result<Gena, GenaError>
    ensures { Answers result (subscribe_of (option_map (λ x. x.now) sid.entry) (option_map (λ x. x.now) callback.entry)
        (option_map (λ x. x.now) nt.entry) (option_map (λ x. x.now) timeout.entry)) }
{
    match sid {
        Some(sid) => renewing(sid, seconds_of(timeout)),
        None => {
            if !is_event(nt) {
                return Err(GenaError::Precondition);
            }
            subscribing(alloc, callback, seconds_of(timeout))
        }
    }
}

/// Returns what a request about a subscription asks for. The seconds of TIMEOUT are put within 1,800 and 86,400. The
/// refusals, in this order:
///
/// - `Incompatible` (status 400): SID stands beside CALLBACK or NT.
/// - `Precondition` (status 412): UNSUBSCRIBE has no SID, or a SID has no name in it.
/// - `Precondition` (status 412): SUBSCRIBE has no SID, and NT is not `upnp:event`.
/// - `Precondition` (status 412): SUBSCRIBE has no SID, and CALLBACK does not begin with an `http` address with a host,
///   in `<` and `>`.
pub fn read_gena(alloc: Global, message: &Message) -> Result<Gena, GenaError>
    requires method { IsTrue (asks_of_subscription message.now.start) }
    ensures answers { Answers result (gena_of message.now) }
    ensures delivered { IfOk result IsDeliverable }
{
    let sid = field_of(&message.fields, "sid");
    let callback = field_of(&message.fields, "callback");
    let nt = field_of(&message.fields, "nt");
    if sid.is_some() && (callback.is_some() || nt.is_some()) {
        return Err(GenaError::Incompatible);
    }
    if has_method(message, "SUBSCRIBE") {
        let timeout = field_of(&message.fields, "timeout");
        subscribe_of(alloc, sid, callback, nt, timeout)
    } else {
        ending(sid)
    }
}
