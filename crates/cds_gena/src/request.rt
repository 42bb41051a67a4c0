//! Writes requests about subscriptions, as a control point sends them.

ghost use Rattle.std.specs.Prelude.{◌≡◌, ◌++◌, [], codes, string_bytes, IfOk, IsTrue, OnErr, OnOk};
ghost use Rattle.url.specs.Parts.{IsValid};
ghost use Rattle.cds_http.specs.Written.{CanBeWritten, written_request};
ghost use Rattle.cds_gena.specs.Asked.{is_deliverable};
ghost use Rattle.cds_gena.specs.Written.{callback_text, renewal_fields, renewal_text, subscribe_fields, subscribe_text, target_of, unsubscribe_fields, unsubscribe_text};

use crate::sid::Sid;
use cds_base::{Mem, put};
use cds_http::{Fields, write_request};
use std::alloc::Global;
use url::{Position, Url};

/// Returns the text of a CALLBACK.
fn callback_text(alloc: Global, callback: &Url) -> Result<String, Mem>
    ensures text { IfOk result (λ text. string_bytes text ≡ callback_text callback.now) }
    ensures valid { OnOk result (IsValid callback.now) }
{
    let mut text = String::new(alloc);
    put(&mut text, "<")?;
    put(&mut text, callback.as_str())?;
    put(&mut text, ">")?;
    Ok(text)
}

/// Returns the given fields of a new subscription.
fn subscribe_fields(alloc: Global, url: &Url, callback: &Url) -> Result<Fields, Mem>
    requires delivered { IsTrue (is_deliverable callback.now) }
    ensures fields { IfOk result (λ fields. fields ≡ subscribe_fields url.now callback.now) }
    ensures can { IfOk result CanBeWritten }
{
    let host = url.slice(Position::BeforeHost, Position::AfterPort);
    let callback = callback_text(alloc, callback)?;
    let mut fields = Fields::new(alloc);
    fields.push(alloc, "HOST", host)?;
    fields.push(alloc, "CALLBACK", callback.as_str())?;
    fields.push(alloc, "NT", "upnp:event")?;
    fields.push(alloc, "TIMEOUT", "Second-1800")?;
    Ok(fields)
}

/// Returns the given fields of a renewal.
fn renewal_fields(alloc: Global, url: &Url, sid: Sid) -> Result<Fields, Mem>
    ensures fields { IfOk result (λ fields. fields ≡ renewal_fields url.now sid.0) }
    ensures can { IfOk result CanBeWritten }
{
    let host = url.slice(Position::BeforeHost, Position::AfterPort);
    let sid = sid.text(alloc)?;
    let mut fields = Fields::new(alloc);
    fields.push(alloc, "HOST", host)?;
    fields.push(alloc, "SID", sid.as_str())?;
    fields.push(alloc, "TIMEOUT", "Second-1800")?;
    Ok(fields)
}

/// Returns the given fields of an end.
fn unsubscribe_fields(alloc: Global, url: &Url, sid: Sid) -> Result<Fields, Mem>
    ensures fields { IfOk result (λ fields. fields ≡ unsubscribe_fields url.now sid.0) }
    ensures can { IfOk result CanBeWritten }
{
    let host = url.slice(Position::BeforeHost, Position::AfterPort);
    let sid = sid.text(alloc)?;
    let mut fields = Fields::new(alloc);
    fields.push(alloc, "HOST", host)?;
    fields.push(alloc, "SID", sid.as_str())?;
    Ok(fields)
}

/// Appends a request to an address, without a body.
fn put_request(method: &str, url: &Url, fields: &Fields, out: &mut Vec<u8>) -> Result<(), Mem>
    requires can { CanBeWritten fields.now }
    ensures ok { OnOk result (out.new.items ≡ out.old.items ++ written_request method.now (target_of url.now) fields.now []) }
    ensures err { OnErr result (out.new.items ≡ out.old.items) }
{
    let target = url.slice(Position::BeforePath, Position::AfterQuery);
    write_request(method, target, fields, &[], out)
}

/// Appends the request for a subscription of 1,800 seconds at an address. Its notes are to be delivered at a callback.
/// The request is SUBSCRIBE with the path and the query of the address, HOST, CALLBACK, `NT: upnp:event`, TIMEOUT,
/// CONTENT-LENGTH, `CONNECTION: close` and an empty line (UPnP Device Architecture 2.0 on eventing). HOST is the host
/// of the address and, unless that is 80, its port. Both addresses must be `http` URLs with a host. If memory runs out,
/// nothing is appended.
pub fn write_subscribe(
    alloc: Global,
    url: &Url,
    callback: &Url,
    out: &mut Vec<u8>,
) -> Result<(), Mem>
    requires address { IsTrue (is_deliverable url.now) }
    requires delivered { IsTrue (is_deliverable callback.now) }
    ensures ok { OnOk result (out.new.items ≡ out.old.items ++ subscribe_text url.now callback.now) }
    ensures err { OnErr result (out.new.items ≡ out.old.items) }
{
    let fields = subscribe_fields(alloc, url, callback)?;
    put_request("SUBSCRIBE", url, &fields, out)
}

/// Appends the request that renews a subscription for 1,800 seconds at the `http` URL at which it was granted. It is
/// like that of `write_subscribe`, with SID in place of CALLBACK and NT. If memory runs out, nothing is appended.
pub fn write_renewal(alloc: Global, url: &Url, sid: Sid, out: &mut Vec<u8>) -> Result<(), Mem>
    ensures ok { OnOk result (out.new.items ≡ out.old.items ++ renewal_text url.now sid.0) }
    ensures err { OnErr result (out.new.items ≡ out.old.items) }
{
    let fields = renewal_fields(alloc, url, sid)?;
    put_request("SUBSCRIBE", url, &fields, out)
}

/// Appends the request that ends a subscription at the `http` URL at which it was granted. It is UNSUBSCRIBE, otherwise
/// like that of `write_subscribe`, with only HOST and SID given. If memory runs out, nothing is appended.
pub fn write_unsubscribe(alloc: Global, url: &Url, sid: Sid, out: &mut Vec<u8>) -> Result<(), Mem>
    ensures ok { OnOk result (out.new.items ≡ out.old.items ++ unsubscribe_text url.now sid.0) }
    ensures err { OnErr result (out.new.items ≡ out.old.items) }
{
    let fields = unsubscribe_fields(alloc, url, sid)?;
    put_request("UNSUBSCRIBE", url, &fields, out)
}
