//! Writes the request that carries a note.

ghost use Rattle.std.specs.Prelude.{◌≡◌, ◌++◌, ◌<◌, ◌^◌, IfOk, IfSome, OnErr, OnOk};
ghost use Rattle.std.specs.Fmt.{decimal};
ghost use Rattle.cds_gena.specs.Asked.{url_in};
ghost use Rattle.cds_gena.specs.Subscribed.{IsDelivered};
ghost use Rattle.cds_notify.specs.Notify.{note_fields, notify_text};

use cds_base::Mem;
use cds_gena::{Address, Sid};
use cds_http::{Fields, write_request};
use std::alloc::Global;
use url::Position;

/// Returns the given fields of a note to a host, with the name of a subscription and a SEQ.
fn note_fields(alloc: Global, host: &str, sid: Sid, seq: u32) -> Result<Fields, Mem>
    ensures fields { IfOk result (λ fields. fields ≡ note_fields host.now sid.0 seq) }
    ensures few { seq < 2 ^ 32 }
{
    let sid = sid.text(alloc)?;
    let seq = seq.to_string(alloc)?;
    let mut fields = Fields::new(alloc);
    fields.push(alloc, "HOST", host)?;
    fields.push(alloc, "CONTENT-TYPE", "text/xml; charset=\"utf-8\"")?;
    fields.push(alloc, "NT", "upnp:event")?;
    fields.push(alloc, "NTS", "upnp:propchange")?;
    fields.push(alloc, "SID", sid.as_str())?;
    fields.push(alloc, "SEQ", seq.as_str())?;
    Ok(fields)
}

/// Appends the request that carries a note with this body (UPnP Device Architecture 2.0 on event messages). It is
/// NOTIFY with the path and the query of the callback, HOST, CONTENT-TYPE, NT, NTS, SID, SEQ, CONTENT-LENGTH,
/// `CONNECTION: close`, an empty line and the body. The callback must be an `http` URL with a host, as are those that a
/// book gives. If memory runs out, nothing is appended.
pub fn write_notify(alloc: Global, to: &Address, body: &[u8], out: &mut Vec<u8>) -> Result<(), Mem>
    requires delivered { IsDelivered to.now }
    ensures ok { OnOk result (IfSome (url_in to.now.callback) (λ url. out.new.items ≡ out.old.items ++ notify_text url to.now body.now)) }
    ensures err { OnErr result (out.new.items ≡ out.old.items) }
{
    let url = to.url(alloc)?;
    let host = url.slice(Position::BeforeHost, Position::AfterPort);
    let target = url.slice(Position::BeforePath, Position::AfterQuery);
    let fields = note_fields(alloc, host, to.sid, to.seq)?;
    write_request("NOTIFY", target, &fields, body, out)
}
