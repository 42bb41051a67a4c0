//! Requests about subscriptions: what is done, replied and noted.

ghost use Rattle.std.specs.Prelude.{◌≡◌, ◌≢◌, ◌+◌, ◌≤◌, ◌<◌, ◌^◌, ◌++◌, ℕ, length, take, codes, Ok, Some, None, IsTrue, IfOk, OnOk, OnErr, MatchOption, string_bytes};
ghost use Rattle.std.specs.Fmt.{decimal};
ghost use Rattle.url.specs.Parts.{serialize};
ghost use Rattle.cds_commands.specs.Notes.{first_note};
ghost use Rattle.cds_gena.specs.Asked.{is_deliverable};
ghost use Rattle.cds_gena.specs.Subscribed.{grant_refusal, last_number, living_named};
ghost use Rattle.cds_gena.specs.declared.error.GenaError.TheVariants as gena_error;
ghost use Rattle.cds_control.specs.Replies.{empty_reply};
ghost use Rattle.cds_server.specs.Outcome.{IsDone, GoesOut, ending, granting, lease_fields, lease_reply, noted, outcome_in, renewing, status_of, unsettled};

use crate::asking::EventRequest;
use crate::made::Settled;
use crate::notes::FirstNote;
use cds_base::{Bytes, Mem, Text};
use cds_control::put_empty;
use cds_gena::{Address, Book, Gena, GenaError, Lease, Sid};
use cds_http::{Fields, write_reply};
use cds_notify::write_propertyset;
use cds_object::Events;
use std::alloc::Global;
use url::Url;

/// When a request came: its moment in milliseconds, and the number of the last change then.
#[derive(Clone, Copy)]
pub struct When {
    pub moment: u64,
    pub number: u32,
}

/// Returns the name that the next subscription gets, if a number is left.
fn next_sid(book: &Book) -> Option<Sid>
    requires room { book.now.names + 2 ^ 32 ≤ 2 ^ 128 }
    ensures { MatchOption result (book.now.subscribed.granted ≡ last_number)
        (λ sid. sid.0 ≡ book.now.names + (book.now.subscribed.granted + 1)) }
{
    let granted = book.granted();
    if granted == u32::MAX {
        return None;
    }
    Some(Sid(book.names() + (u128::from(granted) + 1)))
}

/// Returns the first note to a name at a callback, which tells the number of the last change.
fn first_note(alloc: Global, sid: Sid, callback: &Url, number: u32) -> Result<FirstNote, Mem>
    requires delivered { IsTrue (is_deliverable callback.now) }
    ensures note { IfOk result (λ note. note ≡ noted sid.0 (serialize callback.now) (first_note sid.0 number)) }
    ensures delivered { IfOk result (λ note. GoesOut (Some note)) }
{
    let callback = Text::read(alloc, callback.as_str())?;
    let containers = Vec::new(alloc);
    let events = Events::new(alloc);
    let mut body = Vec::new(alloc);
    write_propertyset(
        alloc,
        number,
        containers.as_slice(),
        events.as_slice(),
        &mut body,
    )?;
    Ok(FirstNote {
        to: Address {
            sid,
            callback,
            seq: 0,
        },
        body: Bytes::from(body),
    })
}

/// Returns the text of TIMEOUT.
fn timeout_text(alloc: Global, seconds: u32) -> Result<String, Mem>
    ensures { IfOk result (λ text. string_bytes text ≡ codes "Second-" ++ decimal seconds) }
{
    let digits = seconds.to_string(alloc)?;
    let mut text = String::from_str(alloc, "Second-")?;
    text.push_str(digits.as_str())?;
    Ok(text)
}

/// Returns the given fields of the reply to an accepted SUBSCRIBE.
fn lease_fields(alloc: Global, lease: Lease) -> Result<Fields, Mem>
    ensures fields { IfOk result (λ fields. fields ≡ lease_fields lease.sid.0 lease.seconds) }
    ensures few { lease.seconds < 2 ^ 32 }
{
    let sid = lease.sid.text(alloc)?;
    let timeout = timeout_text(alloc, lease.seconds)?;
    let mut fields = Fields::new(alloc);
    fields.push(alloc, "SID", sid.as_str())?;
    fields.push(alloc, "TIMEOUT", timeout.as_str())?;
    Ok(fields)
}

/// Appends the reply to an accepted SUBSCRIBE.
fn put_lease(alloc: Global, lease: Lease, out: &mut Vec<u8>) -> Result<(), Mem>
    ensures ok { OnOk result (out.new.items ≡ out.old.items ++ lease_reply lease.sid.0 lease.seconds) }
    ensures err { OnErr result (out.new.items ≡ out.old.items) }
{
    let fields = lease_fields(alloc, lease)?;
    write_reply(200, &fields, b"", out)
}

/// Appends the reply to a refused request. If memory ran out, nothing is appended.
pub fn refuse(alloc: Global, refusal: GenaError, out: &mut Vec<u8>) -> Result<(), Mem>
    ensures ok { OnOk result (out.new.items ≡ out.old.items ++ empty_reply (status_of refusal)) }
    ensures cause { OnOk result (refusal ≢ gena_error.Mem) }
    ensures err { OnErr result (out.new.items ≡ out.old.items) }
{
    match refusal {
        GenaError::Mem => Err(Mem),
        GenaError::Incompatible => put_empty(alloc, 400, out),
        GenaError::Precondition => put_empty(alloc, 412, out),
        GenaError::Spent => put_empty(alloc, 503, out),
        GenaError::Full { .. } => put_empty(alloc, 503, out),
    }
}

/// Appends the reply to a refused request, of which nothing is accepted.
fn refused(alloc: Global, refusal: GenaError, out: &mut Vec<u8>) -> Result<Settled, Mem>
    ensures ok { OnOk result (out.new.items ≡ out.old.items ++ empty_reply (status_of refusal)) }
    ensures cause { OnOk result (refusal ≢ gena_error.Mem) }
    ensures none { IfOk result (λ settled. settled ≡ unsettled) }
    ensures err { OnErr result (out.new.items ≡ out.old.items) }
{
    refuse(alloc, refusal, out)?;
    Ok(Settled {
        note: None,
        accepted: false,
    })
}

/// Drops what was appended after a place, and refuses the request instead.
fn refused_instead(
    alloc: Global,
    before: usize,
    refusal: GenaError,
    out: &mut Vec<u8>,
) -> Result<Settled, Mem>
    requires inside { before ≤ length out.old.items }
    ensures ok { OnOk result (out.new.items ≡ take before out.old.items ++ empty_reply (status_of refusal)) }
    ensures cause { OnOk result (refusal ≢ gena_error.Mem) }
    ensures none { IfOk result (λ settled. settled ≡ unsettled) }
    ensures err { OnErr result (out.new.items ≡ take before out.old.items) }
{
    out.truncate(before);
    refused(alloc, refusal, out)
}

/// Grants a subscription, if one more is granted.
fn grant(
    alloc: Global,
    book: &mut Book,
    when: When,
    callback: &Url,
    seconds: u32,
    out: &mut Vec<u8>,
) -> Result<Settled, Mem>
    requires room { book.old.names + 2 ^ 32 ≤ 2 ^ 128 }
    requires delivered { IsTrue (is_deliverable callback.now) }
    ensures answers { IfOk result (λ settled. IsDone book.old when.number when.moment
        (granting (grant_refusal when.moment book.old.subscribed) (serialize callback.now) seconds) out.old.items out.new.items settled book.new) }
    ensures delivered { IfOk result (λ settled. GoesOut settled.note) }
    ensures stays { OnErr result (book.new ≡ book.old) }
    ensures kept { OnErr result (out.new.items ≡ out.old.items) }
{
    match next_sid(book) {
        None => refused(alloc, GenaError::Spent, out),
        Some(sid) => grant_named(alloc, book, when, callback, Lease { sid, seconds }, out),
    }
}

/// Grants a subscription under the next name, if one more is granted.
fn grant_named(
    alloc: Global,
    book: &mut Book,
    when: When,
    callback: &Url,
    lease: Lease,
    out: &mut Vec<u8>,
) -> Result<Settled, Mem>
    requires named { lease.sid.0 ≡ book.old.names + (book.old.subscribed.granted + 1) }
    requires delivered { IsTrue (is_deliverable callback.now) }
    ensures answers { IfOk result (λ settled. IsDone book.old when.number when.moment
        (granting (grant_refusal when.moment book.old.subscribed) (serialize callback.now) lease.seconds) out.old.items out.new.items settled book.new) }
    ensures delivered { IfOk result (λ settled. GoesOut settled.note) }
    ensures stays { OnErr result (book.new ≡ book.old) }
    ensures kept { OnErr result (out.new.items ≡ out.old.items) }
{
    let note = first_note(alloc, lease.sid, callback, when.number)?;
    let before = out.len();
    put_lease(alloc, lease, out)?;
    match book.subscribe(alloc, when.moment, callback, lease.seconds) {
        Ok(_) => Ok(Settled {
            note: Some(note),
            accepted: true,
        }),
        Err(refusal) => refused_instead(alloc, before, refusal, out),
    }
}

/// Renews the subscription of a name, if it lives.
fn renew(
    alloc: Global,
    book: &mut Book,
    now: u64,
    lease: Lease,
    out: &mut Vec<u8>,
) -> Result<Settled, Mem>
    ensures answers { IfOk result (λ settled. (number : ℕ) → IsDone book.old number now
        (renewing (living_named now lease.sid.0 book.old) lease.seconds) out.old.items out.new.items settled book.new) }
    ensures none { IfOk result (λ settled. settled.note ≡ None) }
    ensures stays { OnErr result (book.new ≡ book.old) }
    ensures kept { OnErr result (out.new.items ≡ out.old.items) }
{
    let place = out.len();
    put_lease(alloc, lease, out)?;
    match book.renew(now, lease.sid, lease.seconds) {
        Ok(()) => Ok(Settled {
            note: None,
            accepted: true,
        }),
        Err(refusal) => refused_instead(alloc, place, refusal, out),
    }
}

/// Ends the subscription of a name, if it lives.
fn end(
    alloc: Global,
    book: &mut Book,
    now: u64,
    sid: Sid,
    out: &mut Vec<u8>,
) -> Result<Settled, Mem>
    ensures answers { IfOk result (λ settled. (number : ℕ) → IsDone book.old number now
        (ending (living_named now sid.0 book.old)) out.old.items out.new.items settled book.new) }
    ensures none { IfOk result (λ settled. settled.note ≡ None) }
    ensures stays { OnErr result (book.new ≡ book.old) }
    ensures kept { OnErr result (out.new.items ≡ out.old.items) }
{
    let begin = out.len();
    put_empty(alloc, 200, out)?;
    match book.unsubscribe(now, sid) {
        Ok(()) => Ok(Settled {
            note: None,
            accepted: true,
        }),
        Err(refusal) => refused_instead(alloc, begin, refusal, out),
    }
}

/// Does what a request about a subscription asks for, and appends the reply. Returns the first note of a subscription that was
/// granted, and whether a command was accepted. If memory runs out, nothing is done.
pub fn settle(
    alloc: Global,
    book: &mut Book,
    when: When,
    request: &EventRequest,
    out: &mut Vec<u8>,
) -> Result<Settled, Mem>
    requires room { book.old.names + 2 ^ 32 ≤ 2 ^ 128 }
    ensures answers { IfOk result (λ settled. IsDone book.old when.number when.moment (outcome_in book.old when.moment (Ok request.now.gena))
        out.old.items out.new.items settled book.new) }
    ensures delivered { IfOk result (λ settled. GoesOut settled.note) }
    ensures stays { OnErr result (book.new ≡ book.old) }
    ensures kept { OnErr result (out.new.items ≡ out.old.items) }
{
    match &request.gena {
        Gena::Subscribe { callback, seconds } => grant(alloc, book, when, callback, *seconds, out),
        Gena::Renew { sid, seconds } => {
            let lease = Lease {
                sid: *sid,
                seconds: *seconds,
            };
            renew(alloc, book, when.moment, lease, out)
        }
        Gena::Unsubscribe { sid } => end(alloc, book, when.moment, *sid, out),
    }
}
