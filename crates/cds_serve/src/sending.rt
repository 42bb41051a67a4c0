//! Notes that go out over a link.

ghost use Rattle.std.specs.Prelude.{◌≡◌, ◌≤◌, true, List, ◌∷◌, [], map, Option, Some, IfOk, IfSome, IsErr, IsSome, OnErr};
ghost use Rattle.std.specs.List.{AllByRecursion};
ghost use Rattle.cds_outside.specs.declared.link.LinkRequest.{LinkRequest};
ghost use Rattle.cds_outside.specs.Outside.{Told};
ghost use Rattle.cds_outside.specs.Links.{requests_after};
ghost use Rattle.cds_gena.specs.Subscribed.{IsDelivered};
ghost use Rattle.cds_server.specs.Due.{AllGoOut};
ghost use Rattle.cds_server.specs.Outcome.{GoesOut};
ghost use Rattle.cds_serve.specs.Sent.{GivesAll, GivesFront, GivesEach, first_requests, note_request, release_requests, sent_despite};

use cds_base::Mem;
use cds_gena::Address;
use cds_notify::write_notify;
use cds_outside::{Conn, Link, LinkFault};
use cds_server::{FirstNote, Notes};
use std::alloc::Global;

/// The limit, in bytes, of what is taken of a subscriber's reply to a note.
const NOTE_LIMIT: usize = 16_384;

/// Sends a note with this body. A note that the link refuses is lost. If memory runs out, it is not sent.
fn send_note<L: Link>(alloc: Global, link: &mut L, to: &Address, body: &[u8]) -> Result<(), Mem>
    requires delivered { IsDelivered to.now }
    ensures given { GivesAll result (note_request body.now to.now ∷ []) (L.told link.old).requests (L.told link.new).requests }
    ensures never_falls { (L.told link.old).faults ≤ (L.told link.new).faults }
{
    let mut request = Vec::new(alloc);
    write_notify(alloc, to, body, &mut request)?;
    let exchanged = link.exchange(alloc, to.callback.as_str(), request.as_slice(), NOTE_LIMIT);
    sent(&exchanged)
}

/// Returns `Ok` if a request went out, by what came of it.
fn sent(exchanged: &Result<Vec<u8>, LinkFault>) -> Result<(), Mem>
    ensures { (request : LinkRequest) (before after : Option (List LinkRequest))
        → Told before (λ list. after ≡ Some (requests_after exchanged.now request list)) → GivesAll result (request ∷ []) before after }
{
    match exchanged {
        Ok(_) => Ok(()),
        Err(fault) => lost(*fault),
    }
}

/// Returns `Ok` if a request counts as sent although the link failed. It does, except when memory ran out.
fn lost(fault: LinkFault) -> Result<(), Mem>
    ensures { (request : LinkRequest) (before after : Option (List LinkRequest))
        → GivesEach (sent_despite fault request) before after → GivesAll result (request ∷ []) before after }
{
    match fault {
        LinkFault::Failed => Ok(()),
        LinkFault::Over => Ok(()),
        LinkFault::Mem => Err(Mem),
    }
}

/// Sends the first note of a subscription, if there is one. The connection over which it was asked for is finished.
pub(crate) fn send_first<C: Conn, L: Link>(
    alloc: Global,
    conn: &C,
    link: &mut L,
    note: &Option<FirstNote>,
) -> Result<(), Mem>
    requires ended { C.finished conn.now ≡ true }
    requires delivered { GoesOut note.now }
    ensures given { GivesAll result (first_requests note.now) (L.told link.old).requests (L.told link.new).requests }
    ensures noted { IsErr result → IsSome note.now }
    ensures never_falls { (L.told link.old).faults ≤ (L.told link.new).faults }
{
    // (only the condition needs it)
    let _ = conn;
    match note {
        Some(note) => send_note(alloc, link, &note.to, note.body.as_slice()),
        None => Ok(()),
    }
}

/// Sends the notes of a release, if there is one, in their order. If memory runs out, a prefix of them is sent, never all.
pub(crate) fn send_notes<L: Link>(
    alloc: Global,
    link: &mut L,
    notes: &Option<Notes>,
) -> Result<(), Mem>
    requires delivered { IfSome notes.now AllGoOut }
    ensures given { IfOk result (λ _. GivesEach (release_requests notes.now) (L.told link.old).requests (L.told link.new).requests) }
    ensures front { OnErr result (GivesFront (release_requests notes.now) (L.told link.old).requests (L.told link.new).requests) }
    ensures never_falls { (L.told link.old).faults ≤ (L.told link.new).faults }
{
    match notes {
        Some(notes) => send_each(alloc, link, notes.to.as_slice(), notes.body.as_slice()),
        None => Ok(()),
    }
}

/// Sends a note with this body to each address, in their order.
fn send_each<L: Link>(alloc: Global, link: &mut L, to: &[Address], body: &[u8]) -> Result<(), Mem>
    requires delivered { AllByRecursion IsDelivered to.now }
    ensures given { IfOk result (λ _. GivesEach (map (note_request body.now) to.now) (L.told link.old).requests (L.told link.new).requests) }
    ensures front { OnErr result (GivesFront (map (note_request body.now) to.now) (L.told link.old).requests (L.told link.new).requests) }
    ensures never_falls { (L.told link.old).faults ≤ (L.told link.new).faults }
{
    'notes: for address in to {
        send_note(alloc, link, address, body)?;
    }
    Ok(())
}
