//! Reads notes.

ghost use Rattle.cds_notify.specs.Said.{Answers};

use crate::body::content_of;
use crate::heading::heading_of;
use crate::note::{Note, NoteError};
use cds_http::Message;
use std::alloc::Global;

/// Returns the note that a message is (UPnP Device Architecture 2.0 on event messages). Variables other than
/// SystemUpdateID and LastChange are passed over. The refusals, in this order:
///
/// - `Head` (status 400): the method is not NOTIFY, NT or NTS is missing, or SEQ is no number of 32 bits.
/// - `Precondition` (status 412): NT is not `upnp:event`, NTS is not `upnp:propchange`, or SID is missing or has no
///   name.
/// - `Body` (status 400): the body is no document or no `propertyset`.
/// - `Body` (status 400): SystemUpdateID does not come once in its properties, as a number of 32 bits.
/// - `Body` (status 400): LastChange does not come once in its properties, as a StateEvent.
pub fn read_notify(alloc: Global, message: &Message) -> Result<Note, NoteError>
    ensures { Answers message.now result }
{
    let heading = match heading_of(message) {
        Ok(heading) => heading,
        Err(refusal) => return Err(refusal),
    };
    let content = match content_of(alloc, message.body.as_slice()) {
        Ok(content) => content,
        Err(refusal) => return Err(refusal),
    };
    Ok(Note {
        sid: heading.sid,
        seq: heading.seq,
        number: content.number,
        events: content.events,
    })
}
