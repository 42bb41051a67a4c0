//! Reads the fields of a note.

ghost use Rattle.std.specs.Prelude.{◌≡◌, option_and_then, option_map};
ghost use Rattle.cds_gena.specs.SidText.{sid_in};
ghost use Rattle.cds_notify.specs.Said.{heading_of, is_word, named_note, of_events, seq_in};

use crate::note::NoteError;
use cds_base::read_u32;
use cds_gena::{Sid, field_of, has_method};
use cds_http::Message;

/// The subscription of a note, and its SEQ.
#[derive(Clone, Copy, Debug, PartialEq, Eq)]
pub struct Heading {
    pub sid: Sid,
    pub seq: u32,
}

/// Returns whether a field is there and has this text.
fn is_word(word: &str, text: Option<&[u8]>) -> bool
    ensures { result ≡ is_word word.now (option_map (λ x. x.now) text.entry) }
{
    match text {
        Some(text) => text == word.as_bytes(),
        None => false,
    }
}

/// Returns the number that a SEQ is.
fn seq_in(text: Option<&[u8]>) -> Option<u32>
    ensures { result ≡ seq_in (option_map (λ x. x.now) text.entry) }
{
    match text {
        Some(text) => read_u32(text),
        None => None,
    }
}

/// Returns the heading of a note with this SEQ, by the name in its SID.
fn named_note(sid: Option<&[u8]>, seq: u32) -> Result<Heading, NoteError>
    ensures { result ≡ named_note seq (option_and_then sid_in (option_map (λ x. x.now) sid.entry)) }
{
    let Some(text) = sid else {
        return Err(NoteError::Precondition);
    };
    match Sid::read(text) {
        Some(sid) => Ok(Heading { sid, seq }),
        None => Err(NoteError::Precondition),
    }
}

/// Returns what NT, NTS and SID of a note say, after its SEQ was read.
fn of_events(
    nt: Option<&[u8]>,
    nts: Option<&[u8]>,
    sid: Option<&[u8]>,
    seq: u32,
) -> Result<Heading, NoteError>
    ensures { result ≡ of_events (option_map (λ x. x.now) nt.entry) (option_map (λ x. x.now) nts.entry) (option_map (λ x. x.now) sid.entry) seq }
{
    if is_word("upnp:event", nt) && is_word("upnp:propchange", nts) {
        named_note(sid, seq)
    } else {
        Err(NoteError::Precondition)
    }
}

/// Returns what the fields of a note say. `Head` comes if the method is not NOTIFY, if NT or NTS is missing, or if SEQ
/// is no number. After these checks, `Precondition` comes if NT or NTS has another text, or if SID has no name.
pub fn heading_of(message: &Message) -> Result<Heading, NoteError>
    ensures { result ≡ heading_of message.now }
{
    let nt = field_of(&message.fields, "nt");
    let nts = field_of(&message.fields, "nts");
    if !has_method(message, "NOTIFY") || nt.is_none() || nts.is_none() {
        return Err(NoteError::Head);
    }
    match seq_in(field_of(&message.fields, "seq")) {
        None => Err(NoteError::Head),
        Some(seq) => of_events(nt, nts, field_of(&message.fields, "sid"), seq),
    }
}
