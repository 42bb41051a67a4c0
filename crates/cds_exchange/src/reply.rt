//! Reads what the bytes of a reply show.

ghost use Rattle.std.specs.Prelude.{ℕ, IfOk};
ghost use Rattle.cds_soap.specs.declared.answer.Answer.{Answer};
ghost use Rattle.cds_exchange.specs.Readings.{IsReading, IsFound, IsSaid, IsShown};

use crate::action_of;
use cds_base::Mem;
use cds_didl::{DidlError, read_didl};
use cds_load::{Ask, Shown};
use cds_object::Rows;
use cds_soap::{Action, Answer, SoapError, read_answer};
use std::alloc::Global;

/// Returns what the bytes of a reply show to an ask. Bytes after the reply are passed over. `None` comes exactly if the
/// bytes are no reply that answers the ask, or if its page is no DIDL-Lite document. Otherwise a reply shows one of:
///
/// - A token.
/// - A number.
/// - The rows of a DIDL-Lite document, with how many there are in all and an update number.
/// - The code of a fault.
pub fn read_reply(alloc: Global, ask: &Ask, bytes: &[u8]) -> Result<Option<Shown>, Mem>
    ensures { IfOk result (λ shown. IsReading ask.now bytes.now shown) }
{
    let action = action_of(alloc, ask)?;
    match answer_in(alloc, &action, bytes)? {
        Some(answer) => shown_by(alloc, answer),
        None => Ok(None),
    }
}

/// Returns what the bytes of a reply answer to an action.
fn answer_in(alloc: Global, action: &Action, bytes: &[u8]) -> Result<Option<Answer>, Mem>
    ensures { IfOk result (λ found. IsFound bytes.now action.now found) }
{
    match read_answer(alloc, action, bytes) {
        Ok(answer) => Ok(Some(answer)),
        Err(SoapError::Mem) => Err(Mem),
        Err(SoapError::NotAnswer) => Ok(None),
        Err(SoapError::Markup(_)) => Ok(None),
        Err(SoapError::InvalidAction) => Ok(None),
        Err(SoapError::InvalidArgs) => Ok(None),
    }
}

/// Returns what an answer shows.
fn shown_by(alloc: Global, answer: Answer) -> Result<Option<Shown>, Mem>
    ensures { IfOk result (λ shown. IsShown answer shown) }
{
    match answer {
        Answer::Text(token) => Ok(Some(Shown::Text(token))),
        Answer::Number(number) => Ok(Some(Shown::Number(number))),
        Answer::Fault { code } => Ok(Some(Shown::Fault { code })),
        Answer::Page {
            result,
            total,
            update,
            ..
        } => page_shown(alloc, result.as_slice(), total, update),
    }
}

/// Returns what a page shows, whatever number of rows it claims to have.
fn page_shown(alloc: Global, page: &[u8], total: u32, update: u32) -> Result<Option<Shown>, Mem>
    ensures { (returned : ℕ) → IfOk result (λ shown. IsShown (Answer.Page page.now returned total update) shown) }
{
    match rows_in(alloc, page)? {
        Some(rows) => Ok(Some(Shown::Page {
            rows,
            total,
            update,
        })),
        None => Ok(None),
    }
}

/// Returns the rows of a DIDL-Lite document.
fn rows_in(alloc: Global, page: &[u8]) -> Result<Option<Rows>, Mem>
    ensures { IfOk result (λ said. IsSaid page.now said) }
{
    match read_didl(alloc, page) {
        Ok(rows) => Ok(Some(rows)),
        Err(DidlError::Mem) => Err(Mem),
        Err(DidlError::Markup(_)) => Ok(None),
        Err(DidlError::NotDidl { .. }) => Ok(None),
        Err(DidlError::BadValue { .. }) => Ok(None),
    }
}
