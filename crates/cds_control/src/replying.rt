//! The texts of replies: those that are the same whatever is published, and those that are written of what was made.

ghost use Rattle.std.specs.Prelude.{◌≡◌, ◌++◌, IsTrue, IfOk, OnOk, OnErr, string_bytes};
ghost use Rattle.cds_didl.specs.Filter.{filter_of};
ghost use Rattle.cds_didl.specs.Fragment.{didl_text};
ghost use Rattle.cds_soap.specs.Written.{is_known_code};
ghost use Rattle.cds_control.specs.Answering.{base_of};
ghost use Rattle.cds_control.specs.Making.{FitsAction, filter_in, made_answer, written_made};
ghost use Rattle.cds_control.specs.Replies.{empty_reply, fault_reply};

use crate::made::Made;
use cds_base::{Bytes, Mem};
use cds_didl::{Filter, write_didl};
use cds_http::{Fields, write_reply};
use cds_object::Row;
use cds_soap::{Action, Answer, Asked, write_answer};
use std::alloc::Global;

/// Appends a reply of a status without a body.
pub fn put_empty(alloc: Global, status: u16, out: &mut Vec<u8>) -> Result<(), Mem>
    ensures ok { OnOk result (out.new.items ≡ out.old.items ++ empty_reply status) }
    ensures err { OnErr result (out.new.items ≡ out.old.items) }
{
    let fields = Fields::new(alloc);
    write_reply(status, &fields, b"", out)
}

/// Returns a reply of a status without a body.
pub fn empty_text(alloc: Global, status: u16) -> Result<Bytes, Mem>
    ensures { IfOk result (λ text. text ≡ empty_reply status) }
{
    let mut text = Vec::new(alloc);
    put_empty(alloc, status, &mut text)?;
    Ok(Bytes::from(text))
}

/// Returns a reply with a fault.
pub fn fault_text(alloc: Global, code: u16) -> Result<Bytes, Mem>
    requires known { IsTrue (is_known_code code) }
    ensures { IfOk result (λ text. text ≡ fault_reply code) }
{
    let fault = Answer::Fault { code };
    let mut text = Vec::new(alloc);
    write_answer(&Action::GetSystemUpdateId, 4, &fault, None, &mut text)?;
    Ok(Bytes::from(text))
}

/// Writes the reply to an action in the version that was asked, of what was made of it. Its tracks are at a host.
pub fn write_made(alloc: Global, host: &str, asked: &Asked, made: Made) -> Result<Bytes, Mem>
    requires fits { FitsAction host.now asked.now.action made }
    ensures { IfOk result (λ text. text ≡ written_made host.now asked.now made) }
{
    let answer = made_answer(alloc, host, &asked.action, made)?;
    let mut text = Vec::new(alloc);
    write_answer(&asked.action, asked.version, &answer, None, &mut text)?;
    Ok(Bytes::from(text))
}

/// Returns the answer to an action. The rows of a page are written as a document.
fn made_answer(alloc: Global, host: &str, action: &Action, made: Made) -> Result<Answer, Mem>
    ensures { IfOk result (λ answer. answer ≡ made_answer host.now action.now made) }
{
    match made {
        Made::Answer(answer) => Ok(answer),
        Made::Page {
            rows,
            returned,
            total,
            update,
        } => {
            let result = page_text(alloc, host, filter_in(action), rows.as_slice())?;
            Ok(Answer::Page {
                result,
                returned,
                total,
                update,
            })
        }
    }
}

/// Returns the filter of an action. It is empty if the action has none.
fn filter_in(action: &Action) -> &str
    ensures { result.now ≡ filter_in action.now }
{
    match action {
        Action::Browse(asked) => asked.filter.as_str(),
        Action::Search(asked) => asked.filter.as_str(),
        _ => "",
    }
}

/// Returns the document of a page's rows.
fn page_text(alloc: Global, host: &str, filter: &str, rows: &[Row]) -> Result<Bytes, Mem>
    ensures { IfOk result (λ text. text ≡ didl_text (filter_of filter.now) (base_of host.now) rows.now) }
{
    let filter = Filter::read(alloc, filter)?;
    let base = base_of(alloc, host)?;
    let mut text = Vec::new(alloc);
    write_didl(rows, &filter, base.as_str(), &mut text)?;
    Ok(Bytes::from(text))
}

/// Returns the base of the URLs of tracks.
fn base_of(alloc: Global, host: &str) -> Result<String, Mem>
    ensures { IfOk result (λ base. string_bytes base ≡ base_of host.now) }
{
    let mut base = String::from_str(alloc, "http://")?;
    base.push_str(host)?;
    Ok(base)
}
