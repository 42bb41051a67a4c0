//! The whole reply to a control request, over what a view shows.

ghost use Rattle.std.specs.Prelude.{◌≡◌, None, IfOk};
ghost use Rattle.cds_soap.specs.Written.{written_answer};
ghost use Rattle.cds_control.specs.Answering.{answer_to};
ghost use Rattle.cds_control.specs.Replies.{IsControlReply};

use crate::answering::made_to;
use crate::reading::read_request;
use crate::replying::write_made;
use crate::request::Request;
use cds_base::{Bytes, Mem};
use cds_http::Message;
use cds_soap::Asked;
use cds_store::View;
use std::alloc::Global;

/// Returns the reply to a control request over what a view shows, with a reset token. Its tracks are at a host. The target, the
/// method and HOST of the request do not count. The reply is decided in this order:
///
/// - As `read_request` says, if the request asks for no action.
/// - The fault of the first check of Browse or Search that fails, as `browse` and `search` say.
/// - Status 200 with the results of the action.
pub fn reply<V: View>(
    alloc: Global,
    view: &V,
    token: &str,
    host: &str,
    message: &Message,
) -> Result<Bytes, Mem>
    ensures { IfOk result (λ text.
        IsControlReply (record { token = token.now; number = V.number view.now; rows = V.rows view.now }) host.now message.now text) }
{
    match read_request(alloc, message) {
        Ok(Request::Asks(asked)) => answered(alloc, view, token, host, &asked),
        Ok(Request::Refused(text)) => Ok(text),
        Err(refusal) => Err(refusal),
    }
}

/// Returns the reply to an action, in the version that was asked.
fn answered<V: View>(
    alloc: Global,
    view: &V,
    token: &str,
    host: &str,
    asked: &Asked,
) -> Result<Bytes, Mem>
    ensures { IfOk result (λ text. text ≡ written_answer asked.now.action asked.now.version
        (answer_to (record { token = token.now; number = V.number view.now; rows = V.rows view.now }) host.now asked.now.action) None) }
{
    let made = made_to(alloc, view, token, &asked.action)?;
    write_made(alloc, host, asked, made)
}
