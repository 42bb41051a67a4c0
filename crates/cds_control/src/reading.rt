//! What a control request asks, as far as it can be read without what is published.

ghost use Rattle.std.specs.Prelude.{◌≢◌, ℕ, List, Err, IfOk};
ghost use Rattle.cds_soap.specs.declared.error.SoapError.TheVariants as soap_error;
ghost use Rattle.cds_control.specs.Published.{Published};
ghost use Rattle.cds_control.specs.Replies.{IsReplyTo, IsRequest};

use crate::replying::{empty_text, fault_text};
use crate::request::Request;
use cds_base::{Bytes, Mem};
use cds_http::Message;
use cds_soap::{SoapError, read_action};
use std::alloc::Global;

/// Returns what a control request asks, by its field SOAPACTION and its body. A request that asks for no action is refused with
/// its whole reply, in this order:
///
/// - Status 400 if the body is no document.
/// - Fault 401 if it names no action, or not in the form of a control request.
/// - Fault 402 if its arguments are not those of the action.
pub fn read_request(alloc: Global, message: &Message) -> Result<Request, Mem>
    ensures { IfOk result (λ request. IsRequest message.now request) }
{
    match read_action(alloc, message) {
        Ok(asked) => Ok(Request::Asks(asked)),
        Err(refusal) => {
            let text = refusal_text(alloc, refusal)?;
            Ok(Request::Refused(text))
        }
    }
}

/// Returns the reply to a control request that asks for no action.
fn refusal_text(alloc: Global, refusal: SoapError) -> Result<Bytes, Mem>
    requires asked { refusal ≢ soap_error.NotAnswer }
    ensures { IfOk result (λ text. (published : Published) (host : List ℕ) → IsReplyTo published host (Err refusal) text) }
{
    match refusal {
        SoapError::Markup(_) => empty_text(alloc, 400),
        SoapError::InvalidAction => fault_text(alloc, 401),
        SoapError::InvalidArgs => fault_text(alloc, 402),
        SoapError::NotAnswer => unreachable!(),
        SoapError::Mem => Err(Mem),
    }
}
