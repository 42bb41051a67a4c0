//! Reads answers.

ghost use Rattle.std.specs.Prelude.{◌≡◌, ◌≢◌, ◌&&◌, ℕ, List, IfOk, None, is_some};
ghost use Rattle.cds_http.specs.declared.error.HttpError.{HttpError};
ghost use Rattle.cds_markup.specs.declared.error.MarkupError.{MarkupError};
ghost use Rattle.cds_http.specs.declared.message.Side.{Side};
ghost use Rattle.cds_http.specs.Laws.{IsAnswer};
ghost use Rattle.cds_markup.specs.Children.{is_called, name_of};
ghost use Rattle.cds_soap.specs.Names.{response_to};
ghost use Rattle.cds_soap.specs.Answered.{AnswersReply};
ghost use Rattle.cds_soap.specs.Found.{version_in, response_by, fault_by, inside_by, said_by, IsReplyIn, IsAnswerIn};

use crate::envelope::{in_envelope, where_of_envelope};
use crate::names::version_in;
use crate::results::{code_in, results_given};
use crate::{Action, ActionName, Answer, SoapError};
use cds_base::Mem;
use cds_http::{HttpError, Message, MessageReader, Side, Start};
use cds_markup::{Element, MarkupError, read_document};
use std::alloc::Global;

/// Returns what the bytes of a reply answer to an action (UPnP Device Architecture 2.0 on the responses and errors of
/// control). Bytes after the reply are passed over. `NotAnswer` comes if the bytes are no reply of HTTP, or if the reply
/// is no answer to this action. The answers are:
///
/// - A reply of status 200. Its envelope holds the response to the action in a version from 1 to 4. The response has the
///   results of the action, each once.
/// - A reply of status 500. Its envelope holds a Fault with an error code below 65,536.
pub fn read_answer(alloc: Global, action: &Action, bytes: &[u8]) -> Result<Answer, SoapError>
    ensures { AnswersReply bytes.now action.now result }
{
    let message = match reply_in(alloc, bytes)? {
        Some(message) => message,
        None => return Err(SoapError::NotAnswer),
    };
    match answer_in(alloc, action, &message)? {
        Some(answer) => Ok(answer),
        None => Err(SoapError::NotAnswer),
    }
}

/// Reads a reply, if the connection ends after the bytes.
fn read_reply(alloc: Global, bytes: &[u8]) -> Result<Message, HttpError>
    ensures { (behind : List ℕ) × IsAnswer Side.Reply bytes.now behind result }
{
    let mut reader = MessageReader::new(alloc, Side::Reply)?;
    match reader.feed(alloc, bytes) {
        Ok(_) => reader.finish(),
        Err(refusal) => Err(refusal),
    }
}

/// Returns the reply that some bytes begin with.
fn reply_in(alloc: Global, bytes: &[u8]) -> Result<Option<Message>, Mem>
    ensures { IfOk result (λ found. IsReplyIn bytes.now found) }
{
    match read_reply(alloc, bytes) {
        Ok(message) => Ok(Some(message)),
        Err(refusal) => no_reply(refusal),
    }
}

/// Returns no reply, unless memory ran out.
fn no_reply(refusal: HttpError) -> Result<Option<Message>, Mem>
    ensures { IfOk result (λ found. (found ≡ None) × (refusal ≢ HttpError.Mem)) }
{
    match refusal {
        HttpError::Mem => Err(Mem),
        HttpError::BadHead => Ok(None),
        HttpError::HeadTooLong => Ok(None),
        HttpError::BadLength => Ok(None),
        HttpError::BadChunk => Ok(None),
        HttpError::TooLong => Ok(None),
        HttpError::Truncated => Ok(None),
        HttpError::Failed => Ok(None),
    }
}

/// Returns no answer, unless memory ran out.
fn no_document(refusal: MarkupError) -> Result<Option<Answer>, Mem>
    ensures { IfOk result (λ found. (found ≡ None) × (refusal ≢ MarkupError.Mem)) }
{
    match refusal {
        MarkupError::Mem => Err(Mem),
        MarkupError::Bad { .. } => Ok(None),
        MarkupError::TooDeep { .. } => Ok(None),
        MarkupError::TooLong => Ok(None),
        MarkupError::Failed => Ok(None),
    }
}

/// Returns what a reply answers to an action.
fn answer_in(alloc: Global, action: &Action, message: &Message) -> Result<Option<Answer>, Mem>
    ensures { IfOk result (λ answer. IsAnswerIn message.now action.now answer) }
{
    let element = match read_document(alloc, message.body.as_slice()) {
        Ok(element) => element,
        Err(refusal) => return no_document(refusal),
    };
    match &message.start {
        Start::Reply { status } => said(alloc, action.name(), *status, &element),
        Start::Request { .. } => Ok(None),
    }
}

/// Returns what a reply of a status says, if its body is a document of this element.
#[tactic(auto, unfolding(crate::specs::Found::said_by))]
fn said(
    alloc: Global,
    name: ActionName,
    status: u16,
    element: &Element,
) -> Result<Option<Answer>, Mem>
    ensures { IfOk result (λ answer. answer ≡ said_by name status element.now) }
{
    match in_envelope(element) {
        Some(inside) => inside_said(alloc, name, status, inside),
        None => Ok(None),
    }
}

/// Returns what the element in an envelope says in a reply of a status.
fn inside_said(
    alloc: Global,
    name: ActionName,
    status: u16,
    element: &Element,
) -> Result<Option<Answer>, Mem>
    ensures { IfOk result (λ answer. answer ≡ inside_by name status element.now) }
{
    if status == 200 {
        response_said(alloc, name, element)
    } else if status == 500 {
        fault_said(alloc, element)
    } else {
        Ok(None)
    }
}

/// Returns whether an element has the name of the response to an action in a version of the service.
fn is_response(name: ActionName, element: &Element) -> bool
    ensures { result ≡ (is_called (response_to name) element.now && is_some (version_in (name_of element.now).space)) }
{
    element.is_called(name.response()) && version_in(element.name.space.as_str()).is_some()
}

/// Returns what an element says as the response to an action.
fn response_said(alloc: Global, name: ActionName, element: &Element) -> Result<Option<Answer>, Mem>
    ensures { IfOk result (λ answer. answer ≡ response_by name element.now) }
{
    if is_response(name, element) {
        results_given(alloc, name, element)
    } else {
        Ok(None)
    }
}

/// Returns what an element says as a Fault.
#[tactic(auto, unfolding(crate::specs::Found::fault_by))]
fn fault_said(alloc: Global, element: &Element) -> Result<Option<Answer>, Mem>
    ensures { IfOk result (λ answer. answer ≡ fault_by element.now) }
{
    let fault = match where_of_envelope(element, "Fault") {
        Some(fault) => fault,
        None => return Ok(None),
    };
    match code_in(alloc, fault)? {
        Some(code) => Ok(Some(Answer::Fault { code })),
        None => Ok(None),
    }
}
