//! What a message asks, as far as it can be read without a server.

ghost use Rattle.std.specs.Prelude.{◌≡◌, ◌≢◌, IsTrue, IfOk, OnOk, codes, option_map};
ghost use Rattle.cds_gena.specs.Asked.{field_of};
ghost use Rattle.cds_gena.specs.declared.error.GenaError.TheVariants as gena_error;
ghost use Rattle.cds_server.specs.Asking.{AsksBy, IsAsking};
ghost use Rattle.cds_control.specs.Replies.{empty_reply};
ghost use Rattle.cds_server.specs.Outcome.{can_deliver, status_of};
ghost use Rattle.cds_server.specs.Route.{Answers, Controls, Subscribes, control_at, route};

use crate::asking::{Asking, EventRequest, Route};
use crate::events::refuse;
use crate::routing::route;
use cds_base::{Bytes, Mem, Text};
use cds_control::{Request, empty_text, host_text, read_request};
use cds_gena::{Gena, GenaError, field_of, read_gena};
use cds_http::Message;
use std::alloc::Global;

/// Returns what a message asks of a server. If it can be answered without one, that is the reply: one of status 400, 404, 405 or
/// 412, or a fault with the code 401 or 402. `Server::handle` says in which order they come.
pub fn read_asked(alloc: Global, message: &Message) -> Result<Asking, Mem>
    ensures { IfOk result (λ asking. IsAsking message.now asking) }
{
    match route(message) {
        Route::Control => read_control(alloc, message),
        Route::Event => read_event(alloc, message),
        Route::Refused(status) => read_refused(alloc, message, status),
    }
}

/// Returns what a message asks that is answered with a status alone.
fn read_refused(alloc: Global, message: &Message, status: u16) -> Result<Asking, Mem>
    ensures { IfOk result (λ asking. AsksBy message.now (Answers status) asking) }
{
    let text = empty_text(alloc, status)?;
    Ok(Asking::Ready(text))
}

/// Returns what a control request asks.
fn read_control(alloc: Global, message: &Message) -> Result<Asking, Mem>
    ensures { IfOk result (λ asking. AsksBy message.now (control_at (field_of (codes "host") message.now.fields)) asking) }
{
    read_at(alloc, field_of(&message.fields, "host"), message)
}

/// Returns what a control request asks, by its HOST.
fn read_at(alloc: Global, host: Option<&[u8]>, message: &Message) -> Result<Asking, Mem>
    ensures { IfOk result (λ asking. AsksBy message.now (control_at (option_map (λ x. x.now) host.entry)) asking) }
{
    let Some(host) = host else {
        return read_refused(alloc, message, 400);
    };
    match host_text(host) {
        Some(host) => read_action_at(alloc, host, message),
        None => read_refused(alloc, message, 400),
    }
}

/// Returns what a control request asks, by its body. Its HOST is in its form.
fn read_action_at(alloc: Global, host: &str, message: &Message) -> Result<Asking, Mem>
    ensures { IfOk result (λ asking. AsksBy message.now (Controls host.now) asking) }
{
    let host = Text::read(alloc, host)?;
    match read_request(alloc, message) {
        Ok(Request::Asks(asked)) => Ok(Asking::Action { host, asked }),
        Ok(Request::Refused(text)) => {
            drop(host);
            Ok(Asking::Ready(text))
        }
        Err(refusal) => {
            drop(host);
            Err(refusal)
        }
    }
}

/// Returns what a request about a subscription asks.
fn read_event(alloc: Global, message: &Message) -> Result<Asking, Mem>
    requires asks { route message.now ≡ Subscribes }
    ensures { IfOk result (λ asking. IsAsking message.now asking) }
{
    match read_gena(alloc, message) {
        Ok(gena) => Ok(Asking::Subscription(requested(gena))),
        Err(refusal) => {
            let text = refused_text(alloc, refusal)?;
            Ok(Asking::Ready(text))
        }
    }
}

/// Returns a request about a subscription.
fn requested(gena: Gena) -> EventRequest
    requires { IsTrue (can_deliver gena) }
    ensures { result.gena ≡ gena }
{
    EventRequest { gena }
}

/// Returns the reply to a refused request about a subscription.
fn refused_text(alloc: Global, refusal: GenaError) -> Result<Bytes, Mem>
    ensures text { IfOk result (λ text. text ≡ empty_reply (status_of refusal)) }
    ensures cause { OnOk result (refusal ≢ gena_error.Mem) }
{
    let mut text = Vec::new(alloc);
    refuse(alloc, refusal, &mut text)?;
    Ok(Bytes::from(text))
}
