//! Where messages go.

ghost use Rattle.std.specs.Prelude.{◌≡◌, codes};
ghost use Rattle.cds_server.specs.Route.{goes_to, is_event_method, request_status, route_by, status_at, status_unless};
ghost use Rattle.cds_server.specs.Routed.{routed, status_of_route, way_of_route};

use crate::asking::Route;
use cds_http::{Message, Start};

/// Returns where a message goes. A message that goes nowhere has one of these statuses:
///
/// - 400 if it is no request.
/// - 404 if its target is neither `/control` nor `/event`.
/// - 405 if its method is not POST for `/control`, or neither SUBSCRIBE nor UNSUBSCRIBE for `/event`.
pub fn route(message: &Message) -> Route
    ensures status { status_of_route result ≡ request_status message.now.start }
    ensures way { route_by message.now.start message.now.fields ≡ way_of_route result message.now.fields }
{
    routed(&message.start)
}

/// Returns where a message with this first line goes.
fn routed(start: &Start) -> Route
    ensures { result ≡ routed start.now }
{
    match request_status(start) {
        Some(status) => Route::Refused(status),
        None => {
            if is_to_control(start) {
                Route::Control
            } else {
                Route::Event
            }
        }
    }
}

/// Returns whether a message is a request to the target of control.
fn is_to_control(start: &Start) -> bool
    ensures { result ≡ goes_to (codes "/control") start.now }
{
    match start {
        Start::Request { target, .. } => target.as_str() == "/control",
        Start::Reply { .. } => false,
    }
}

/// Returns the status of a message with this first line, if it goes nowhere.
fn request_status(start: &Start) -> Option<u16>
    ensures { result ≡ request_status start.now }
{
    match start {
        Start::Request { method, target } => status_at(target.as_str(), method.as_str()),
        Start::Reply { .. } => Some(400),
    }
}

/// Returns the status of a request to a target by a method, if it goes nowhere.
fn status_at(target: &str, method: &str) -> Option<u16>
    ensures { result ≡ status_at target.now method.now }
{
    if target == "/control" {
        status_unless(method == "POST")
    } else if target == "/event" {
        status_unless(is_event_method(method))
    } else {
        Some(404)
    }
}

/// Returns 405, unless the target takes the method.
fn status_unless(takes: bool) -> Option<u16>
    ensures { result ≡ status_unless takes }
{
    if takes { None } else { Some(405) }
}

/// Returns whether the target of events takes a method.
fn is_event_method(method: &str) -> bool
    ensures { result ≡ is_event_method method.now }
{
    method == "SUBSCRIBE" || method == "UNSUBSCRIBE"
}
