//! Where a message goes, and what it asks of a server.

ghost use Rattle.std.specs.Prelude.{IsTrue};
ghost use Rattle.cds_server.specs.Outcome.{can_deliver};

use cds_base::{Bytes, Text};
use cds_gena::Gena;
use cds_soap::Asked;

/// Where a message goes, by its target and its method.
#[derive(Clone, Copy, Debug, PartialEq, Eq)]
pub enum Route {
    /// To control.
    Control,
    /// To the events, with a request about a subscription.
    Event,
    /// Nowhere: it is answered with this status.
    Refused(u16),
}

/// A request about a subscription. Notes can be delivered at the callback of a new one.
#[derive(Drop)]
pub struct EventRequest {
    pub gena: Gena,
    pub ghost deliverable: { IsTrue (can_deliver gena) },
}

/// What a message asks of a server, as far as it can be read without one.
#[derive(Drop)]
pub enum Asking {
    /// Nothing: this is the reply, whatever the server has.
    Ready(Bytes),
    /// An action, by a client that asks at this HOST.
    Action { host: Text, asked: Asked },
    /// A subscription, its renewal or its end.
    Subscription(EventRequest),
}
