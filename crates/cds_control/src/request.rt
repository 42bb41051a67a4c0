//! What a control request asks.

use cds_base::Bytes;
use cds_soap::Asked;

/// What a control request asks, as far as its body says it.
#[derive(Drop)]
pub enum Request {
    /// An action, in a version of the service.
    Asks(Asked),
    /// No action: this is the whole reply, whatever is published.
    Refused(Bytes),
}
