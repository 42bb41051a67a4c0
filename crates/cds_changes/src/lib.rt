//! What changed in a span of a history: the events that a server tells of it, and the containers that it touched.
#![tactic(auto)]

mod event_with_parent;
pub mod examples;
pub mod laws;

pub use event_with_parent::EventWithParent;
