//! What a server accepted, and what follows from that alone: the history of its scans, its releases, its subscriptions and
//! the notes that it sends. The crate has definitions and laws alone, so that a server and a replica stand on one text.
#![tactic(auto)]

pub mod examples;
pub mod laws;
