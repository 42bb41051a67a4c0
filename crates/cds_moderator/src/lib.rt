//! When a server tells of its changes, and of how many at once: releases at least 200 milliseconds apart, of at most
//! 262,144 changes (UPnP ContentDirectory:4 on the moderation of events; the rule in full is this project's profile).
#![tactic(auto)]

pub mod laws;
mod moderator;

pub use moderator::Moderator;
