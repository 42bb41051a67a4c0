//! A media server that listens. Workers serve connections, a scanner scans the library again and again, and a notifier sends the
//! notes of its changes. They share one server in turns (UPnP Device Architecture 2.0 on control and on eventing; UPnP
//! ContentDirectory:4).
#![tactic(auto)]

mod acts;
mod connection;
mod crew;
mod documents;
pub mod examples;
mod fault;
mod fetching;
pub mod laws;
mod life;
mod looking;
mod means;
mod moment;
mod notifier;
mod request;
mod scanner;
mod scanning;
mod sending;
mod served;
mod target;
mod worker;

pub use connection::serve_one;
pub use fetching::Fate;
pub use life::serve;
pub use looking::notify_once;
pub use means::boot_words;
pub use notifier::{Notified, Notifier};
pub use scanner::{Scanned, Scanner};
pub use scanning::{ScanRefused, scan_once};
pub use served::{Served, ServerCommand, ServerStart};
pub use target::{Document, FreeAnswer};
pub use worker::{Post, Worked, Worker};
