//! A media server. It takes what scans of a library found, answers control requests and requests about subscriptions, and gives
//! the notes of its changes (UPnP ContentDirectory:4; UPnP Device Architecture 2.0 on control and on eventing).
#![tactic(auto)]

mod asking;
mod events;
pub mod examples;
pub mod laws;
mod made;
mod media;
mod notes;
mod reading;
mod replying;
mod routing;
mod server;
mod serving;
mod ticking;

pub use asking::{Asking, EventRequest, Route};
pub use cds_control::empty_text;
pub use made::{Answered, Made};
pub use media::{Media, path_text, paths_keep_their_text};
pub use notes::{FirstNote, Notes};
pub use reading::read_asked;
pub use replying::write_made;
pub use routing::route;
pub use server::Server;
pub use serving::{Serving, TakeError};
