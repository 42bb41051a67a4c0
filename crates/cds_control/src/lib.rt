//! Control requests over what is published: what one asks, the answer to it, and the reply as it is written (UPnP
//! ContentDirectory:4; UPnP Device Architecture 2.0 on control). Where a message goes, and who keeps what is published, is for
//! the crates above.
#![tactic(auto)]

mod answering;
mod control;
pub mod examples;
mod host;
pub mod laws;
mod made;
mod reading;
mod replying;
mod request;

pub use answering::made_to;
pub use control::reply;
pub use host::host_text;
pub use made::Made;
pub use reading::read_request;
pub use replying::{empty_text, fault_text, put_empty, write_made};
pub use request::Request;
