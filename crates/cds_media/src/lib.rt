//! Serves the bytes of a file: what is planned for a request, the head of the reply, and the sending. A request may ask for one
//! range of bytes (RFC 9110 on range requests). Which file it is, and who opens it, is not said here.
#![tactic(auto)]

mod error;
pub mod examples;
mod head;
pub mod laws;
mod planning;
mod range;
mod sending;
mod sending_over;
mod slice;

pub use error::SendError;
pub use head::write_media_head;
pub use planning::plan;
pub use sending::send;
pub use sending_over::send_over;
pub use slice::Plan;
