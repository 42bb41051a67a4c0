//! Control of a ContentDirectory service by SOAP: reads and writes requests and their answers (UPnP Device Architecture
//! 2.0 on control; UPnP ContentDirectory:4 on actions and their arguments).
#![tactic(auto)]

mod action;
mod answer;
mod answer_text;
mod ask;
mod envelope;
mod error;
pub mod examples;
mod given;
pub mod laws;
mod names;
mod reply;
mod request_text;
mod results;

pub use action::{Action, ActionName, Asked, BrowseRequest, SearchRequest};
pub use answer::Answer;
pub use answer_text::{fits, write_answer};
pub use ask::read_action;
pub use error::SoapError;
pub use reply::read_answer;
pub use request_text::write_action;
