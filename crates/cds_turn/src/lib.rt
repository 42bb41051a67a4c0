//! A value that threads share in turns. The value stands for a list of accepted commands. Each caller finds it at a
//! list that begins with all that the caller had seen. The lock is a ticket lock: a caller draws a ticket, waits until
//! it is served, acts on the value, and passes the turn on.
#![tactic(auto)]

mod calls;
mod open;
mod seat;
mod stands;
mod table;
mod turn;
mod view;

pub use open::Open;
pub use seat::Seat;
pub use stands::{Act, StandsFor};
pub use turn::Turn;
