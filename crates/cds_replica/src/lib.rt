//! A replica of a server's catalog: the load that copies it, what is asked next and what is known (this project's
//! profile, over UPnP ContentDirectory:4 on Browse and SystemUpdateID).
#![tactic(auto)]

mod changes;
mod checking;
mod copy;
mod copy_row;
mod copy_rows;
mod count_error;
mod ending;
mod error;
mod growing;
mod inbox;
mod knowledge;
mod listing;
mod new_changes;
mod note;
mod notify_error;
mod order;
mod outline;
mod phase;
mod placed;
mod places;
mod replica;
mod stage;
mod taking;

pub use cds_follow::Says;
pub use cds_gena::Sid;
pub use cds_load::{Ask, Read, Shown};
pub use cds_notify::Note;
pub use changes::changes_above;
pub use copy::CatalogCopy;
pub use copy_row::CopyRow;
pub use count_error::CountError;
pub use error::AnswerError;
pub use note::Taken;
pub use notify_error::NotifyError;
pub use replica::Replica;
