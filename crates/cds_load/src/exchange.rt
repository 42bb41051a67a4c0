//! The asks of a replica, and what the replies to them show.

use cds_base::Text;
use cds_object::Rows;

/// What a replica asks of a server, one exchange each (UPnP ContentDirectory:4 on its actions).
#[derive(Clone, Copy, Debug, PartialEq, Eq)]
pub enum Ask {
    /// The reset token of the server (GetServiceResetToken).
    Token,
    /// The number of the newest change (GetSystemUpdateID).
    Number,
    /// The row of an object (Browse with BrowseMetadata).
    Metadata { id: u32 },
    /// Up to 256 children of a container from a place on, counted from 0 (Browse with BrowseDirectChildren).
    Children { id: u32, start: u32 },
}

/// What a reply shows.
#[derive(Drop, Debug)]
pub enum Shown {
    /// A token.
    Text(Text),
    /// A number.
    Number(u32),
    /// Rows, how many there are in all, and the UpdateID that belongs to them.
    Page { rows: Rows, total: u32, update: u32 },
    /// A refusal with its code, for example 701 if no such object stands.
    Fault { code: u16 },
}

/// What became of a reply that was taken.
#[derive(Clone, Copy, Debug, PartialEq, Eq)]
pub enum Read {
    Ok,
    /// The reply was a refusal with this code.
    Fault { code: u16 },
}
