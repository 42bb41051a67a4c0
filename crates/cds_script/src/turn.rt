//! The turns of a script, and what a line of it means.

use cds_object::{Comment, FlacInfo, Path};

/// One line of a script that does something.
#[derive(Drop, Debug)]
pub enum ScriptTurn {
    /// Adds a folder to what the next scan finds.
    Folder {
        path: Path,
    },
    /// Adds a track to what the next scan finds: what its file says, and the size of the file in bytes.
    Track {
        path: Path,
        info: FlacInfo,
        size: u64,
    },
    /// Adds a comment to what the file of the track before it says.
    Tag {
        comment: Comment,
    },
    /// The records since the last scan are all that the library has now.
    Scan,
    /// The replica begins to load the catalog.
    Load,
    /// One ask of the replica is sent and answered.
    Read,
    /// The replica is asked what it knows.
    Ask,
    /// The number that the server begins at.
    First {
        number: u32,
    },
    /// The SEQ after which comes SEQ 1, from 256 on. The line of a lower number is outside the grammar.
    Wrap {
        number: u32,
    },
    /// Sets the current moment, in milliseconds. Then the server ends the subscriptions that have run out, and releases what is
    /// due.
    At {
        moment: u64,
    },
    /// The server answers a subscribe request of the replica; the reply is held back.
    Subscribe,
    /// The reply that was held back reaches the replica.
    Accept,
    /// The subscription that the replica accepted last is renewed.
    Renew,
    /// The subscription that the replica accepted last is given up.
    Unsubscribe,
    /// The note of this number among all that the server sent, counted from 1, reaches the replica.
    Deliver {
        note: u32,
    },
    /// One ask of the replica is sent and its reply is lost.
    ReadFault,
}

/// What a line of a script means.
#[derive(Drop, Debug)]
pub enum Meaning {
    /// It is empty or a comment.
    Nothing,
    Means(ScriptTurn),
    /// It is outside the grammar.
    Outside,
}
