//! The answers to actions.

use cds_base::{Bytes, Text};

/// The answer to an action (UPnP ContentDirectory:4; UPnP Device Architecture 2.0 on errors of control).
#[derive(Drop, Debug)]
pub enum Answer {
    /// Browse and Search: a DIDL-Lite document with `returned` rows, the number of rows in all, and an update number.
    Page {
        result: Bytes,
        returned: u32,
        total: u32,
        update: u32,
    },
    /// GetSystemUpdateID: the number of the last change.
    Number(u32),
    /// GetServiceResetToken, GetSearchCapabilities and GetSortCapabilities: a token, or names separated by commas.
    Text(Text),
    /// Any action: the code of the refusal.
    Fault {
        code: u16,
    },
}
