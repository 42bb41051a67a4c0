//! Pages of rows, and what is asked of an object.

use cds_base::Numbers;

/// The largest number of rows of a page.
pub const PAGE_LIMIT: u32 = 4096;

/// What is asked of an object (UPnP ContentDirectory:4 on BrowseFlag).
#[derive(Clone, Copy)]
pub(crate) enum Target {
    /// The object's own row: `BrowseMetadata`.
    Itself,
    /// The rows of its children: `BrowseDirectChildren`.
    Children,
}

/// A page: the ids of its rows in their order, how many rows match in all, and an update number. The update number is that of the
/// object that was asked for (UPnP ContentDirectory:4 on TotalMatches and UpdateID).
#[derive(Drop, Debug)]
pub struct Page {
    pub ids: Numbers,
    pub total: u32,
    pub update: u32,
}
