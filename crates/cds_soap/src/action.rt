//! The actions and their arguments (UPnP ContentDirectory:4 on Browse, Search and the actions without arguments).

use cds_base::Text;

/// The action that a request names.
#[derive(Clone, Copy, Debug, PartialEq, Eq)]
pub enum ActionName {
    Browse,
    Search,
    GetSystemUpdateId,
    GetServiceResetToken,
    GetSearchCapabilities,
    GetSortCapabilities,
}

/// The arguments of Browse. The texts are as they were sent.
///
/// - `object`: the object that is browsed.
/// - `flag`: the flag for the object itself or its children.
/// - `filter`: the filter.
/// - `start`: the place of the first row, counted from 0.
/// - `count`: the most rows, 0 for all.
/// - `sort`: the sort criteria.
#[derive(Drop, Debug)]
pub struct BrowseRequest {
    pub object: Text,
    pub flag: Text,
    pub filter: Text,
    pub start: u32,
    pub count: u32,
    pub sort: Text,
}

/// The arguments of Search: a container, the search criteria, and the rest as in Browse. The texts are as they were
/// sent.
#[derive(Drop, Debug)]
pub struct SearchRequest {
    pub container: Text,
    pub criteria: Text,
    pub filter: Text,
    pub start: u32,
    pub count: u32,
    pub sort: Text,
}

/// An action with its arguments.
#[derive(Drop, Debug)]
pub enum Action {
    Browse(BrowseRequest),
    Search(SearchRequest),
    GetSystemUpdateId,
    GetServiceResetToken,
    GetSearchCapabilities,
    GetSortCapabilities,
}

/// An action that was asked for, and the version of the service in which it was, 1 to 4.
#[derive(Drop, Debug)]
pub struct Asked {
    pub action: Action,
    pub version: u8,
}
