//! Browse and Search: pages of rows (UPnP ContentDirectory:4 on Browse and Search), over whatever shows a catalog.
#![tactic(auto)]

mod browsing;
mod descendants;
mod error;
pub mod examples;
pub mod laws;
mod ordered;
mod page;
mod paging;
mod places;
mod runs;
mod searching;

pub use browsing::browse;
pub use cds_criteria::{SearchCriteria, SortKeys};
pub use error::BrowseError;
pub use page::{PAGE_LIMIT, Page};
pub use runs::run_scans;
pub use searching::search;
