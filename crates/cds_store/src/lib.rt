//! The store of a server: the catalog after all scans, and the events of the changes that are not forgotten. The
//! catalog is one list of rows, and each change of a scan brings it up to date.
#![tactic(auto)]

mod by_ids;
mod catalog;
mod containers;
mod error;
mod files;
mod halving;
mod keeping;
mod kept;
pub mod laws;
mod library;
mod offspring;
mod placed;
mod plain;
mod planning;
mod records;
mod resolving;
mod span;
mod store;
mod subtrees;
mod touch;
mod view;

pub use error::ApplyError;
pub use keeping::Keeping;
pub use plain::PlainStore;
pub use span::Span;
pub use store::Store;
pub use view::View;
