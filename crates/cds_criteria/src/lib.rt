//! Search criteria and sort keys: which texts they are, which objects meet them, and in which order rows stand (UPnP
//! ContentDirectory:4 on SearchCriteria and SortCriteria). Finding the rows and making pages of them is for the crates above.
#![tactic(auto)]

mod course;
mod criteria;
mod error;
pub mod examples;
mod folded;
pub mod laws;
mod meaning;
mod operator;
mod property;
mod reading;
mod shown;
mod sort;
mod step;
mod token;
mod tree;
mod written;

pub use criteria::SearchCriteria;
pub use error::CriteriaError;
pub use operator::Operator;
pub use property::Property;
pub use sort::{SortKey, SortKeys, SortProperty};
