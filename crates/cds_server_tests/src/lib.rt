//! Tests alone, of what a server keeps and gives: both bodies of the store, scans whose folders fail, and servers that
//! listen over objects in memory. Some tests run a whole server with its threads.
#![tactic(auto)]

#[cfg(test)]
mod control_tests;
#[cfg(test)]
mod desk;
#[cfg(test)]
mod life;
#[cfg(test)]
mod listening_tests;
#[cfg(test)]
mod made;
#[cfg(test)]
mod media_tests;
#[cfg(test)]
mod scan_tests;
#[cfg(test)]
mod search_tests;
#[cfg(test)]
mod sharing_tests;
#[cfg(test)]
mod store_tests;
#[cfg(test)]
mod thread_tests;
