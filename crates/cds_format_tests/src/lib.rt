//! Tests alone, of what rows of data cannot say of texts, files, documents and the lock: memory that runs out, reads
//! that fail, a slow source, doors and threads. Also tests of messages about events, and of the adapters over the system:
//! its streams, words, folders, clock, network and threads.
#![tactic(auto)]

#[cfg(test)]
mod datagram_tests;
#[cfg(test)]
mod door_tests;
#[cfg(test)]
mod flac_tests;
#[cfg(test)]
mod folder_tests;
#[cfg(test)]
mod made;
#[cfg(test)]
mod memory_tests;
#[cfg(test)]
mod message_tests;
#[cfg(test)]
mod neighbour_tests;
#[cfg(test)]
mod streams_tests;
#[cfg(test)]
mod system_tests;
#[cfg(test)]
mod turn_tests;
#[cfg(test)]
mod words_tests;
#[cfg(test)]
mod wrap_tests;
