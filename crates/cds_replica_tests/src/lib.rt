//! Tests alone: of what a replica refuses, of replays over wires and streams that fail, and of the program over an
//! outside in memory.
#![tactic(auto)]

#[cfg(test)]
mod announce_tests;
#[cfg(test)]
mod made;
#[cfg(test)]
mod program_tests;
#[cfg(test)]
mod replica_tests;
#[cfg(test)]
mod stream_tests;
#[cfg(test)]
mod wire_tests;
#[cfg(test)]
mod wrap_script_tests;
#[cfg(test)]
mod wrap_tests;
