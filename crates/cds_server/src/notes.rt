//! Notes, as a server gives them.

use cds_base::Bytes;
use cds_gena::{Address, Addresses};
use cds_store::Span;

/// The first note of a subscription (UPnP Device Architecture 2.0 on eventing).
#[derive(Drop, Debug)]
pub struct FirstNote {
    /// Its address. Its SEQ is 0.
    pub to: Address,
    /// Its body, which tells the number of the last change and no changes.
    pub body: Bytes,
}

/// The notes of a release, which have one body.
#[derive(Drop, Debug)]
pub struct Notes {
    /// The numbers of the changes that the body tells.
    pub span: Span,
    /// The body of each note.
    pub body: Bytes,
    /// The address of each note, in the order in which the subscriptions were granted.
    pub to: Addresses,
}
