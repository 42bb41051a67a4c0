//! Gates, at which a test can hold a worker.

use cds_base::Mem;
use std::alloc::Global;

/// A point between two steps at which a worker may be held. A test can so choose the order of threads.
pub trait Gate {
    /// Tells that the worker comes to a point of its work. A gate of a test may hold it there for as long as it likes.
    fn pass(&mut self, point: u32);

    /// Returns the gate of the worker of this number, counted from 0.
    fn again(&mut self, alloc: Global, worker: u32) -> Result<Self, Mem>;
}

/// A gate that holds nobody.
#[derive(Clone, Copy, Debug, PartialEq, Eq)]
pub struct NoGate;

impl Gate for NoGate {
    /// Passes at once.
    fn pass(&mut self, _point: u32) {}

    fn again(&mut self, _alloc: Global, _worker: u32) -> Result<Self, Mem> {
        Ok(NoGate)
    }
}
