//! What is called before each turn of a worker.

/// Is called before each turn; a test can hold workers back by it.
pub trait Gate {
    /// A turn of this search by this worker is about to be made.
    fn before_turn(&self, worker: u32, search: u32);
}

/// The gate that returns at once.
#[derive(Clone, Copy, Debug)]
pub struct NoGate;

impl Gate for NoGate {
    fn before_turn(&self, _worker: u32, _search: u32) {}
}
