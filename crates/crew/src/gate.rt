//! Where a worker signals that it asked and that it was served. A test holds workers back there; the program does not.

/// Receives a worker's steps, and may let the worker wait. No answer depends on it. A worker may hold the tree's lock when it
/// signals, so it must not wait for what another can only do with the lock.
pub trait Gate {
    /// The worker's ask stands on the board, and it has not served yet.
    fn asked(&self, worker: u32);

    /// The worker has collected a reply.
    fn served(&self, worker: u32);
}

/// Lets every worker go on.
pub struct OpenGate;

impl Gate for OpenGate {
    fn asked(&self, _worker: u32) {}

    fn served(&self, _worker: u32) {}
}
