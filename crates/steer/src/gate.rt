//! Points at which a caller may hold a live run.

/// What is called on the way of a live run, by the thread that is about to go on. It has no meaning in a contract.
pub trait Gate: Sync {
    /// Before command `n` is carried out, counted from 0.
    fn before_command(&self, n: u32);

    /// Before a worker reads frame `i`, both counted from 0.
    fn before_frame(&self, worker: u8, i: u64);
}

/// The gate that holds nothing.
#[derive(Clone, Copy, Debug, Drop)]
pub struct Open;

impl Gate for Open {
    fn before_command(&self, _n: u32) {}

    fn before_frame(&self, _worker: u8, _i: u64) {}
}
