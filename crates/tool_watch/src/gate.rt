//! Where the threads of `watch` can be held.

/// What `watch` calls as it goes on. A gate that doesn't return holds the thread that called it.
pub trait Gate {
    /// A worker comes to a query: its own number, and the query's place among the script's queries, both from 0.
    fn pass(&self, worker: usize, query: usize);

    /// An update was answered: its place among the script's updates, from 0.
    fn applied(&self, update: usize);
}

/// A gate that holds nobody.
#[derive(Clone, Copy, Debug)]
pub struct OpenGate;

impl Gate for OpenGate {
    fn pass(&self, _worker: usize, _query: usize) {}

    fn applied(&self, _update: usize) {}
}
