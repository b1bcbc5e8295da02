// The gate that workers pass.

/// What each worker passes between the work on a span and its deposit.
pub trait Gate {
    /// Worker `worker` has done the work of span `span`. It may be held here.
    fn pass(&self, worker: usize, span: usize);
}

/// The gate that all pass at once.
#[derive(Clone, Copy, Debug)]
pub struct OpenGate;

impl Gate for OpenGate {
    fn pass(&self, _worker: usize, _span: usize) {}
}
