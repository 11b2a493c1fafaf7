//! What a worker passes before each of its bursts.

/// Is called by worker `worker` before its burst number `burst`, counted from 1, outside any lock. It answers nothing:
/// it may note the call, or hold the worker up.
pub trait Gate {
    fn pass(&self, worker: u32, burst: u64);
}

/// A gate that does nothing.
#[derive(Clone, Copy, Default)]
pub struct OpenGate;

impl Gate for OpenGate {
    fn pass(&self, _worker: u32, _burst: u64) {}
}
