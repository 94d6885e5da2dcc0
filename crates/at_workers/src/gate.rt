//! Gates: what is told of each call, before and after it.

use at_ledger::Reply;

/// What the threads that run jobs call around each call on the ledger. It may hold a thread up for a while and note what was
/// answered. It changes no call and no reply. Lines count the calls of a process from 1.
pub trait Gate {
    /// Before the call.
    fn pass(&self, process: u32, line: u32);

    /// After the call, with its reply.
    fn answered(&self, process: u32, line: u32, reply: &Reply);
}

/// A gate that does nothing.
#[derive(Drop)]
pub struct OpenGate;

impl Gate for OpenGate {
    fn pass(&self, _process: u32, _line: u32) {}

    fn answered(&self, _process: u32, _line: u32, _reply: &Reply) {}
}
