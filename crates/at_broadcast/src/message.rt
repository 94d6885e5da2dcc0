//! Broadcast transfers.

ghost use Rattle.std.specs.Prelude.{◌≡◌};

use crate::counts::LogCounts;
use at_ledger::Targets;

/// The most messages of one log. They are numbered from 0.
pub const MESSAGES_MAX: u32 = 4_294_967_295;

/// A pay-out as it is broadcast. The payer chooses the reference. Entry q of `deps` is how many messages of log q the payer
/// had validated.
#[derive(Debug, Drop)]
pub struct Message {
    pub from: u32,
    pub targets: Targets,
    pub reference: [u8; 16],
    pub deps: LogCounts,
}

impl Message {
    /// An equal message. It takes no memory, so it can't fail as a clone can.
    pub fn copy(&self) -> Message
        ensures { result ≡ self.now }
    {
        Message {
            from: self.from,
            targets: self.targets.copy(),
            reference: self.reference,
            deps: self.deps.copy(),
        }
    }
}
