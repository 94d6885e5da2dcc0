//! Requests by the slots of their owners.

ghost use Rattle.std.specs.Prelude.{◌≡◌};

use at_ledger::Targets;

/// A request of a shared account, by its owner's slot and its number there. `since` is the place of the cut that the owner
/// looked at just before it asked.
#[derive(Drop)]
pub struct OpenRequest {
    pub slot: u32,
    pub number: u32,
    pub targets: Targets,
    pub since: u32,
}

impl Default for OpenRequest {
    /// What stands in the unused places of a list.
    fn default() -> OpenRequest {
        OpenRequest {
            slot: 0,
            number: 0,
            targets: Targets::one(0, 0),
            since: 0,
        }
    }
}

impl OpenRequest {
    /// An equal request. It takes no memory, so it can't fail as a clone can.
    pub fn copy(&self) -> OpenRequest
        ensures { result ≡ self.now }
    {
        OpenRequest {
            slot: self.slot,
            number: self.number,
            targets: self.targets.copy(),
            since: self.since,
        }
    }
}
