//! Where a look in the making stands.

use crate::catching_up::CatchingUp;
use crate::snapping::Snapping;

/// What a look's next turn goes on with.
#[derive(Drop)]
pub(crate) enum LookStage {
    /// The snapshot.
    Snap(Snapping),
    /// Counting what the snapshot counts, until nothing is left.
    CatchUp(CatchingUp),
}
