//! How many counts of calls there are: each is that of some stage.

ghost use Rattle.std.specs.Prelude.{◌≡◌, true};
ghost use Rattle.at_orders.specs.Stages.{HasMoreStages};

use crate::ground::Ground;
use crate::walk::STAGES_MAX;

/// Whether the processes can have made their calls in more than `STAGES_MAX` ways, counted by how many each has made. Then no walk is needed
/// to know that there are more stages.
pub(crate) fn are_too_many(ground: &Ground) -> bool
    ensures { result ≡ true → HasMoreStages ground.now.book ground.now.files STAGES_MAX }
{
    let mut counts = 1;
    for process in 0..ground.book().processes() {
        counts *= ground.file(process).len() + 1;
        if counts > STAGES_MAX {
            return true;
        }
    }
    false
}
