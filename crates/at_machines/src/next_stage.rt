//! What a machine goes on with.

ghost use Rattle.std.specs.Prelude.{◌≡◌};

use std::mem::{drop, replace};

/// Goes on with the next stage. A call drops what stood here: an assignment would write that out, variant by variant.
pub fn become_next<T: Drop>(stage: &mut T, next: T)
    ensures { stage.new ≡ next }
{
    drop(replace(stage, next));
}
