//! Which replies depend on the order in which the processes' calls come: for each call of the files, the replies that
//! some order of all their calls gives it.
//!
//! No order is tried by itself. Processes whose payments meet at an account that doesn't open with all that the files ask of it are of
//! one part, and what one part does depends on no other. Of each part the stages are walked that its orders go through, each of them
//! once, level by level: by how many calls were made in all. What a read tells is added up from the balances of all parts.
#![tactic(auto)]

mod answers;
mod counts;
mod covered;
mod error;
mod ground;
mod heard;
mod part;
mod parts;
mod places;
mod replies;
mod stage;
mod trail;
mod walk;
mod whole;

pub use crate::answers::orders;
pub use crate::error::OrdersError;
pub use crate::replies::{Range, Replies};
pub use crate::walk::STAGES_MAX;
