//! Parts of the object's calls as state machines, each of whose turns makes one step of the board.
//!
//! Each is started in no step. A turn then makes the next step of its part, and the last one answers what the part answers.
//! Between two turns the seats of other processes may step. Its own seat makes no other step meanwhile, so that it knows what the
//! last turn left. Its caller has the seats of all processes: before a load of a length a seat learns what all of them have seen,
//! from an `Overview`, in no step.
//!
//! A look is a snapshot and then the loads of the records that it counts. An append stores a record word by word and publishes it.
//! A payment from a shared account asks, collects the rows of the account, and decides round after round.
//!
//! The definitions read best in this order: `Collecting`, `Loading`, `Snapping`, `CatchingUp`, `Looking`, a look and its parts;
//! `Appending`, a record; `Asking`, `LoadingRequest`, `LoadingRow`, `CollectingRows`, `Deciding`, what the owners of a shared
//! account do beside. Those whose names begin with `Kept` say what stands between two turns.
#![tactic(auto)]

mod appending;
mod asking;
mod catching_up;
mod collecting;
mod collecting_rows;
mod deciding;
mod loading_entry;
mod loading_request;
mod loading_row;
mod loading_view;
mod look_stage;
mod looking;
mod next_stage;
mod round_stage;
mod row_stage;
mod snapping;
mod stage;

pub use crate::appending::Appending;
pub use crate::asking::Asking;
pub use crate::catching_up::CatchingUp;
pub use crate::collecting::Collecting;
pub use crate::collecting_rows::CollectingRows;
pub use crate::deciding::Deciding;
pub use crate::loading_entry::LoadingEntry;
pub use crate::loading_request::LoadingRequest;
pub use crate::loading_view::LoadingView;
pub use crate::looking::Looking;
pub use crate::next_stage::become_next;
pub use crate::snapping::Snapping;
