//! Runs by given schedules: the calls of some payment files, made one step of the board at a time.
//!
//! A `Stepper` makes the calls of all processes by turns, whichever process its caller picks for the next one, and answers the
//! journal at the end. `replay` picks them by a schedule, and plays out what the schedule leaves. Each call is the state machine of
//! at_calling, so it makes the steps of the object's call over the same board, and its receipt is accounted for as the object's are.
//!
//! A stepper has all seats, so it keeps what they have seen, put together: that is what is published. A call begins with its first turn,
//! when its seat has seen just that.
//!
//! The definitions read best in this order: `Callers`, the calls of one process; `Stepping`, those of all; `Schedules`, whose turn is
//! next; `InTurns`, what the turns that lead to a run say of its calls, its records and its journal.
#![tactic(auto)]

mod beginning;
mod caller;
mod finishing;
mod progress;
mod replaying;
mod run;
mod stepper;
mod turned;

pub use crate::finishing::FinishRefused;
pub use crate::replaying::{Replayed, TurnMade, replay};
pub use crate::stepper::{Stepper, StepperRefused};
pub use crate::turned::Turned;
pub use at_board::{BoardStep, BoardWord};
