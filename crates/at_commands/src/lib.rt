//! The commands: what words ask, what the files that they name hold, and what is printed of it, or why nothing is.
//!
//! `asked_by` gives the words their meaning, and `answer` does what they ask. A command is a value (`Command`): it says what it promises,
//! and loads what its files hold; one that reads a book and payments is `Over` these, and one that reads a further file is `Beside` them.
//! The table of what each of them promises stands in the definition `promised`. The whole text is made before the first of it is written.
//! `tell` writes the lines of a refusal.
#![tactic(auto)]

mod agreeing;
mod answering;
mod asked;
mod beside;
mod checking;
mod closing_journal;
mod commanding;
mod counting;
mod delivering;
mod ending;
mod file_forms;
mod generating;
mod given;
mod loading;
mod making;
mod nodes;
mod numbers;
mod opening;
mod over;
mod picturing;
mod playing;
mod replaying;
mod running;
mod telling;
mod tracing;
mod verifying;
mod views;
mod words;

pub use crate::answering::answer;
pub use crate::asked::{Asked, asked_by};
pub use crate::given::words_given;
pub use crate::numbers::{
    MADE_CALLS_MAX, MADE_PROCESSES_MAX, Making, VALUE_MAX, VALUES_MAX, VALUES_MIN, Values,
};
pub use crate::telling::tell;
pub use crate::words::{Form, FormCommand, FurtherCommand, FurtherForm};
