//! Printed texts: the report and the summary of a run, the lines of a check, of a verified report and of an agreement,
//! the output of nodes, and the lines of each refusal, with the exit status.
//!
//! Whoever reads a report line by line has the calls for its parts: `push_heading`, `push_line` and `push_audit`, and
//! `process_of`, which tells whose line a text begins with. Other texts are put together by `push_word`, `push_number`
//! and `push_numbered`, and CSV records by `push_field`, `push_number_field` and `push_reply_field`.
//!
//! Each call answers exactly the bytes that the definitions of the texts give. The text of a refusal takes no memory.
#![tactic(auto)]

mod advice;
mod by_threads;
mod first_word;
mod line_at;
mod lines;
mod nodes;
mod pieces;
mod records;
mod refusal;
mod replaying;
mod report_line;
mod run_report;
mod run_summary;
mod status;

pub use crate::by_threads::journal_report;
pub use crate::first_word::process_of;
pub use crate::line_at::{Journal, LineAt};
pub use crate::lines::{push_line, push_number, push_numbered, push_word};
pub use crate::nodes::nodes_text;
pub use crate::pieces::Pieces;
pub use crate::records::{push_field, push_number_field, push_reply_field};
pub use crate::refusal::{FaultText, fault_text};
pub use crate::replaying::replay;
pub use crate::report_line::{LINE_MAX, ReportLine};
pub use crate::run_report::{
    agreed_text, checked_text, push_audit, push_heading, report, verified_text,
};
pub use crate::run_summary::summary;
pub use crate::status::{Status, UsageFault};
