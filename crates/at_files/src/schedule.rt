//! The schedule: whose turn each turn is.

ghost use Rattle.std.specs.Prelude.{◌≡◌, ℕ, List, Ok, Err, IfErr, IfOk};
ghost use Rattle.at_files.specs.Records.{file_records};
ghost use Rattle.at_files.specs.Schedule.{Schedules, schedule_of, turn_among, turn_of};

use crate::fields::number_at;
use crate::record::Record;
use crate::spelled::{BadRecord, ReadFault, RecordForm, read_items};
use std::alloc::Global;
use thiserror::Error;

/// The most turns of a schedule.
pub const TURNS_MAX: u32 = 1_000_000;

/// The cause of a schedule's first fault.
#[derive(Clone, Copy, Debug, PartialEq, Eq, Error)]
pub enum ScheduleWhy {
    /// The file goes on after the most turns that it may have.
    #[error("too many turns")]
    TooManyTurns,
    /// There is not one field.
    #[error("shape")]
    Shape,
    /// The field is no number.
    #[error("number")]
    Number,
    /// The number is no process of the book.
    #[error("unknown process")]
    UnknownProcess,
}

/// A schedule's first fault.
pub type BadSchedule = BadRecord<ScheduleWhy>;

/// Why no schedule came of a file.
pub type ReadScheduleFault = ReadFault<ScheduleWhy>;

/// The turn of a process among so many.
fn turn_among(processes: u32, process: u64) -> Result<u32, ScheduleWhy>
    ensures { result ≡ turn_among processes process }
{
    if process >= u64::from(processes) {
        return Err(ScheduleWhy::UnknownProcess);
    }
    Ok(process as u32)
}

/// What a record of a schedule has to be, where there are so many processes.
#[derive(Drop)]
struct TurnForm {
    processes: u32,
}

impl RecordForm for TurnForm {
    type Item = u32;

    type Why = ScheduleWhy;

    ghost item = { λ form. turn_of form.processes };

    fn item_of(&self, fields: &Record<'_>) -> Result<u32, ScheduleWhy> {
        if fields.len() != 1 {
            return Err(ScheduleWhy::Shape);
        }
        let Some(process) = number_at(fields, 0) else {
            return Err(ScheduleWhy::Number);
        };
        turn_among(self.processes, process)
    }
}

/// Reads a schedule of the turns of so many processes: entry i of the answer is the process whose turn i is. Processes are
/// numbers, beside books of both versions. A file without records is a schedule without turns.
pub fn read_schedule(
    alloc: Global,
    processes: u32,
    bytes: &[u8],
) -> Result<Vec<u32>, ReadScheduleFault>
    ensures ok { IfOk result
        (λ turns. schedule_of processes (file_records bytes.now) ≡ Ok turns.items) }
    ensures schedules { IfOk result
        (λ turns. Schedules processes (file_records bytes.now) turns.items) }
    ensures accepts { (turns : List ℕ) → Schedules processes (file_records bytes.now) turns
        → IfErr result (λ fault. fault ≡ ReadFault.NoMemory) }
    ensures bad { (b : BadRecord ScheduleWhy) → result ≡ Err (ReadFault.Bad b)
        → schedule_of processes (file_records bytes.now) ≡ Err b }
{
    let form = TurnForm { processes };
    read_items(alloc, &form, TURNS_MAX, ScheduleWhy::TooManyTurns, bytes)
}
