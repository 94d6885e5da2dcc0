//! What the program answers, and the exit status of each answer.

ghost use Rattle.std.specs.Prelude.{◌≡◌};

use crate::report_line::ReportLine;
use at_files::{BookWhy, Location, MessagesWhy, OrderWhy, PaymentsWhy, ScheduleWhy};
use std::alloc::AllocError;

/// What is wrong with the words of the command line.
#[derive(Clone, Copy, PartialEq, Eq)]
pub enum UsageFault {
    /// They have none of the forms.
    Words,
    /// There are not as many files as the book has processes.
    Files { wanted: u32, given: u64 },
}

/// What the program answers. File 0 is the book, file p + 1 the payment or message file of process p, and a
/// further file comes after those. In a report a line is one of the text, counted from 1.
#[derive(Clone, Copy, PartialEq, Eq)]
pub enum Status {
    /// The whole text was written.
    Done,
    /// The words were refused.
    Usage(UsageFault),
    /// The book was refused.
    BadBook {
        at: Location,
        why: BookWhy,
    },
    /// The payment file of a process was refused.
    BadPayments {
        process: u32,
        at: Location,
        why: PaymentsWhy,
    },
    /// A file could not be read.
    ReadFault {
        file: u32,
    },
    /// The text could not be written.
    WriteFault,
    /// There was no memory.
    NoMemory,
    /// A file has too many bytes.
    TooLong {
        file: u32,
    },
    /// The schedule was refused.
    BadSchedule {
        at: Location,
        why: ScheduleWhy,
    },
    /// The file of deliveries was refused.
    BadOrder {
        at: Location,
        why: OrderWhy,
    },
    /// The message file of a process was refused.
    BadMessages {
        process: u32,
        at: Location,
        why: MessagesWhy,
    },
    /// The report is not one of a legal run: its first wrong line, and where there is one the line that was expected there.
    NotLegal {
        line: u32,
        expected: Option<ReportLine>,
    },
    /// The orders of the calls are more than are walked.
    TooManyOrders,
}

impl From<AllocError> for Status {
    ghost use Rattle.std.specs.Prelude.{◌≡◌};
    ghost use Rattle.at_report.specs.declared.status.Status.TheVariants as statuses;

    ghost from_gives = { λ _ status. status ≡ statuses.NoMemory };

    fn from(_none: AllocError) -> Status {
        Status::NoMemory
    }
}

impl Status {
    ghost use Rattle.at_report.specs.Status.{code_of};

    /// The exit status.
    pub fn code(&self) -> u8
        ensures { result ≡ code_of self.now }
    {
        match self {
            Status::Done => 0,
            Status::Usage(_) => 2,
            Status::BadBook { .. } => 3,
            Status::BadPayments { .. } => 4,
            Status::ReadFault { .. } => 5,
            Status::WriteFault => 6,
            Status::NoMemory => 7,
            Status::TooLong { .. } => 8,
            Status::BadSchedule { .. } => 9,
            Status::BadOrder { .. } => 10,
            Status::BadMessages { .. } => 11,
            Status::NotLegal { .. } => 12,
            Status::TooManyOrders => 13,
        }
    }
}
