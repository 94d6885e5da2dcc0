//! The lines of each refusal, which take no memory.

ghost use Rattle.std.specs.Prelude.{◌≡◌, ◌+◌, ◌≤◌, [], ◌++◌, length, decimal};
ghost use Rattle.at_report.specs.FaultText.{fault_lines, limit_text, book_cause, payments_cause, schedule_cause, order_cause, messages_cause, usage_text, line_and_cause, fault_words, most_usage};

use crate::advice::push_advice;
use crate::status::{Status, UsageFault};
use arrayvec::ArrayVec;
use at_files::{BookWhy, MessagesWhy, OrderWhy, PaymentsWhy, ScheduleWhy};
use at_ledger::BookError;

/// The text of a refusal: one line or two, each with its newline.
pub type FaultText = ArrayVec<u8, 1_536>;

fn limit_text(e: &BookError) -> &'static str
    ensures text { result.now ≡ limit_text e.now }
    ensures short { length result.now ≤ 20 }
{
    match e {
        BookError::NoProcess => "no process",
        BookError::TooManyProcesses => "too many processes",
        BookError::NoAccount => "no account",
        BookError::TooManyAccounts => "too many accounts",
        BookError::OwnerOutOfRange { .. } => "owner out of range",
        BookError::OwnersNotRising { .. } => "owners not rising",
        BookError::TooManyOwners { .. } => "too many owners",
        BookError::RoomOutOfRange => "room out of range",
        BookError::RoundsOverLimit { .. } => "rounds over limit",
        BookError::TotalOverLimit { .. } => "total over limit",
    }
}

fn book_cause(why: &BookWhy) -> &'static str
    ensures text { result.now ≡ book_cause why.now }
    ensures short { length result.now ≤ 20 }
{
    match why {
        BookWhy::Version => "version",
        BookWhy::Shape => "shape",
        BookWhy::Number => "number",
        BookWhy::AccountOrder => "account order",
        BookWhy::Book(e) => limit_text(e),
        BookWhy::Name => "name",
        BookWhy::NameTwice => "name twice",
        BookWhy::UnknownOwner => "unknown owner",
    }
}

fn payments_cause(why: &PaymentsWhy) -> &'static str
    ensures text { result.now ≡ payments_cause why.now }
    ensures short { length result.now ≤ 20 }
{
    match why {
        PaymentsWhy::Shape => "shape",
        PaymentsWhy::Number => "number",
        PaymentsWhy::UnknownAccount => "unknown account",
        PaymentsWhy::TooManyCalls => "too many calls",
        PaymentsWhy::Process => "process",
    }
}

fn schedule_cause(why: &ScheduleWhy) -> &'static str
    ensures text { result.now ≡ schedule_cause why.now }
    ensures short { length result.now ≤ 20 }
{
    match why {
        ScheduleWhy::TooManyTurns => "too many turns",
        ScheduleWhy::Shape => "shape",
        ScheduleWhy::Number => "number",
        ScheduleWhy::UnknownProcess => "unknown process",
    }
}

fn order_cause(why: &OrderWhy) -> &'static str
    ensures text { result.now ≡ order_cause why.now }
    ensures short { length result.now ≤ 20 }
{
    match why {
        OrderWhy::TooManyDeliveries => "too many deliveries",
        OrderWhy::Shape => "shape",
        OrderWhy::Number => "number",
        OrderWhy::UnknownProcess => "unknown process",
        OrderWhy::UnknownMessage => "unknown message",
    }
}

fn messages_cause(why: &MessagesWhy) -> &'static str
    ensures text { result.now ≡ messages_cause why.now }
    ensures short { length result.now ≤ 20 }
{
    match why {
        MessagesWhy::TooManyMessages => "too many messages",
        MessagesWhy::Shape => "shape",
        MessagesWhy::Number => "number",
        MessagesWhy::UnknownAccount => "unknown account",
        MessagesWhy::DepsOutOfRange => "deps out of range",
    }
}

pub(crate) fn push_bytes(out: &mut FaultText, bytes: &[u8])
    requires { length out.old.items + length bytes.now ≤ 1536 }
    ensures { out.new.items ≡ out.old.items ++ bytes.now }
{
    out.try_extend_from_slice(bytes).unwrap();
}

pub(crate) fn push_text(out: &mut FaultText, text: &str)
    requires { length out.old.items + length text.now ≤ 1536 }
    ensures { out.new.items ≡ out.old.items ++ text.now }
{
    push_bytes(out, text.as_bytes());
}

pub(crate) fn push_decimal(out: &mut FaultText, n: u64)
    requires { length out.old.items + 20 ≤ 1536 }
    ensures text { out.new.items ≡ out.old.items ++ decimal n }
    ensures short { length out.new.items ≤ length out.old.items + 20 }
{
    push_text(out, itoa::Buffer::new().format(n));
}

fn push_line_and_cause(out: &mut FaultText, line: u32, cause: &str)
    requires room { length out.old.items + 60 ≤ 1536 }
    requires short { length cause.now ≤ 20 }
    ensures text { out.new.items ≡ out.old.items ++ line_and_cause line cause.now }
    ensures short { length out.new.items ≤ length out.old.items + 60 }
{
    push_text(out, ": line ");
    push_decimal(out, u64::from(line));
    push_text(out, ": ");
    push_text(out, cause);
}

fn push_numbered(out: &mut FaultText, text: &str, n: u64)
    requires { length out.old.items + length text.now ≤ 150 }
    ensures text { out.new.items ≡ out.old.items ++ text.now ++ decimal n }
    ensures short { length out.new.items ≤ length out.old.items + length text.now + 20 }
{
    push_text(out, text);
    push_decimal(out, n);
}

fn push_bad(out: &mut FaultText, text: &str, line: u32, cause: &str)
    requires room { length out.old.items + length text.now ≤ 100 }
    requires short { length cause.now ≤ 20 }
    ensures text { out.new.items ≡ out.old.items ++ text.now ++ line_and_cause line cause.now }
    ensures short { length out.new.items ≤ length out.old.items + length text.now + 60 }
{
    push_text(out, text);
    push_line_and_cause(out, line, cause);
}

fn push_bad_of(out: &mut FaultText, text: &str, process: u32, line: u32, cause: &str)
    requires room { length out.old.items + length text.now ≤ 100 }
    requires short { length cause.now ≤ 20 }
    ensures text { out.new.items ≡ out.old.items ++ text.now ++ decimal process
        ++ line_and_cause line cause.now }
    ensures short { length out.new.items ≤ length out.old.items + length text.now + 80 }
{
    push_numbered(out, text, u64::from(process));
    push_line_and_cause(out, line, cause);
}

fn push_usage(out: &mut FaultText, usage: &str, fault: &UsageFault)
    requires room { length out.old.items ≤ 50 }
    requires short { length usage.now ≤ most_usage }
    ensures text { out.new.items ≡ out.old.items ++ usage_text usage.now fault.now }
    ensures short { length out.new.items ≤ length out.old.items + most_usage }
{
    match fault {
        UsageFault::Words => push_text(out, usage),
        UsageFault::Files { wanted, given } => {
            push_numbered(out, "files: wanted ", u64::from(*wanted));
            push_numbered(out, ", given ", *given);
        }
    }
}

fn push_words(out: &mut FaultText, usage: &str, status: &Status)
    requires empty { out.old.items ≡ [] }
    requires short { length usage.now ≤ most_usage }
    ensures text { out.new.items ≡ fault_words usage.now status.now }
    ensures short { length out.new.items ≤ most_usage }
{
    match status {
        Status::Done => {}
        Status::Usage(fault) => push_usage(out, usage, fault),
        Status::BadBook { at, why } => push_bad(out, "book", at.number, book_cause(why)),
        Status::BadPayments { process, at, why } => push_bad_of(
            out,
            "payments ",
            *process,
            at.number,
            payments_cause(why),
        ),
        Status::ReadFault { file } => push_numbered(out, "read fault: file ", u64::from(*file)),
        Status::WriteFault => push_text(out, "write fault"),
        Status::NoMemory => push_text(out, "no memory"),
        Status::TooLong { file } => push_numbered(out, "too long: file ", u64::from(*file)),
        Status::BadSchedule { at, why } => push_bad(
            out,
            "schedule",
            at.number,
            schedule_cause(why),
        ),
        Status::BadOrder { at, why } => push_bad(out, "order", at.number, order_cause(why)),
        Status::BadMessages { process, at, why } => push_bad_of(
            out,
            "messages ",
            *process,
            at.number,
            messages_cause(why),
        ),
        Status::NotLegal { line, .. } => push_bad(out, "report", *line, "not legal"),
        Status::TooManyOrders => push_text(out, "too many orders"),
    }
}

/// The lines of a refusal, and nothing for a run that is done: the cause, and for a fault of a file, whose word this is, what was expected
/// in it. For words of no form it is the usage that is given, of at most 800 bytes. It takes no memory.
pub fn fault_text(usage: &str, word: &str, status: &Status) -> FaultText
    requires { length usage.now ≤ most_usage }
    ensures { result.items ≡ fault_lines usage.now word.now status.now }
{
    let mut out = ArrayVec::new();
    if matches!(status, Status::Done) {
        return out;
    }
    push_words(&mut out, usage, status);
    out.push(b'\n');
    push_advice(&mut out, word, status);
    out
}
