//! The second line of the refusal of a file: the file's word, and what was expected in it, for a person.

ghost use Rattle.std.specs.Prelude.{◌≡◌, ◌+◌, ◌≤◌, ◌++◌, length, map};
ghost use Rattle.at_report.specs.Advice.{advice_at, advice_line, advice_of, advice_place, book_advice, book_shape_advice, expected_advice, limit_advice, messages_advice, order_advice, payments_advice, schedule_advice, shown_byte, word_shown};

use crate::refusal::{FaultText, push_bytes, push_decimal, push_text};
use crate::report_line::ReportLine;
use crate::status::{Status, UsageFault};
use at_files::{BookWhy, MessagesWhy, OrderWhy, PaymentsWhy, ScheduleWhy};
use at_ledger::BookError;

/// What the record of this number is in a book.
fn book_shape_advice(number: u32) -> &'static str
    ensures text { result.now ≡ book_shape_advice number }
    ensures short { length result.now ≤ 200 }
{
    match number {
        1 => "a book begins with book,1 (accounts are numbers) or book,2 (accounts have names)",
        2 =>
            "the second record is processes and their number, as processes,2; in a book,2 their names, as processes,ann,bob",
        3 =>
            "the third record is limits and two numbers, of payments and of requests, as limits,100,20",
        _ =>
            "an account has four fields, parted by commas, as account,0,500,0 or in a book,2 account,joint,300,ann bob; without owners it ends with a comma",
    }
}

/// What was expected in place of a fault of a limit of a book.
fn limit_advice(why: &BookError) -> &'static str
    ensures text { result.now ≡ limit_advice why.now }
    ensures short { length result.now ≤ 200 }
{
    match why {
        BookError::NoProcess =>
            "a book has at least one process, as processes,1 or in a book,2 processes,ann",
        BookError::TooManyProcesses => "a book has at most 16 processes",
        BookError::NoAccount =>
            "behind the limits there is at least one account, as account,0,500,0 or in a book,2 account,joint,300,ann bob",
        BookError::TooManyAccounts => "a book has at most 1024 accounts",
        BookError::OwnerOutOfRange { .. } =>
            "an owner is the number of a process, from 0 (of two processes 0 or 1); a process more in the second record needs a payment file more",
        BookError::OwnersNotRising { .. } =>
            "owners stand in the order of the processes, each once, with one space between two",
        BookError::TooManyOwners { .. } => "an account has at most 8 owners: leave some out",
        BookError::RoomOutOfRange =>
            "the first limit is from 1 to 4096, the second from 1 to 1024: take the most where you want none",
        BookError::RoundsOverLimit { .. } =>
            "the second limit times the owners of all shared accounts is at most 8192: make that limit smaller",
        BookError::TotalOverLimit { .. } =>
            "all openings together are at most 18446744073709551615",
    }
}

/// What was expected in place of a fault of a book.
fn book_advice(number: u32, why: &BookWhy) -> &'static str
    ensures text { result.now ≡ book_advice number why.now }
    ensures short { length result.now ≤ 200 }
{
    match why {
        BookWhy::Version =>
            "the first record is book,1 (accounts are numbers) or book,2 (accounts have names)",
        BookWhy::Shape => book_shape_advice(number),
        BookWhy::Number =>
            "a number is digits alone, at most 18446744073709551615: no sign, point, space or leading zero (12.50 is 1250 where the whole book counts hundredths); names of accounts and owners need a book,2",
        BookWhy::AccountOrder =>
            "accounts are numbered in their order: 0 in the fourth record, then 1, 2 and so on",
        BookWhy::Book(e) => limit_advice(e),
        BookWhy::Name =>
            "a name is 1 to 16 small letters, digits and -, and begins with a letter, as ann or bob-2; the processes of a book,2 have names too, as processes,ann,bob",
        BookWhy::NameTwice =>
            "another one has this name already: each process has a name of its own, and so has each account",
        BookWhy::UnknownOwner =>
            "an owner is a name of the second record, with one space between two; whoever isn't a process there is added to it, and has a payment file too",
    }
}

/// What was expected in place of a fault of a payment file.
fn payments_advice(why: &PaymentsWhy) -> &'static str
    ensures text { result.now ≡ payments_advice why.now }
    ensures short { length result.now ≤ 200 }
{
    match why {
        PaymentsWhy::Shape =>
            "a call is transfer,FROM,TO,AMOUNT or read,ACCOUNT, beside a book,2 also pay,FROM and one to four pairs TO,AMOUNT; commas part the fields, and there is no head, no comment and no open quote",
        PaymentsWhy::Number =>
            "an AMOUNT is digits alone, at most 18446744073709551615: no sign, point, space or leading zero (12.50 is 1250 where the whole book counts hundredths); beside a book,1 accounts are numbers too",
        PaymentsWhy::UnknownAccount =>
            "an account is written as in the book (beside a book,1 its number, from 0), and the one that pays comes first: transfer,FROM,TO,AMOUNT",
        PaymentsWhy::TooManyCalls =>
            "a payment file has at most 16384 calls, and beside a schedule at most 64",
        PaymentsWhy::Process =>
            "its first record names another process than the one whose file stands here: give the files in the order of the book's second record, or mend this one",
    }
}

/// What was expected in place of a fault of a schedule.
fn schedule_advice(why: &ScheduleWhy) -> &'static str
    ensures text { result.now ≡ schedule_advice why.now }
    ensures short { length result.now ≤ 200 }
{
    match why {
        ScheduleWhy::TooManyTurns => "a schedule has at most 1000000 turns",
        ScheduleWhy::Shape => "a turn is the number of one process and nothing else, as 0",
        ScheduleWhy::Number =>
            "a process is its number here, digits alone: 0 is the first one, also beside a book,2",
        ScheduleWhy::UnknownProcess => "processes are numbered from 0 (of two processes 0 or 1)",
    }
}

/// What was expected in place of a fault of a file of deliveries.
fn order_advice(why: &OrderWhy) -> &'static str
    ensures text { result.now ≡ order_advice why.now }
    ensures short { length result.now ≤ 200 }
{
    match why {
        OrderWhy::TooManyDeliveries => "there are at most 65536 deliveries",
        OrderWhy::Shape =>
            "a delivery is three numbers: who is given it, whose message it is, and which, as 1,0,0",
        OrderWhy::Number =>
            "each of the three is a number, digits alone: no sign, space or leading zero, also beside a book,2",
        OrderWhy::UnknownProcess =>
            "who is given it and whose message it is are processes, numbered from 0 (of two processes 0 or 1)",
        OrderWhy::UnknownMessage =>
            "messages of a process are numbered from 0, and its file has none of this number",
    }
}

/// What was expected in place of a fault of a message file.
fn messages_advice(why: &MessagesWhy) -> &'static str
    ensures text { result.now ≡ messages_advice why.now }
    ensures short { length result.now ≤ 200 }
{
    match why {
        MessagesWhy::TooManyMessages => "a message file has at most 256 messages",
        MessagesWhy::Shape =>
            "a message is send,FROM,TO,AMOUNT and then a number for each process, as send,0,1,60,0,0 with two processes",
        MessagesWhy::Number =>
            "behind send stand numbers, digits alone: no sign, point, space or leading zero (write 12.50 as 1250), also beside a book,2",
        MessagesWhy::UnknownAccount =>
            "an account is its number here, counted from 0 in the order of the book",
        MessagesWhy::DepsOutOfRange => "the numbers behind the amount are at most 256",
    }
}

/// A byte of a word as it is shown: no control stands in it.
fn shown_byte(byte: u8) -> u8
    ensures { result ≡ shown_byte byte }
{
    if byte < 32 || byte == 127 { b'?' } else { byte }
}

fn push_shown(out: &mut FaultText, bytes: &[u8])
    requires few { length bytes.now ≤ 200 }
    requires room { length out.old.items ≤ 1000 }
    ensures { out.new.items ≡ out.old.items ++ map shown_byte bytes.now }
{
    for byte in bytes {
        out.push(shown_byte(*byte));
    }
}

/// Adds a word, of which the last 200 bytes are shown.
fn push_file_word(out: &mut FaultText, word: &[u8])
    requires { length out.old.items ≤ 900 }
    ensures text { out.new.items ≡ out.old.items ++ word_shown word.now }
    ensures short { length out.new.items ≤ length out.old.items + 203 }
{
    if word.len() > 200 {
        push_text(out, "...");
        push_shown(out, &word[word.len() - 200..]);
    } else {
        push_shown(out, word);
    }
}

/// Adds the line about a file.
fn push_advice_of(out: &mut FaultText, word: &str, advice: &str)
    requires room { length out.old.items ≤ 801 }
    requires short { length advice.now ≤ 200 }
    ensures { out.new.items ≡ out.old.items ++ advice_of word.now advice.now }
{
    push_text(out, "  ");
    push_file_word(out, word.as_bytes());
    push_text(out, ": ");
    push_text(out, advice);
    out.push(b'\n');
}

/// Adds which line of a file a line is about.
fn push_at_line(out: &mut FaultText, word: &str, line: u64)
    requires { length out.old.items ≤ 801 }
    ensures text { out.new.items ≡ out.old.items ++ advice_place word.now line }
    ensures short { length out.new.items ≤ length out.old.items + 240 }
{
    push_text(out, "  ");
    push_file_word(out, word.as_bytes());
    push_text(out, ", line ");
    push_decimal(out, line);
    push_text(out, ": ");
}

/// Adds the line about a line of a file.
fn push_advice_at(out: &mut FaultText, word: &str, line: u64, advice: &str)
    requires room { length out.old.items ≤ 801 }
    requires short { length advice.now ≤ 200 }
    ensures { out.new.items ≡ out.old.items ++ advice_at word.now line advice.now }
{
    push_at_line(out, word, line);
    push_text(out, advice);
    out.push(b'\n');
}

/// Adds the line about a line of a report.
fn push_expected_at(out: &mut FaultText, word: &str, line: u64, expected: &Option<ReportLine>)
    requires { length out.old.items ≤ 801 }
    ensures { out.new.items ≡ out.old.items ++ advice_at word.now line
        (expected_advice expected.now) }
{
    push_at_line(out, word, line);
    match expected {
        Some(other) => {
            push_text(out, "expected: ");
            push_bytes(out, other.bytes());
        }
        None => push_text(
            out,
            "no run of these files prints this line here, or the report ends too early",
        ),
    }
    out.push(b'\n');
}

/// Adds the second line of a refusal, whose file has this word, where it is one of a file.
pub(crate) fn push_advice(out: &mut FaultText, word: &str, status: &Status)
    requires { length out.old.items ≤ 801 }
    ensures { out.new.items ≡ out.old.items ++ advice_line word.now status.now }
{
    match status {
        Status::BadBook { at, why } => {
            push_advice_at(out, word, at.line, book_advice(at.number, why))
        }
        Status::BadPayments { at, why, .. } => {
            push_advice_at(out, word, at.line, payments_advice(why))
        }
        Status::BadSchedule { at, why } => {
            push_advice_at(out, word, at.line, schedule_advice(why))
        }
        Status::BadOrder { at, why } => push_advice_at(out, word, at.line, order_advice(why)),
        Status::BadMessages { at, why, .. } => {
            push_advice_at(out, word, at.line, messages_advice(why))
        }
        Status::NotLegal { line, expected } => {
            push_expected_at(out, word, u64::from(*line), expected)
        }
        Status::Usage(UsageFault::Files { .. }) => push_advice_of(
            out,
            word,
            "its second record has the processes: beside it stands one file for each of them, in that order",
        ),
        Status::ReadFault { .. } => push_advice_of(out, word, "not read"),
        Status::TooLong { .. } => push_advice_of(out, word, "a file has at most 8388608 bytes"),
        Status::Done
        | Status::Usage(UsageFault::Words)
        | Status::WriteFault
        | Status::NoMemory
        | Status::TooManyOrders => {}
    }
}
