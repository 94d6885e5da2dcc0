//! The messages of one process.

ghost use Rattle.std.specs.Prelude.{◌≡◌, ◌+◌, ◌≤◌, List, Ok, Err, Some, None, IfErr, IfOk, IfSome, drop, length, map, option_map, nat_le, if◌then◌else◌};
ghost use Rattle.at_files.specs.Prelude.{most_accounts, Message};
ghost use Rattle.at_files.specs.BookRecords.{numbers_of};
ghost use Rattle.at_files.specs.Limits.{most_messages};
ghost use Rattle.at_files.specs.Records.{file_records};
ghost use Rattle.at_files.specs.Messages.{Sends, are_counts, message_between, message_read, message_spelled, messages_spelled};

use crate::fields::{has_shape, number_at};
use crate::record::Record;
use crate::spelled::{BadRecord, ReadFault, RecordForm, read_items};
use arrayvec::ArrayVec;
use at_broadcast::{LogCounts, Message};
use at_ledger::{Book, Targets};
use std::alloc::Global;
use thiserror::Error;

/// The most messages of one file.
const MESSAGES_MAX: u32 = 256;

/// The cause of a message file's first fault.
#[derive(Clone, Copy, Debug, PartialEq, Eq, Error)]
pub enum MessagesWhy {
    /// The file goes on after the most messages that it may have.
    #[error("too many messages")]
    TooManyMessages,
    /// The first field isn't `send`, or there are not four fields and one for each process.
    #[error("shape")]
    Shape,
    /// A field that has to be a number is none.
    #[error("number")]
    Number,
    /// The source or the target is no account of the book.
    #[error("unknown account")]
    UnknownAccount,
    /// An entry of `deps` is over the most messages of a file.
    #[error("deps out of range")]
    DepsOutOfRange,
}

/// A message file's first fault.
pub type BadMessages = BadRecord<MessagesWhy>;

/// Why no messages came of a file.
pub type ReadMessagesFault = ReadFault<MessagesWhy>;

/// The numbers that the fields from a position on are.
fn numbers_from(fields: &Record<'_>, first: usize) -> Option<ArrayVec<u64, 16>>
    requires some { first ≤ length fields.now }
    requires few { length fields.now ≤ first + 16 }
    ensures numbers { option_map (λ numbers. numbers.items) result
        ≡ numbers_of (drop first fields.now) }
    ensures each { IfSome result
        (λ numbers. first + length numbers.items ≡ length fields.now) }
{
    let mut numbers = ArrayVec::new();
    for i in first..fields.len() {
        let Some(number) = number_at(fields, i) else {
            return None;
        };
        numbers.push(number);
    }
    Some(numbers)
}

/// Whether a sender can have so many messages.
fn is_count(count: u64) -> bool
    ensures { result ≡ nat_le count most_messages }
{
    count <= u64::from(MESSAGES_MAX)
}

/// Whether each of the numbers is a count of messages that a sender can have.
fn are_counts(deps: &[u64]) -> bool
    ensures { result ≡ are_counts deps.now }
{
    deps.iter().all(|count| is_count(*count))
}

/// The numbers as counts of messages that senders can have.
fn counts_of(deps: &[u64]) -> Option<LogCounts>
    requires some { 1 ≤ length deps.now }
    requires few { length deps.now ≤ 16 }
    ensures { result ≡ (if are_counts deps.now then Some deps.now else None) }
{
    if !are_counts(deps) {
        return None;
    }
    let mut counts = LogCounts::zeros(deps.len() as u32);
    for p in 0..deps.len() {
        counts.set(p as u32, deps[p] as u32);
    }
    Some(counts)
}

/// A message between two of so many accounts.
fn message_between(
    accounts: u32,
    from: u64,
    to: u64,
    amount: u64,
    deps: &[u64],
) -> Result<Message, MessagesWhy>
    requires accounts { accounts ≤ most_accounts }
    requires some { 1 ≤ length deps.now }
    requires few { length deps.now ≤ 16 }
    ensures { result ≡ message_between accounts from to amount deps.now }
{
    if from >= u64::from(accounts) || to >= u64::from(accounts) {
        return Err(MessagesWhy::UnknownAccount);
    }
    let Some(deps) = counts_of(deps) else {
        return Err(MessagesWhy::DepsOutOfRange);
    };
    Ok(Message {
        from: from as u32,
        targets: Targets::one(to as u32, amount),
        reference: [0; 16],
        deps,
    })
}

/// What a record of a message file has to be, beside a book.
#[derive(Drop)]
struct MessageForm<'a> {
    book: &'a Book,
}

impl<'a> RecordForm for MessageForm<'a> {
    type Item = Message;

    type Why = MessagesWhy;

    ghost item = { λ form. message_spelled form.book.now };

    fn item_of(&self, fields: &Record<'_>) -> Result<Message, MessagesWhy> {
        let accounts = self.book.accounts();
        let processes = self.book.processes() as usize;
        if !has_shape(fields, b"send", processes + 4) {
            return Err(MessagesWhy::Shape);
        }
        let from = number_at(fields, 1);
        let to = number_at(fields, 2);
        let amount = number_at(fields, 3);
        let deps = numbers_from(fields, 4);
        let (Some(from), Some(to), Some(amount), Some(deps)) = (from, to, amount, deps) else {
            return Err(MessagesWhy::Number);
        };
        message_between(accounts, from, to, amount, &deps)
    }
}

/// Reads the message file of one process, in the order of the messages' numbers: the first record is message 0. All
/// processes and accounts are numbers, in books of both versions. A file without records is one without messages.
pub fn read_messages(
    alloc: Global,
    book: &Book,
    bytes: &[u8],
) -> Result<Vec<Message>, ReadMessagesFault>
    ensures ok { IfOk result
        (λ messages. messages_spelled book.now (file_records bytes.now) ≡ Ok messages.items) }
    ensures sends { IfOk result
        (λ messages. Sends book.now (file_records bytes.now) messages.items) }
    ensures accepts { (messages : List Message) → Sends book.now (file_records bytes.now) messages
        → IfErr result (λ fault. fault ≡ ReadFault.NoMemory) }
    ensures bad { (b : BadRecord MessagesWhy) → result ≡ Err (ReadFault.Bad b)
        → messages_spelled book.now (file_records bytes.now) ≡ Err b }
{
    let _known = book.accounts();
    let form = MessageForm { book };
    read_items(
        alloc,
        &form,
        MESSAGES_MAX,
        MessagesWhy::TooManyMessages,
        bytes,
    )
}
