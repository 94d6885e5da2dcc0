//! The forms of the processes' files.

ghost use Rattle.std.specs.Prelude.{◌≡◌, ◌<◌, IfOk, IfErr, Ok};
ghost use Rattle.at_commands.specs.Prelude.{NamedBook, AreNamesOf};
ghost use Rattle.at_commands.specs.Faults.{Kind, RefusesFile};
ghost use Rattle.at_commands.specs.Loading.{Giving, PaysBytes, PaysReplayBytes, SendsBytes, Spelling, calls_given, messages_given, named_book, replay_calls_given};

use at_broadcast::Message;
use at_files::{
    Names, ReadMessagesFault, ReadPaymentsFault, location_of, read_messages, read_payments,
    read_replay_payments,
};
use at_ledger::{Book, Call};
use at_report::Status;
use std::alloc::Global;

/// What the file of each process is read as.
pub trait FileForm {
    /// What a record spells.
    type Item: Drop;

    // what the bytes of a process's file give beside a book, or why they are refused
    ghost given: { NamedBook → Giving Self.Item };

    // what they spell
    ghost spells: { Spelling Self.Item };

    // the kind of the files
    ghost kind: { Kind };

    /// The items of the file of this process, from its bytes.
    fn read(
        alloc: Global,
        book: &Book,
        names: &Names,
        process: u32,
        bytes: &[u8],
    ) -> Result<Vec<Self::Item>, Status>
        requires names { AreNamesOf book.now names.now }
        requires process { process < book.now.processes }
        ensures ok { IfOk result
            (λ items. given (named_book book.now names.now) process bytes.now ≡ Ok
            items.items) }
        ensures spelled { IfOk result
            (λ items. spells (named_book book.now names.now) process bytes.now items.items) }
        ensures err { IfErr result
            (RefusesFile kind
            (given (named_book book.now names.now) process bytes.now) process) };
}

/// The calls of a process.
pub struct Payments;

impl FileForm for Payments {
    type Item = Call;

    ghost given = { calls_given };

    ghost spells = { PaysBytes };

    ghost kind = { Kind.payments };

    fn read(
        alloc: Global,
        book: &Book,
        names: &Names,
        process: u32,
        bytes: &[u8],
    ) -> Result<Vec<Call>, Status> {
        match read_payments(alloc, book, names, process, bytes) {
            Ok(calls) => Ok(calls),
            Err(ReadPaymentsFault::Bad(bad)) => Err(Status::BadPayments {
                process,
                at: location_of(bytes, bad.line),
                why: bad.why,
            }),
            Err(ReadPaymentsFault::NoMemory) => Err(Status::NoMemory),
        }
    }
}

/// The calls of a process for a replay, which makes fewer of them.
pub struct ReplayPayments;

impl FileForm for ReplayPayments {
    type Item = Call;

    ghost given = { replay_calls_given };

    ghost spells = { PaysReplayBytes };

    ghost kind = { Kind.scheduled };

    fn read(
        alloc: Global,
        book: &Book,
        names: &Names,
        process: u32,
        bytes: &[u8],
    ) -> Result<Vec<Call>, Status> {
        match read_replay_payments(alloc, book, names, process, bytes) {
            Ok(fewer) => Ok(fewer),
            Err(ReadPaymentsFault::Bad(bad)) => Err(Status::BadPayments {
                process,
                at: location_of(bytes, bad.line),
                why: bad.why,
            }),
            Err(ReadPaymentsFault::NoMemory) => Err(Status::NoMemory),
        }
    }
}

/// The messages of a sender.
pub struct Messages;

impl FileForm for Messages {
    type Item = Message;

    ghost given = { messages_given };

    ghost spells = { SendsBytes };

    ghost kind = { Kind.messages };

    fn read(
        alloc: Global,
        book: &Book,
        _names: &Names,
        process: u32,
        bytes: &[u8],
    ) -> Result<Vec<Message>, Status> {
        match read_messages(alloc, book, bytes) {
            Ok(messages) => Ok(messages),
            Err(ReadMessagesFault::Bad(bad)) => Err(Status::BadMessages {
                process,
                at: location_of(bytes, bad.line),
                why: bad.why,
            }),
            Err(ReadMessagesFault::NoMemory) => Err(Status::NoMemory),
        }
    }
}
