//! `serve` over a shelf and sinks in memory, for the tests at gates; and what nothing else shows of the crates below: a writer whose flush
//! fails, and that threads may share a book and a state. What the program answers to words and files, and over devices that fail, is
//! looked at over the built program.

use crate::serving::serve;
use at_io::{MemoryShelf, MemorySink, StdSink, SteadySink, WriteFault, put_all};
use at_ledger::{Book, State};
use at_report::Status;
use at_workers::Gate;
use std::alloc::{AllocError, Global};
use std::io;
use std::thread::Threads;

/// The words of a line.
fn words_of(alloc: Global, line: &str) -> Result<Vec<String>, AllocError> {
    let mut words = Vec::new(alloc);
    for word in line.split_whitespace() {
        words.push(String::from_str(alloc, word)?)?;
    }
    Ok(words)
}

fn file_of(alloc: Global, name: &str, bytes: &[u8]) -> Result<(String, Vec<u8>), AllocError> {
    Ok((
        String::from_str(alloc, name)?,
        Vec::from_slice(alloc, bytes)?,
    ))
}

/// The files of these contents: `book`, `0` and `1`.
fn files_of(alloc: Global, contents: &[&[u8]]) -> Result<Vec<(String, Vec<u8>)>, AllocError> {
    let mut files = Vec::new(alloc);
    for (name, bytes) in ["book", "0", "1"].iter().zip(contents) {
        files.push(file_of(alloc, name, bytes)?)?;
    }
    Ok(files)
}

/// A shelf of these files.
pub(crate) fn shelf_of(alloc: Global, contents: &[&[u8]]) -> Option<MemoryShelf> {
    match files_of(alloc, contents) {
        Ok(files) => Some(MemoryShelf::new(files, Vec::new(alloc))),
        Err(_) => None,
    }
}

/// The status of the words, and whether a closed ledger is kept.
fn served<R: Threads + Sync, G: Gate + Sync>(
    rt: &R,
    alloc: Global,
    words: &[String],
    shelf: &mut MemoryShelf,
    out: &mut MemorySink,
    gate: &G,
) -> (Status, bool) {
    let (mut err, mut kept) = (SteadySink::new(), None);
    let status = serve(rt, alloc, words, shelf, out, &mut err, gate, &mut kept);
    (status, kept.is_some())
}

/// Whether the words are answered by this status. A ledger is kept, unless it is a refusal that leaves none.
pub(crate) fn is_answered<R: Threads + Sync, G: Gate + Sync>(
    rt: &R,
    alloc: Global,
    line: &str,
    shelf: &mut MemoryShelf,
    out: &mut MemorySink,
    gate: &G,
    wanted: &Status,
) -> bool {
    let Ok(words) = words_of(alloc, line) else {
        return false;
    };
    let (status, is_kept) = served(rt, alloc, words.as_slice(), shelf, out, gate);
    status == *wanted && is_kept == matches!(wanted, Status::Done | Status::WriteFault)
}

/// A writer whose flush fails.
#[derive(Drop)]
struct Unflushed;

impl io::Write for Unflushed {
    fn write(&mut self, buf: &[u8]) -> io::Result<usize> {
        Ok(buf.len())
    }

    fn flush(&mut self) -> io::Result<()> {
        Err(io::Error::other("no flush"))
    }
}

/// A failing flush is a write fault, where something was written.
#[test]
fn a_failing_flush_is_a_write_fault(rt: HostRuntime) {
    let mut unflushed = StdSink::new(Unflushed);
    let nothing = put_all(&mut unflushed, b"");
    let something = put_all(&mut unflushed, b"hello");
    assert!(rt; nothing == Ok(()) && something == Err(WriteFault));
}

/// Whether values of a type may be moved to threads, and shared by them. Where they may not, this doesn't compile.
fn is_shared_by_threads<T: Send + Sync>() -> bool {
    true
}

#[test]
fn books_and_states_are_shared_by_threads(rt: HostRuntime) {
    assert!(rt; is_shared_by_threads::<Book>() && is_shared_by_threads::<State>());
}
