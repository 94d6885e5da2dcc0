//! The first three records of a book file.

ghost use Rattle.std.specs.Prelude.{◌≡◌, ◌≤◌, [], drop, Err, Ok, OnOk, IfOk};
ghost use Rattle.at_files.specs.Prelude.{most_processes};
ghost use Rattle.at_files.specs.BookRecords.{counted_processes, named_processes, process_count, processes_of, version_of, with_name, with_process, with_processes};
ghost use Rattle.at_files.specs.BookFile.{at_line};

use crate::book_fault::{BadBook, BookWhy, ReadBookFault};
use crate::fields::{field_of, has_shape, is_word, number_at};
use crate::name_set::{NameSet, is_name};
use crate::names::plain_names;
use crate::record::Record;
use at_ledger::{BookBuilder, BookError, PROCESSES_MAX};
use std::alloc::Global;

/// An fault at a line.
pub(crate) fn bad_book(line: u32, why: BookWhy) -> ReadBookFault
    ensures { result ≡ ReadBookFault.Bad (record { line = line; why = why }) }
{
    ReadBookFault::Bad(BadBook { line, why })
}

/// The version that record 1 gives.
pub(crate) fn version_of(fields: &Record<'_>) -> Result<u32, BookWhy>
    ensures { result ≡ version_of fields.now }
{
    if !has_shape(fields, b"book", 2) {
        return Err(BookWhy::Shape);
    }
    if is_word(field_of(fields, 1), b"1") {
        Ok(1)
    } else if is_word(field_of(fields, 1), b"2") {
        Ok(2)
    } else {
        Err(BookWhy::Version)
    }
}

/// Adds a name, which has to have the form of one and to be new.
pub(crate) fn add_name(names: &mut NameSet, line: u32, name: &[u8]) -> Result<(), ReadBookFault>
    ensures ok { OnOk result (with_name names.old name.now ≡ Ok names.new) }
    ensures bad { (b : BadBook) → result ≡ Err (ReadBookFault.Bad b)
        → at_line line (with_name names.old name.now) ≡ Err b }
{
    if !is_name(name) {
        return Err(bad_book(line, BookWhy::Name));
    }
    let Ok(added) = names.add(name) else {
        return Err(ReadBookFault::NoMemory);
    };
    if added {
        Ok(())
    } else {
        Err(bad_book(line, BookWhy::NameTwice))
    }
}

/// Adds a process of record 2.
fn add_process(names: &mut NameSet, name: &[u8]) -> Result<(), ReadBookFault>
    ensures ok { OnOk result (with_process names.old name.now ≡ Ok names.new) }
    ensures bad { (b : BadBook) → result ≡ Err (ReadBookFault.Bad b)
        → at_line 2 (with_process names.old name.now) ≡ Err b }
{
    if names.len() >= PROCESSES_MAX as usize {
        return Err(bad_book(2, BookWhy::Book(BookError::TooManyProcesses)));
    }
    add_name(names, 2, name)
}

/// The processes that the fields after the first name.
fn names_of_processes(alloc: Global, fields: &Record<'_>) -> Result<NameSet, ReadBookFault>
    ensures ok { IfOk result
        (λ names. with_processes [] (drop 1 fields.now) ≡ Ok names) }
    ensures bad { (b : BadBook) → result ≡ Err (ReadBookFault.Bad b)
        → at_line 2 (with_processes [] (drop 1 fields.now)) ≡ Err b }
{
    let mut names = NameSet::new(alloc);
    for i in 1..fields.len() {
        if let Err(fault) = add_process(&mut names, field_of(fields, i)) {
            return Err(fault);
        }
    }
    Ok(names)
}

/// The processes of record 2 in version 2.
fn named_processes(alloc: Global, fields: &Record<'_>) -> Result<NameSet, ReadBookFault>
    ensures ok { IfOk result (λ names. named_processes fields.now ≡ Ok names) }
    ensures bad { (b : BadBook) → result ≡ Err (ReadBookFault.Bad b)
        → at_line 2 (named_processes fields.now) ≡ Err b }
{
    if !is_word(field_of(fields, 0), b"processes") {
        return Err(bad_book(2, BookWhy::Shape));
    }
    if fields.len() == 1 {
        return Err(bad_book(2, BookWhy::Book(BookError::NoProcess)));
    }
    names_of_processes(alloc, fields)
}

/// A number of processes within the limits.
fn process_count(alloc: Global, processes: Option<u64>) -> Result<u64, BookWhy>
    ensures count { result ≡ process_count processes }
    ensures few { IfOk result (λ count. count ≤ most_processes) }
{
    let Some(processes) = processes else {
        return Err(BookWhy::Number);
    };
    match BookBuilder::new(alloc, processes, 1, 1) {
        Ok(_) => Ok(processes),
        Err(fault) => Err(BookWhy::Book(fault)),
    }
}

/// The processes of record 2 in version 1.
fn counted_processes(alloc: Global, fields: &Record<'_>) -> Result<NameSet, ReadBookFault>
    ensures ok { IfOk result (λ names. counted_processes fields.now ≡ Ok names) }
    ensures bad { (b : BadBook) → result ≡ Err (ReadBookFault.Bad b)
        → at_line 2 (counted_processes fields.now) ≡ Err b }
{
    if !has_shape(fields, b"processes", 2) {
        return Err(bad_book(2, BookWhy::Shape));
    }
    let count = match process_count(alloc, number_at(fields, 1)) {
        Ok(count) => count,
        Err(why) => return Err(bad_book(2, why)),
    };
    match plain_names(alloc, count as u32) {
        Ok(names) => Ok(names),
        Err(_) => Err(ReadBookFault::NoMemory),
    }
}

/// The processes that record 2 names or counts.
pub(crate) fn processes_of(
    alloc: Global,
    version: u32,
    fields: &Record<'_>,
) -> Result<NameSet, ReadBookFault>
    ensures ok { IfOk result (λ names. processes_of version fields.now ≡ Ok names) }
    ensures bad { (b : BadBook) → result ≡ Err (ReadBookFault.Bad b)
        → at_line 2 (processes_of version fields.now) ≡ Err b }
{
    if version == 2 {
        named_processes(alloc, fields)
    } else {
        counted_processes(alloc, fields)
    }
}
