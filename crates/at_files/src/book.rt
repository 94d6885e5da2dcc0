//! The book of a file.

ghost use Rattle.std.specs.Prelude.{◌≡◌, ◌⊎◌, [], Err, IfErr, IfOk, Ok, OnOk};
ghost use Rattle.at_files.specs.Prelude.{BookTerms, IsBook};
ghost use Rattle.at_files.specs.Names.{AreNames, AreNamesOf, NameList};
ghost use Rattle.at_files.specs.Records.{file_records};
ghost use Rattle.at_files.specs.BookFile.{Spells, accounts_from, book_at_end, book_of_records, limits_from, processes_from};

use crate::accounts::{Begun, add_record, limits_of};
use crate::book_fault::{BadBook, BookWhy, ReadBookFault};
use crate::first_records::{bad_book, processes_of, version_of};
use crate::name_set::NameSet;
use crate::names::Names;
use crate::record::Record;
use crate::records::Records;
use at_ledger::{ACCOUNTS_MAX, Book, BookError};
use std::alloc::Global;

/// Reads record 1.
fn read_title<'a>(records: &mut Records<'a>, fields: &mut Record<'a>) -> Result<u32, ReadBookFault>
    ensures ok { IfOk result
        (λ version. book_of_records records.old ≡ processes_from version records.new) }
    ensures known { IfOk result (λ version. (version ≡ 1) ⊎ (version ≡ 2)) }
    ensures bad { (b : BadBook) → result ≡ Err (ReadBookFault.Bad b)
        → book_of_records records.old ≡ Err b }
{
    let Ok(found) = records.next(fields) else {
        return Err(ReadBookFault::NoMemory);
    };
    if !found {
        return Err(bad_book(1, BookWhy::Shape));
    }
    match version_of(fields) {
        Ok(version) => Ok(version),
        Err(why) => Err(bad_book(1, why)),
    }
}

/// Reads record 2.
fn read_processes<'a>(
    alloc: Global,
    version: u32,
    records: &mut Records<'a>,
    fields: &mut Record<'a>,
) -> Result<NameSet, ReadBookFault>
    ensures ok { IfOk result
        (λ processes. processes_from version records.old ≡ limits_from
        version processes records.new) }
    ensures names { (version ≡ 1) ⊎ (version ≡ 2) → IfOk result (AreNames version) }
    ensures bad { (b : BadBook) → result ≡ Err (ReadBookFault.Bad b)
        → processes_from version records.old ≡ Err b }
{
    let Ok(found) = records.next(fields) else {
        return Err(ReadBookFault::NoMemory);
    };
    if !found {
        return Err(bad_book(2, BookWhy::Shape));
    }
    match processes_of(alloc, version, fields) {
        Ok(processes) => Ok(processes),
        Err(fault) => Err(fault),
    }
}

/// Reads record 3.
fn read_limits<'a>(
    alloc: Global,
    version: u32,
    processes: NameSet,
    records: &mut Records<'a>,
    fields: &mut Record<'a>,
) -> Result<Begun, ReadBookFault>
    requires { AreNames version processes }
    ensures ok { IfOk result
        (λ b. limits_from version processes records.old ≡ accounts_from b records.new) }
    ensures empty { IfOk result (λ b. b.book.accounts ≡ []) }
    ensures names { IfOk result (λ b. AreNamesOf b.book b.names) }
    ensures bad { (b : BadBook) → result ≡ Err (ReadBookFault.Bad b)
        → limits_from version processes records.old ≡ Err b }
{
    let Ok(found) = records.next(fields) else {
        return Err(ReadBookFault::NoMemory);
    };
    if !found {
        return Err(bad_book(3, BookWhy::Shape));
    }
    match limits_of(alloc, version, processes, fields) {
        Ok(begun) => Ok(begun),
        Err(why) => Err(bad_book(3, why)),
    }
}

/// Reads the records from the fourth on into a book without accounts.
///
/// It holds only references: what is owned stands in its caller.
fn read_accounts<'a>(
    alloc: Global,
    begun: &mut Begun,
    records: &mut Records<'a>,
    fields: &mut Record<'a>,
) -> Result<(), ReadBookFault>
    requires empty { begun.old.book.accounts ≡ [] }
    requires names { AreNamesOf begun.old.book begun.old.names }
    ensures ok { OnOk result (accounts_from begun.old records.old ≡ book_at_end begun.new) }
    ensures names { OnOk result (AreNamesOf begun.new.book begun.new.names) }
    ensures bad { (b : BadBook) → result ≡ Err (ReadBookFault.Bad b)
        → accounts_from begun.old records.old ≡ Err b }
{
    for account in 0..ACCOUNTS_MAX {
        let Ok(found) = records.next(fields) else {
            return Err(ReadBookFault::NoMemory);
        };
        if !found {
            return Ok(());
        }
        if let Err(fault) = add_record(alloc, begun, account, fields) {
            return Err(fault);
        }
    }
    let Ok(found) = records.next(fields) else {
        return Err(ReadBookFault::NoMemory);
    };
    if found {
        return Err(bad_book(ACCOUNTS_MAX + 4, BookWhy::Book(BookError::TooManyAccounts)));
    }
    Ok(())
}

/// Ends a book: it has an account.
fn finish_book(begun: Begun) -> Result<(Book, Names), ReadBookFault>
    requires { AreNamesOf begun.book begun.names }
    ensures ok { IfOk result (λ r. book_at_end begun ≡ Ok (record { book = r.0; names = r.1 })) }
    ensures checked { IfOk result (λ r. IsBook r.0) }
    ensures names { IfOk result (λ r. AreNamesOf r.0 r.1) }
    ensures bad { (b : BadBook) → result ≡ Err (ReadBookFault.Bad b) → book_at_end begun ≡ Err b }
{
    let Begun {
        builder,
        version,
        processes,
        accounts,
    } = begun;
    match builder.finish() {
        Ok(book) => Ok((book, Names::new(version, processes, accounts))),
        Err(fault) => Err(bad_book(4, BookWhy::Book(fault))),
    }
}

/// Reads all records.
fn read_terms<'a>(
    alloc: Global,
    records: &mut Records<'a>,
    fields: &mut Record<'a>,
) -> Result<(Book, Names), ReadBookFault>
    ensures ok { IfOk result
        (λ r. book_of_records records.old ≡ Ok (record { book = r.0; names = r.1 })) }
    ensures checked { IfOk result (λ r. IsBook r.0) }
    ensures names { IfOk result (λ r. AreNamesOf r.0 r.1) }
    ensures bad { (b : BadBook) → result ≡ Err (ReadBookFault.Bad b)
        → book_of_records records.old ≡ Err b }
{
    let version = match read_title(records, fields) {
        Ok(version) => version,
        Err(fault) => return Err(fault),
    };
    let processes = match read_processes(alloc, version, records, fields) {
        Ok(processes) => processes,
        Err(fault) => return Err(fault),
    };
    let mut begun = match read_limits(alloc, version, processes, records, fields) {
        Ok(begun) => begun,
        Err(fault) => return Err(fault),
    };
    if let Err(fault) = read_accounts(alloc, &mut begun, records, fields) {
        return Err(fault);
    }
    finish_book(begun)
}

/// Reads a book file: the book, and the names that later files use for its accounts.
///
/// Only one record is held at a time, and each name is looked up by its hash.
pub fn read_book(alloc: Global, bytes: &[u8]) -> Result<(Book, Names), ReadBookFault>
    ensures ok { IfOk result
        (λ r. book_of_records (file_records bytes.now) ≡ Ok (record { book = r.0; names = r.1 })) }
    ensures spelled { IfOk result (λ r. Spells (file_records bytes.now) r.0 r.1) }
    ensures names { IfOk result (λ r. AreNamesOf r.0 r.1) }
    ensures accepts { (b : BookTerms) (names : NameList) → Spells (file_records bytes.now) b names
        → IfErr result (λ fault. fault ≡ ReadBookFault.NoMemory) }
    ensures bad { (b : BadBook) → result ≡ Err (ReadBookFault.Bad b)
        → book_of_records (file_records bytes.now) ≡ Err b }
{
    let mut records = Records::new(alloc, bytes);
    let mut fields = Record::new(alloc);
    match read_terms(alloc, &mut records, &mut fields) {
        Ok(read) => Ok(read),
        Err(fault) => Err(fault),
    }
}
