//! The records of a book file from the fourth on, each of an account.

ghost use Rattle.std.specs.Prelude.{◌≡◌, ◌+◌, ◌<◌, length, Err, Ok, OnOk, IfErr, IfOk, option_map};
ghost use Rattle.at_files.specs.Prelude.{most_accounts, account_fault, terms_with, with_account};
ghost use Rattle.at_files.specs.Names.{AreNamesOf};
ghost use Rattle.at_files.specs.BookRecords.{book_with_rooms, limits_of, named_terms, numbered_terms, with_named_record, with_plain_record, with_account_record, within_limits};
ghost use Rattle.at_files.specs.BookFile.{at_line};

use crate::book_fault::{BadBook, BookWhy, ReadBookFault};
use crate::fields::{field_of, has_shape, number_at};
use crate::first_records::{add_name, bad_book};
use crate::name_set::NameSet;
use crate::owners::{owners_named, read_owners};
use crate::record::Record;
use at_ledger::{ACCOUNTS_MAX, BookBuilder, BookFault};
use std::alloc::Global;
use std::marker::Model;

/// What there is so far of a book and its names.
#[derive(Drop)]
pub(crate) struct Begun {
    pub(crate) builder: BookBuilder,
    pub(crate) version: u32,
    pub(crate) processes: NameSet,
    pub(crate) accounts: NameSet,
}

impl Model for Begun {
    ghost use Rattle.at_files.specs.BookRecords.{NamedBook};

    ghost Value = { NamedBook };

    ghost view = { λ b. record {
      book = b.builder;
      names = record { version = b.version; processes = b.processes; accounts = b.accounts };
    } };
}

/// A book of these processes with these rooms and no account yet.
fn book_with_rooms(
    alloc: Global,
    version: u32,
    processes: NameSet,
    own_room: Option<u64>,
    request_room: Option<u64>,
) -> Result<Begun, BookWhy>
    ensures { result ≡ book_with_rooms version processes own_room request_room }
{
    let (Some(own_room), Some(request_room)) = (own_room, request_room) else {
        return Err(BookWhy::Number);
    };
    match BookBuilder::new(alloc, processes.len() as u64, own_room, request_room) {
        Ok(builder) => Ok(Begun {
            builder,
            version,
            processes,
            accounts: NameSet::new(alloc),
        }),
        Err(fault) => Err(BookWhy::Book(fault)),
    }
}

/// The book without accounts that record 3 gives.
pub(crate) fn limits_of(
    alloc: Global,
    version: u32,
    processes: NameSet,
    fields: &Record<'_>,
) -> Result<Begun, BookWhy>
    ensures { result ≡ limits_of version processes fields.now }
{
    if has_shape(fields, b"limits", 3) {
        book_with_rooms(
            alloc,
            version,
            processes,
            number_at(fields, 1),
            number_at(fields, 2),
        )
    } else {
        Err(BookWhy::Shape)
    }
}

/// Adds an account to the book, unless it would break a limit.
fn add_terms(
    builder: &mut BookBuilder,
    account: u32,
    opening: u64,
    owners: &[u64],
) -> Result<(), ReadBookFault>
    requires { account < most_accounts }
    ensures ok { OnOk result
        (within_limits (account_fault builder.old (terms_with opening owners.now))
        (with_account builder.old (terms_with opening owners.now)) ≡ Ok builder.new) }
    ensures bad { (b : BadBook) → result ≡ Err (ReadBookFault.Bad b)
        → at_line (account + 4) (within_limits
        (account_fault builder.old (terms_with opening owners.now))
        (with_account builder.old (terms_with opening owners.now))) ≡ Err b }
{
    match builder.add(opening, owners) {
        Ok(()) => Ok(()),
        Err(BookFault::Bad(fault)) => Err(bad_book(account + 4, BookWhy::Book(fault))),
        Err(BookFault::NoMemory) => Err(ReadBookFault::NoMemory),
    }
}

/// The opening and the owners of an account in version 1.
fn numbered_terms(
    account: u32,
    id: Option<u64>,
    opening: Option<u64>,
    owners: Option<Vec<u64>>,
) -> Result<(u64, Vec<u64>), BookWhy>
    ensures ok { IfOk result
        (λ t. numbered_terms account id opening (option_map (λ list. list.items) owners) ≡ Ok
        (terms_with t.0 t.1.items)) }
    ensures bad { IfErr result
        (λ w. numbered_terms account id opening (option_map (λ list. list.items) owners) ≡ Err w) }
{
    let (Some(id), Some(opening), Some(owners)) = (id, opening, owners) else {
        return Err(BookWhy::Number);
    };
    if id == u64::from(account) {
        Ok((opening, owners))
    } else {
        Err(BookWhy::AccountOrder)
    }
}

/// The opening and the owners of an account in version 2.
fn named_terms(
    alloc: Global,
    processes: &NameSet,
    account: u32,
    opening: Option<u64>,
    text: &[u8],
) -> Result<(u64, Vec<u64>), ReadBookFault>
    requires { account < most_accounts }
    ensures ok { IfOk result
        (λ t. named_terms processes.now account opening text.now ≡ Ok (terms_with t.0 t.1.items)) }
    ensures bad { (b : BadBook) → result ≡ Err (ReadBookFault.Bad b)
        → at_line (account + 4) (named_terms processes.now account opening text.now) ≡ Err b }
{
    let Some(opening) = opening else {
        return Err(bad_book(account + 4, BookWhy::Number));
    };
    match owners_named(alloc, processes, account, text) {
        Ok(owners) => Ok((opening, owners)),
        Err(fault) => Err(fault),
    }
}

/// Adds the account of a record in version 1.
fn add_plain_record(
    alloc: Global,
    begun: &mut Begun,
    account: u32,
    fields: &Record<'_>,
) -> Result<(), ReadBookFault>
    requires account { account ≡ length begun.old.book.accounts }
    requires room { account < most_accounts }
    requires version { begun.old.names.version ≡ 1 }
    requires names { AreNamesOf begun.old.book begun.old.names }
    ensures ok { OnOk result (with_plain_record begun.old fields.now ≡ Ok begun.new) }
    ensures bad { (b : BadBook) → result ≡ Err (ReadBookFault.Bad b)
        → at_line (account + 4) (with_plain_record begun.old fields.now) ≡ Err b }
{
    let Ok(owners) = read_owners(alloc, field_of(fields, 3)) else {
        return Err(ReadBookFault::NoMemory);
    };
    let (opening, owners) = match numbered_terms(
        account,
        number_at(fields, 1),
        number_at(fields, 2),
        owners,
    ) {
        Ok(terms) => terms,
        Err(why) => return Err(bad_book(account + 4, why)),
    };
    if let Err(fault) = add_terms(&mut begun.builder, account, opening, &owners) {
        return Err(fault);
    }
    let Ok(_added) = begun.accounts.add(field_of(fields, 1)) else {
        return Err(ReadBookFault::NoMemory);
    };
    Ok(())
}

/// Adds the account of a record in version 2.
fn add_named_record(
    alloc: Global,
    begun: &mut Begun,
    account: u32,
    fields: &Record<'_>,
) -> Result<(), ReadBookFault>
    requires account { account ≡ length begun.old.book.accounts }
    requires room { account < most_accounts }
    ensures ok { OnOk result (with_named_record begun.old fields.now ≡ Ok begun.new) }
    ensures bad { (b : BadBook) → result ≡ Err (ReadBookFault.Bad b)
        → at_line (account + 4) (with_named_record begun.old fields.now) ≡ Err b }
{
    if let Err(fault) = add_name(&mut begun.accounts, account + 4, field_of(fields, 1)) {
        return Err(fault);
    }
    let (opening, owners) = match named_terms(
        alloc,
        &begun.processes,
        account,
        number_at(fields, 2),
        field_of(fields, 3),
    ) {
        Ok(terms) => terms,
        Err(fault) => return Err(fault),
    };
    add_terms(&mut begun.builder, account, opening, &owners)
}

/// Adds the account of a record to the book so far, which has room for it.
pub(crate) fn add_record(
    alloc: Global,
    begun: &mut Begun,
    account: u32,
    fields: &Record<'_>,
) -> Result<(), ReadBookFault>
    requires account { account ≡ length begun.old.book.accounts }
    requires room { account < most_accounts }
    requires names { AreNamesOf begun.old.book begun.old.names }
    ensures ok { OnOk result (with_account_record begun.old fields.now ≡ Ok begun.new) }
    ensures names { OnOk result (AreNamesOf begun.new.book begun.new.names) }
    ensures bad { (b : BadBook) → result ≡ Err (ReadBookFault.Bad b)
        → at_line (account + 4) (with_account_record begun.old fields.now) ≡ Err b }
{
    if !has_shape(fields, b"account", 4) {
        return Err(bad_book(account + 4, BookWhy::Shape));
    }
    if begun.version == 2 {
        add_named_record(alloc, begun, account, fields)
    } else {
        add_plain_record(alloc, begun, account, fields)
    }
}
