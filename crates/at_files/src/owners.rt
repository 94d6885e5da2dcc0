//! The owners field of an account's record.

ghost use Rattle.std.specs.Prelude.{◌≡◌, ◌+◌, ◌<◌, ◌==◌, Err, IfOk, Ok, Some, option_map};
ghost use Rattle.at_files.specs.Prelude.{most_accounts, slice_split};
ghost use Rattle.at_files.specs.BookFile.{at_line};
ghost use Rattle.at_files.specs.BookRecords.{numbers_of, owner_known, owners_named, pieces_of};

use crate::book_fault::{BadBook, BookWhy, ReadBookFault};
use crate::first_records::bad_book;
use crate::name_set::NameSet;
use at_base::parse_number;
use at_ledger::{ACCOUNTS_MAX, BookError, OWNERS_MAX};
use std::alloc::{AllocError, Global};

/// The numbers of an owners field, or `None` where a piece is no number.
pub(crate) fn read_owners(alloc: Global, text: &[u8]) -> Result<Option<Vec<u64>>, AllocError>
    ensures { IfOk result
        (λ owners. option_map (λ list. list.items) owners ≡ numbers_of (pieces_of text.now)) }
{
    if text.is_empty() {
        Ok(Some(Vec::new(alloc)))
    } else {
        read_numbers(alloc, text)
    }
}

/// The numbers of the pieces between spaces.
fn read_numbers(alloc: Global, text: &[u8]) -> Result<Option<Vec<u64>>, AllocError>
    ensures { IfOk result
        (λ owners. option_map (λ list. list.items) owners ≡ numbers_of
        (slice_split (λ byte. byte == 32) text.now)) }
{
    let mut numbers = Vec::new(alloc);
    for piece in text.split(|byte| *byte == b' ') {
        let Some(number) = parse_number(piece) else {
            return Ok(None);
        };
        if numbers.push(number).is_err() {
            return Err(AllocError);
        }
    }
    Ok(Some(numbers))
}

/// The process at a position, where the account has `count` owners and the next one has to be at least `least`.
fn owner_known(
    account: u32,
    count: usize,
    least: u64,
    position: Option<usize>,
) -> Result<u64, BookWhy>
    ensures known { result ≡ owner_known account count least position }
    ensures position { IfOk result (λ owner. position ≡ Some owner) }
{
    let Some(position) = position else {
        return Err(BookWhy::UnknownOwner);
    };
    let owner = position as u64;
    if owner < least {
        Err(BookWhy::Book(BookError::OwnersNotRising { account }))
    } else if OWNERS_MAX <= count {
        Err(BookWhy::Book(BookError::TooManyOwners { account }))
    } else {
        Ok(owner)
    }
}

/// The owners that a field names.
pub(crate) fn owners_named(
    alloc: Global,
    processes: &NameSet,
    account: u32,
    text: &[u8],
) -> Result<Vec<u64>, ReadBookFault>
    requires { account < most_accounts }
    ensures ok { IfOk result
        (λ owners. owners_named processes.now account 0 0 (pieces_of text.now) ≡ Ok owners.items) }
    ensures bad { (b : BadBook) → result ≡ Err (ReadBookFault.Bad b)
        → at_line (account + 4) (owners_named processes.now account 0 0 (pieces_of text.now))
        ≡ Err b }
{
    if text.is_empty() {
        Ok(Vec::new(alloc))
    } else {
        pieces_named(alloc, processes, account, text)
    }
}

/// The owners that the pieces between spaces name.
fn pieces_named(
    alloc: Global,
    processes: &NameSet,
    account: u32,
    text: &[u8],
) -> Result<Vec<u64>, ReadBookFault>
    requires { account < most_accounts }
    ensures ok { IfOk result
        (λ owners. owners_named processes.now account 0 0
        (slice_split (λ byte. byte == 32) text.now) ≡ Ok owners.items) }
    ensures bad { (b : BadBook) → result ≡ Err (ReadBookFault.Bad b)
        → at_line (account + 4) (owners_named processes.now account 0 0
        (slice_split (λ byte. byte == 32) text.now)) ≡ Err b }
{
    let _known = processes.len();
    let mut owners = Vec::new(alloc);
    let mut least = 0;
    for piece in text.split(|byte| *byte == b' ') {
        let owner = match owner_known(account, owners.len(), least, processes.position(piece)) {
            Ok(owner) => owner,
            Err(why) => return Err(bad_book(account + 4, why)),
        };
        if owners.push(owner).is_err() {
            return Err(ReadBookFault::NoMemory);
        }
        least = owner + 1;
    }
    Ok(owners)
}
