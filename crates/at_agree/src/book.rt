//! The book of a council.

ghost use Rattle.std.specs.Prelude.{◌≡◌, [], IfOk, map};
ghost use Rattle.at_agree.specs.Prelude.{range_with_len, book_of, terms_of};
ghost use Rattle.at_agree.specs.Council.{IsSize, council_book, own_account};

use at_ledger::{Book, BookFault, Draft, DraftAccount};
use std::alloc::{AllocError, Global};

/// The most that a process can propose. Its own account opens with so much.
const VALUE_MAX: u64 = 4_294_967_295;

/// A checked book of a council of this size.
pub(crate) fn book_for(alloc: Global, size: u32) -> Result<Book, AllocError>
    requires { IsSize size }
    ensures { IfOk result (λ b. b ≡ council_book size) }
{
    let draft = draft_of(alloc, size)?;
    match Book::new(alloc, &draft) {
        Ok(book) => Ok(book),
        Err(BookFault::NoMemory) => Err(AllocError),
        // Such a book has no fault.
        Err(BookFault::Bad(_)) => unreachable!(),
    }
}

/// The book before it is checked.
fn draft_of(alloc: Global, size: u32) -> Result<Draft, AllocError>
    requires { IsSize size }
    ensures { IfOk result (λ d. book_of d ≡ council_book size) }
{
    let mut accounts = own_accounts(alloc, size)?;
    for _process in 0..size {
        accounts.push(unowned(alloc))?;
    }
    accounts.push(DraftAccount {
        opening: 2 * u64::from(size),
        owners: all_processes(alloc, size)?,
    })?;
    accounts.push(unowned(alloc))?;
    Ok(Draft {
        processes: u64::from(size),
        own_room: 1,
        request_room: 1,
        accounts,
    })
}

/// An account of each process alone.
fn own_accounts(alloc: Global, size: u32) -> Result<Vec<DraftAccount>, AllocError>
    ensures { IfOk result
        (λ accounts. map terms_of accounts.items ≡ map own_account (range_with_len 0 size)) }
{
    let mut accounts = Vec::new(alloc);
    for process in 0..size {
        accounts.push(DraftAccount {
            opening: VALUE_MAX,
            owners: Vec::from_array(alloc, [u64::from(process)])?,
        })?;
    }
    Ok(accounts)
}

/// An account that can only be paid into.
fn unowned(alloc: Global) -> DraftAccount
    ensures opening { result.opening ≡ 0 }
    ensures owners { result.owners.items ≡ [] }
{
    DraftAccount {
        opening: 0,
        owners: Vec::new(alloc),
    }
}

/// All processes, from the lowest up.
fn all_processes(alloc: Global, size: u32) -> Result<Vec<u64>, AllocError>
    ensures { IfOk result (λ owners. owners.items ≡ range_with_len 0 size) }
{
    let mut owners = Vec::new(alloc);
    for process in 0..size {
        owners.push(u64::from(process))?;
    }
    Ok(owners)
}
