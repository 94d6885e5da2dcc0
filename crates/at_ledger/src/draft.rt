//! A book before it is checked, and why it may be refused.

ghost use Rattle.std.specs.Prelude.{◌≡◌, ◌<◌, None, Some, OnOk, IfOk, IfErr};
ghost use Rattle.at_ledger.specs.Draft.{is_within, limits_fault, owner_fault, owners_fault};

use arrayvec::ArrayVec;
use thiserror::Error;

/// The most processes of a book.
pub const PROCESSES_MAX: u32 = 16;

/// The most accounts of a book.
pub const ACCOUNTS_MAX: u32 = 1_024;

/// The most owners of one account.
pub const OWNERS_MAX: usize = 8;

/// The most successful transfers from single accounts that a book may give each process.
pub const OWN_ROOM_MAX: u32 = 4_096;

/// The most requests that a book may give each owner of a shared account.
pub const REQUEST_ROOM_MAX: u32 = 1_024;

/// The most rounds of all shared accounts together, the product of owners and request room for each.
pub const ROUNDS_MAX: u32 = 8_192;

/// A book as it was written down, with nothing checked yet.
#[derive(Debug, Drop)]
pub struct Draft {
    pub processes: u64,
    pub own_room: u64,
    pub request_room: u64,
    pub accounts: Vec<DraftAccount>,
}

/// An account of a draft: what it opens with, and the processes that may debit it.
#[derive(Debug, Drop)]
pub struct DraftAccount {
    pub opening: u64,
    pub owners: Vec<u64>,
}

/// Why a draft is no book. An account is named by its position in the book, from 0.
#[derive(Clone, Copy, Debug, PartialEq, Eq, Error)]
pub enum BookError {
    #[error("no process")]
    NoProcess,
    #[error("too many processes")]
    TooManyProcesses,
    #[error("no account")]
    NoAccount,
    #[error("too many accounts")]
    TooManyAccounts,
    #[error("account {account}: owner out of range")]
    OwnerOutOfRange { account: u32 },
    #[error("account {account}: owners not rising")]
    OwnersNotRising { account: u32 },
    #[error("account {account}: too many owners")]
    TooManyOwners { account: u32 },
    #[error("room out of range")]
    RoomOutOfRange,
    #[error("account {account}: rounds over limit")]
    RoundsOverLimit { account: u32 },
    #[error("account {account}: total over limit")]
    TotalOverLimit { account: u32 },
}

/// Why no book came of a draft.
#[derive(Clone, Copy, Debug, PartialEq, Eq, Error)]
pub enum BookFault {
    #[error(transparent)]
    Bad(BookError),
    #[error("no memory")]
    NoMemory,
}

/// Whether a number is from 1 to `most`.
fn is_within(most: u32, n: u64) -> bool
    ensures { result ≡ is_within most n }
{
    1 <= n && n <= u64::from(most)
}

/// The fault of the limits alone, before any account.
pub(crate) fn limits_fault(processes: u64, own_room: u64, request_room: u64) -> Option<BookError>
    ensures { result ≡ limits_fault processes own_room request_room }
{
    if processes == 0 {
        Some(BookError::NoProcess)
    } else if u64::from(PROCESSES_MAX) < processes {
        Some(BookError::TooManyProcesses)
    } else if is_within(OWN_ROOM_MAX, own_room) && is_within(REQUEST_ROOM_MAX, request_room) {
        None
    } else {
        Some(BookError::RoomOutOfRange)
    }
}

/// Why `owner` can't follow `count` owners of the account, where the next one has to be at least `least`.
fn owner_fault(
    processes: u32,
    account: u32,
    count: usize,
    least: u64,
    owner: u64,
) -> Option<BookError>
    ensures { result ≡ owner_fault processes account count least owner }
{
    if u64::from(processes) <= owner {
        Some(BookError::OwnerOutOfRange { account })
    } else if owner < least {
        Some(BookError::OwnersNotRising { account })
    } else if OWNERS_MAX <= count {
        Some(BookError::TooManyOwners { account })
    } else {
        None
    }
}

/// The owners of the account, or the first fault from left to right.
pub(crate) fn checked_owners(
    processes: u32,
    account: u32,
    owners: &[u64],
) -> Result<ArrayVec<u32, OWNERS_MAX>, BookError>
    ensures ok { IfOk result (λ list. list.items ≡ owners.now) }
    ensures good { OnOk result (owners_fault processes account 0 0 owners.now ≡ None) }
    ensures bad { IfErr result (λ e. owners_fault processes account 0 0 owners.now ≡ Some e) }
{
    let mut list = ArrayVec::new();
    let mut least = 0;
    for owner in owners {
        if let Some(fault) = owner_fault(processes, account, list.len(), least, *owner) {
            return Err(fault);
        }
        list.push(*owner as u32);
        least = *owner + 1;
    }
    Ok(list)
}
