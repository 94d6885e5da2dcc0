//! How many payments of each kind the files have, and how many from each account its owners make.

ghost use Rattle.std.specs.Prelude.{◌≡◌, ◌+◌, ◌^◌, ◌<◌, [], ◌∷◌, All, IfOk, length, slice_index, slice_set};
ghost use Rattle.at_tables.specs.Prelude.{IsPlayable, contents_of, IsCallOn};
ghost use Rattle.at_tables.specs.Counting.{AreCounted, AreCounts, HasRoomToCount};

use crate::kind::{Kind, kind_of};
use at_ledger::{Book, Call};
use std::alloc::{AllocError, Global};

/// So many payments are of each kind, and so many from each account by its owners.
#[derive(Debug, Drop)]
pub(crate) struct Counts {
    pub(crate) refused: u32,
    pub(crate) alone: u32,
    pub(crate) agreed: u32,
    pub(crate) by_owners: Vec<u32>,
}

/// Counts a payment from the account by one of its owners.
fn add_by_owner(by_owners: &mut [u32], account: u32)
    requires account_in { account < length by_owners.old }
    requires fits { slice_index by_owners.old account + 1 < 2 ^ 32 }
    ensures { by_owners.new ≡ slice_set by_owners.old account (slice_index by_owners.old account + 1) }
{
    by_owners[account as usize] += 1;
}

/// Counts a call of the process.
fn add(counts: &mut Counts, book: &Book, process: u32, call: &Call)
    requires call_in { IsCallOn (length book.now.accounts) call.now }
    requires accounts { length counts.old.by_owners.items ≡ length book.now.accounts }
    requires room { HasRoomToCount counts.old 1 }
    ensures { AreCounted book.now process (call.now ∷ []) counts.old counts.new }
{
    match kind_of(book, process, call) {
        Kind::Read => {}
        Kind::Refused => counts.refused += 1,
        Kind::Alone => {
            counts.alone += 1;
            add_by_owner(&mut counts.by_owners, call.first_account());
        }
        Kind::Agreed => {
            counts.agreed += 1;
            add_by_owner(&mut counts.by_owners, call.first_account());
        }
    }
}

/// Counts the calls of the process.
fn add_all(counts: &mut Counts, book: &Book, process: u32, calls: &[Call])
    requires calls_in { All (IsCallOn (length book.now.accounts)) calls.now }
    requires accounts { length counts.old.by_owners.items ≡ length book.now.accounts }
    requires room { HasRoomToCount counts.old (length calls.now) }
    ensures { AreCounted book.now process calls.now counts.old counts.new }
{
    for call in calls {
        add(counts, book, process, call);
    }
}

/// Counts the calls of all files, of which there is one for each process.
pub(crate) fn count(alloc: Global, book: &Book, files: &[Vec<Call>]) -> Result<Counts, AllocError>
    requires processes { length files.now ≡ book.now.processes }
    requires files { All (IsPlayable (length book.now.accounts)) (contents_of files.now) }
    ensures { IfOk result
        (λ counts. AreCounts book.now (contents_of files.now) book.now.processes counts) }
{
    let mut counts = Counts {
        refused: 0,
        alone: 0,
        agreed: 0,
        by_owners: vec![in alloc; 0; book.accounts() as usize]?,
    };
    for process in 0..book.processes() {
        add_all(
            &mut counts,
            book,
            process,
            files[process as usize].as_slice(),
        );
    }
    Ok(counts)
}
