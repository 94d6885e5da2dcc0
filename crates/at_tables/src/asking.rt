//! What processes ask of the accounts that they own: the sums of their payments.

ghost use Rattle.std.specs.Prelude.{◌≡◌, ◌<◌, [], ◌∷◌, All, IfOk, length, slice_index_or};
ghost use Rattle.at_tables.specs.Prelude.{IsPlayable, contents_of, IsCallOn};
ghost use Rattle.at_tables.specs.Asking.{AreAddedUp, AreSumRows, HasRoomToAdd, HaveSums, row_number};

use at_ledger::{Book, Call};
use std::alloc::{AllocError, Global};

/// Adds what the call of the process asks of its source: nothing where the process doesn't own it.
fn add(row: &mut [u128], book: &Book, process: u32, call: &Call)
    requires call_in { IsCallOn (length book.now.accounts) call.now }
    requires accounts { length row.old ≡ length book.now.accounts }
    requires room { HasRoomToAdd book.now row.old 1 }
    ensures { AreAddedUp book.now process (call.now ∷ []) row.old row.new }
{
    book.known();
    let Some((source, targets)) = call.payout() else {
        return;
    };
    if book.slot_of(source, process).is_none() {
        return;
    }
    row[source as usize] += targets.sum();
}

/// Adds what all calls of the file ask.
fn add_all(row: &mut [u128], book: &Book, process: u32, file: &[Call])
    requires calls_in { All (IsCallOn (length book.now.accounts)) file.now }
    requires accounts { length row.old ≡ length book.now.accounts }
    requires room { HasRoomToAdd book.now row.old (length file.now) }
    ensures { AreAddedUp book.now process file.now row.old row.new }
{
    for call in file {
        add(row, book, process, call);
    }
}

/// A row for each process: what its file asks of each account.
pub(crate) fn rows_of(
    alloc: Global,
    book: &Book,
    files: &[Vec<Call>],
) -> Result<Vec<Vec<u128>>, AllocError>
    requires processes { length files.now ≡ book.now.processes }
    requires files { All (IsPlayable (length book.now.accounts)) (contents_of files.now) }
    ensures rows { IfOk result
        (λ rows. AreSumRows book.now (contents_of rows.items) book.now.processes) }
    ensures asked { IfOk result (λ rows. HaveSums book.now (contents_of files.now)
        (contents_of rows.items) book.now.processes) }
{
    let mut rows = Vec::new(alloc);
    for process in 0..book.processes() {
        let file = files[process as usize].as_slice();
        let mut row = vec![in alloc; 0; book.accounts() as usize]?;
        add_all(row.as_mut_slice(), book, process, file);
        rows.push(row)?;
    }
    Ok(rows)
}

/// What the process asks of the account, by these rows.
pub(crate) fn asked_by(rows: &[Vec<u128>], account: u32, process: u32) -> u128
    requires process_in { process < length rows.now }
    requires account_in { account < length (slice_index_or (contents_of rows.now) process []) }
    ensures { result ≡ row_number (contents_of rows.now) account process }
{
    let row = rows[process as usize].as_slice();
    row[account as usize]
}
