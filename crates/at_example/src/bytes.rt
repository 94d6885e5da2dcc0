//! From bytes to calls.

use at_files::{ReadPaymentsFault, read_book, read_payments};
use std::alloc::Global;

/// How many calls the payment file of the first process has beside a book, or why it is refused. A bad book is `None`.
pub fn calls_in(
    alloc: Global,
    book: &[u8],
    payments: &[u8],
) -> Option<Result<usize, ReadPaymentsFault>> {
    let Ok((book, names)) = read_book(alloc, book) else {
        return None;
    };
    match read_payments(alloc, &book, &names, 0, payments) {
        Ok(calls) => Some(Ok(calls.len())),
        Err(fault) => Some(Err(fault)),
    }
}
