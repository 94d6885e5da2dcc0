//! The payments of one process for a replay.

ghost use Rattle.std.specs.Prelude.{◌≡◌, ◌<◌, List, Ok, Err, IfErr, IfOk};
ghost use Rattle.at_files.specs.Names.{AreNamesOf};
ghost use Rattle.at_files.specs.Records.{file_records};
ghost use Rattle.at_files.specs.ReplayPayments.{PaysReplay, replay_payments_of};

use crate::names::Names;
use crate::payments::{FileCalls, read_calls};
use crate::payments_fault::{BadPayments, PaymentsWhy, ReadPaymentsFault};
use at_ledger::{Book, Call};
use std::alloc::Global;

/// The most calls of one payment file for a replay.
pub const REPLAY_CALLS_MAX: u32 = 64;

/// Reads the payment file of one process for a replay: as `read_payments` does, and then refuses it where it has more calls
/// than a replay makes. So a fault of a record comes first, also where it stands behind that many calls.
pub fn read_replay_payments(
    alloc: Global,
    book: &Book,
    names: &Names,
    process: u32,
    bytes: &[u8],
) -> Result<Vec<Call>, ReadPaymentsFault>
    requires names { AreNamesOf book.now names.now }
    requires process { process < book.now.processes }
    ensures ok { IfOk result
        (λ calls. replay_payments_of names.now process (file_records bytes.now) ≡ Ok calls.items) }
    ensures pays { IfOk result
        (λ calls. PaysReplay book.now names.now process (file_records bytes.now) calls.items) }
    ensures accepts { (calls : List Call)
        → PaysReplay book.now names.now process (file_records bytes.now) calls
        → IfErr result (λ fault. fault ≡ ReadPaymentsFault.NoMemory) }
    ensures bad { (b : BadPayments) → result ≡ Err (ReadPaymentsFault.Bad b)
        → replay_payments_of names.now process (file_records bytes.now) ≡ Err b }
{
    let FileCalls { skipped, calls } = match read_calls(alloc, names, process, bytes) {
        Ok(read) => read,
        Err(fault) => return Err(fault),
    };
    if calls.len() > REPLAY_CALLS_MAX as usize {
        return Err(ReadPaymentsFault::Bad(BadPayments {
            line: skipped + REPLAY_CALLS_MAX + 1,
            why: PaymentsWhy::TooManyCalls,
        }));
    }
    Ok(calls)
}
