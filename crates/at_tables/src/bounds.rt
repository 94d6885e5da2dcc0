//! The most that a call may cost.

ghost use Rattle.std.specs.Prelude.{◌≡◌, ◌<◌, ◌≤◌, ◌^◌, length, if◌then◌else◌};
ghost use Rattle.at_tables.specs.Prelude.{is_shared, slots_of, account_of, IsCallOn, call_steps, payment_steps, shared_steps, single_steps, snapshot_steps};
ghost use Rattle.at_tables.specs.Bounds.{is_refusal, most_exchanges, most_steps};

use at_board::{RECORD_WORDS, REQUEST_WORDS};
use at_ledger::{Book, Call, Reply};

/// Whether the call was answered before it looked at any balance.
fn is_refusal(reply: &Reply) -> bool
    ensures { result ≡ is_refusal reply.now }
{
    matches!(reply, Reply::NotOwner | Reply::Full)
}

/// The most steps of a snapshot of so many processes.
fn snapshot_steps(processes: u64) -> u64
    requires { processes ≤ 16 }
    ensures steps { result ≡ snapshot_steps processes }
    ensures small { result < 2 ^ 16 }
{
    processes * processes + 2 * processes
}

/// The most steps of a payment from an account of one owner.
fn single_steps(processes: u64) -> u64
    requires { processes ≤ 16 }
    ensures steps { result ≡ single_steps processes }
    ensures small { result < 2 ^ 16 }
{
    snapshot_steps(processes) + (u64::from(RECORD_WORDS) + processes + 1)
}

/// The most steps of a payment from an account of several owners.
fn shared_steps(processes: u64, owners: u64) -> u64
    requires processes { processes ≤ 16 }
    requires owners { owners ≤ 8 }
    ensures steps { result ≡ shared_steps processes owners }
    ensures small { result < 2 ^ 16 }
{
    let asking = (u64::from(REQUEST_WORDS) + 1) * owners + 1;
    let round = 1 + u64::from(REQUEST_WORDS) + (u64::from(RECORD_WORDS) + processes + 1);
    snapshot_steps(processes) + asking + owners * (snapshot_steps(processes) + round)
}

/// The most steps of a payment, beside the loads of records.
fn payment_steps(book: &Book, source: u32) -> u64
    requires { source < length book.now.accounts }
    ensures steps { result ≡ payment_steps book.now source }
    ensures small { result < 2 ^ 16 }
{
    book.known();
    let processes = u64::from(book.processes());
    let owners = u64::from(book.owner_count(source));
    if owners < 2 {
        single_steps(processes)
    } else {
        shared_steps(processes, owners)
    }
}

/// The most steps of a call, beside the loads of records.
fn call_steps(book: &Book, call: &Call) -> u64
    requires { IsCallOn (length book.now.accounts) call.now }
    ensures steps { result ≡ call_steps book.now call.now }
    ensures small { result < 2 ^ 16 }
{
    book.known();
    match call {
        Call::Transfer { from, .. } => payment_steps(book, *from),
        Call::Read { .. } => snapshot_steps(u64::from(book.processes())),
        Call::Pay { from, .. } => payment_steps(book, *from),
    }
}

/// The most steps of the call that was answered so, when it counted so many records anew.
pub fn most_steps(book: &Book, call: &Call, reply: Reply, new_records: u64) -> u128
    requires { IsCallOn (length book.now.accounts) call.now }
    ensures { result ≡ most_steps book.now call.now reply new_records }
{
    if is_refusal(&reply) {
        return 0;
    }
    u128::from(call_steps(book, call)) + u128::from(RECORD_WORDS) * u128::from(new_records)
}

/// How many exchanges a payment from the account may make: one for each owner where there are several.
fn payment_exchanges(book: &Book, source: u32) -> u64
    requires { source < length book.now.accounts }
    ensures { result ≡ (if is_shared (account_of book.now source)
        then slots_of (account_of book.now source) else 0) }
{
    let owners = u64::from(book.owner_count(source));
    if owners < 2 { 0 } else { owners }
}

/// The most exchanges of the call that was answered so.
pub fn most_exchanges(book: &Book, call: &Call, reply: Reply) -> u64
    requires { IsCallOn (length book.now.accounts) call.now }
    ensures { result ≡ most_exchanges book.now call.now reply }
{
    let is_read = matches!(call, Call::Read { .. });
    if is_read || is_refusal(&reply) {
        return 0;
    }
    payment_exchanges(book, call.first_account())
}
