//! The exports: one function of C each, which calls one function of the crate.

ghost use Rattle.std.specs.Prelude.{◌≡◌, length, None};
ghost use Rattle.at_c.specs.Prelude.{Call};
ghost use Rattle.at_c.specs.Exports.{Closes, GivesBack, HandleAnswers, HandleLearns, HandleNotes, HandlePays, HandleTellsBalances, HandsOutTo, WritesOver, Opens, accounts_by_handle, exchanges_by_handle, outcome_number, report_by_handle, steps_by_handle};
ghost use Rattle.at_c.specs.declared.outcome.Outcome.{Outcome};

use crate::handle::Handle;
use crate::outcome::Answer;
use crate::target::Target;
use at_ledger::Call;
use std::alloc::Global;

/// The version of the exports, as the header of C numbers it.
const VERSION: u32 = 5;

/// The version of the exports.
#[unsafe(no_mangle)]
pub extern "C" fn bezglami_version() -> u32
    ensures { result ≡ 5 }
{
    VERSION
}

/// Fills a handle, which holds nothing, with a ledger for the book that the bytes spell. Where they spell none, `line` is that of the
/// first fault, and `why` its cause.
#[unsafe(no_mangle)]
pub extern "C" fn bezglami_open(
    alloc: Global,
    book: &[u8],
    ledger: &mut Handle,
    line: &mut u32,
    why: &mut u32,
) -> u32
    ensures { (outcome : Outcome) × (result ≡ outcome_number outcome)
        × Opens book.now ledger.old.held ledger.new.held line.new why.new outcome }
{
    ledger.open(alloc, book, line, why).number()
}

/// Fills a handle, which holds nothing, with the caller of the next process of the ledger, with memory for so many receipts.
#[unsafe(no_mangle)]
pub extern "C" fn bezglami_caller(
    alloc: Global,
    ledger: &mut Handle,
    calls: u32,
    caller: &mut Handle,
) -> u32
    ensures { (outcome : Outcome) × (result ≡ outcome_number outcome)
        × HandsOutTo calls ledger.old.held ledger.new.held caller.old.held caller.new.held outcome }
{
    ledger.hand_out(alloc, calls, caller).number()
}

/// Moves the amount from one account to another, by this caller. Takes no memory and waits for no thread.
#[unsafe(no_mangle)]
pub extern "C" fn bezglami_transfer(
    alloc: Global,
    caller: &mut Handle,
    from: u32,
    to: u32,
    amount: u64,
    answer: &mut Answer,
) -> u32
    ensures { (outcome : Outcome) × (result ≡ outcome_number outcome)
        × HandleAnswers (Call.Transfer from to amount) caller.old.held caller.new.held answer.old answer.new outcome }
{
    let call = Call::Transfer { from, to, amount };
    caller.call(alloc, call, answer).number()
}

/// Moves each amount from one account to its target, or none of them, by this caller. Takes no memory and waits for no thread.
#[unsafe(no_mangle)]
pub extern "C" fn bezglami_pay(
    alloc: Global,
    caller: &mut Handle,
    from: u32,
    targets: &[Target],
    answer: &mut Answer,
) -> u32
    ensures { (outcome : Outcome) × (result ≡ outcome_number outcome)
        × HandlePays from targets.now caller.old.held caller.new.held answer.old answer.new outcome }
{
    caller.pay(alloc, from, targets, answer).number()
}

/// Tells the balance of an account, by this caller. Takes no memory and waits for no thread.
#[unsafe(no_mangle)]
pub extern "C" fn bezglami_read(
    alloc: Global,
    caller: &mut Handle,
    account: u32,
    answer: &mut Answer,
) -> u32
    ensures { (outcome : Outcome) × (result ≡ outcome_number outcome)
        × HandleAnswers (Call.Read account) caller.old.held caller.new.held answer.old answer.new outcome }
{
    caller.call(alloc, Call::Read { account }, answer).number()
}

/// How many accounts the book has, and 0 where the handle holds neither a ledger nor a caller.
#[unsafe(no_mangle)]
pub extern "C" fn bezglami_accounts(alloc: Global, handle: &mut Handle) -> u32
    ensures accounts { result ≡ accounts_by_handle handle.old.held }
    ensures same { handle.new.held ≡ handle.old.held }
{
    handle.accounts(alloc)
}

/// Writes the balance of each account over the first of these numbers, if there are so many: all are those at one point, so they sum to
/// what the book opens with, whatever is under way. It is no call, and has no line in the report. Takes no memory and waits for no thread.
#[unsafe(no_mangle)]
pub extern "C" fn bezglami_balances(alloc: Global, caller: &mut Handle, balances: &mut [u64]) -> u32
    ensures { (outcome : Outcome) × (result ≡ outcome_number outcome)
        × HandleTellsBalances caller.old.held caller.new.held balances.old balances.new outcome }
{
    caller.balances(alloc, balances).number()
}

/// Leaves a note of what the caller has seen for the caller of a process. Takes no memory and waits for no thread.
#[unsafe(no_mangle)]
pub extern "C" fn bezglami_note(alloc: Global, caller: &mut Handle, process: u32) -> u32
    ensures { (outcome : Outcome) × (result ≡ outcome_number outcome)
        × HandleNotes process caller.old.held caller.new.held outcome }
{
    caller.note(alloc, process).number()
}

/// Takes in the note that the caller of a process has left for this one, which is then there no more. Takes no memory and waits for
/// no thread.
#[unsafe(no_mangle)]
pub extern "C" fn bezglami_learn(alloc: Global, caller: &mut Handle, process: u32) -> u32
    ensures { (outcome : Outcome) × (result ≡ outcome_number outcome)
        × HandleLearns process caller.old.held caller.new.held outcome }
{
    caller.learn(alloc, process).number()
}

/// How many steps the calls, looks and notes of this caller have made, and 0 where the handle holds none.
#[unsafe(no_mangle)]
pub extern "C" fn bezglami_steps(alloc: Global, caller: &mut Handle) -> u64
    ensures steps { result ≡ steps_by_handle caller.old.held }
    ensures same { caller.new.held ≡ caller.old.held }
{
    caller.steps(alloc)
}

/// How many of them were exchanges.
#[unsafe(no_mangle)]
pub extern "C" fn bezglami_exchanges(alloc: Global, caller: &mut Handle) -> u64
    ensures exchanges { result ≡ exchanges_by_handle caller.old.held }
    ensures same { caller.new.held ≡ caller.old.held }
{
    caller.exchanges(alloc)
}

/// Gives a caller back to its ledger, with the receipts of its calls. The handle is left with nothing.
#[unsafe(no_mangle)]
pub extern "C" fn bezglami_return(alloc: Global, caller: &mut Handle) -> u32
    ensures { (outcome : Outcome) × (result ≡ outcome_number outcome)
        × GivesBack caller.old.held caller.new.held outcome }
{
    caller.give_back(alloc).number()
}

/// Closes a ledger, once all its callers are back, and makes its report. Where memory is wanting, it may be called again.
#[unsafe(no_mangle)]
pub extern "C" fn bezglami_close(alloc: Global, ledger: &mut Handle) -> u32
    ensures { (outcome : Outcome) × (result ≡ outcome_number outcome)
        × Closes ledger.old.held ledger.new.held outcome }
{
    ledger.close(alloc).number()
}

/// How many bytes the report has that the handle holds, which are written where there is room for all of them. 0 where it holds none.
#[unsafe(no_mangle)]
pub extern "C" fn bezglami_report(alloc: Global, ledger: &mut Handle, bytes: &mut [u8]) -> usize
    ensures length { result ≡ length (report_by_handle ledger.old.held) }
    ensures written { WritesOver (report_by_handle ledger.old.held) bytes.old bytes.new }
    ensures same { ledger.new.held ≡ ledger.old.held }
{
    ledger.report(alloc, bytes)
}

/// Frees what the handle holds, whatever it is. The handle is left with nothing.
#[unsafe(no_mangle)]
pub extern "C" fn bezglami_free(alloc: Global, handle: &mut Handle)
    ensures { handle.new.held ≡ None }
{
    drop(handle.take(alloc));
}
