//! The asset transfer object in a program of one's own: two processes pay from accounts of one owner and from one that they share,
//! one hands the other what it has seen, and the journal of the closed ledger is printed.
//!
//! Beside it stand the other pieces of code that the guide quotes: what is printed there is proved here.
#![tactic(auto)]

mod bytes;
mod counters;
mod devices;
mod selling;
mod threads;

ghost use Rattle.std.specs.Prelude.{◌≡◌, ◌^◌, ◌<◌, [], ◌∷◌, length, map, All, IfOk};
ghost use Rattle.at_object.specs.Closings.{AreAccountedFor, IsAccountedFor};
ghost use Rattle.at_object.specs.Passes.{IsNewPass};

pub use crate::bytes::calls_in;
pub use crate::counters::{Cost, read_counted};
pub use crate::devices::copy_file;
pub use crate::selling::{sell, settle};
pub use crate::threads::{job_of, make_all};
use at_journal::journal;
use at_ledger::{Book, BookBuilder, Call, Line, Reply, State, Targets};
use at_log::Receipt;
use at_object::{CloseRefused, Closed, Ledger, Pass};
use std::alloc::{AllocError, Global};
use std::io;

/// Process 0 owns account 0, process 1 owns account 1, both share account 2, and account 3 can only be paid into. Ten payments of
/// each process from its own account may succeed, and each may ask for ten from account 2.
fn book_of_four(alloc: Global) -> anyhow::Result<Book> {
    let mut builder = BookBuilder::new(alloc, 2, 10, 10)?;
    builder.add(100, &[0])?;
    builder.add(50, &[1])?;
    builder.add(40, &[0, 1])?;
    builder.add(0, &[])?;
    Ok(builder.finish()?)
}

/// Three calls of each process, and what they answered. Threads could make them: the ledger is shared, and each pass is one caller's.
fn deal(ledger: &Ledger, zero: &mut Pass, one: &mut Pass) -> ([Receipt; 3], [Receipt; 3])
    requires four { length ledger.now.book.accounts ≡ 4 }
    requires zero { IsNewPass ledger.now 0 zero.old }
    requires one { IsNewPass ledger.now 1 one.old }
    ensures zero { IsAccountedFor ledger.now 0 zero.new result.0 }
    ensures one { IsAccountedFor ledger.now 1 one.new result.1 }
{
    let paid = ledger.transfer(zero, 0, 1, 30);
    let agreed = ledger.transfer(one, 2, 3, 25);
    let short = ledger.transfer(zero, 2, 3, 25);
    let note = ledger.note(zero);
    ledger.learn(one, note);
    let rest = ledger.read(one, 2);
    let mut targets = Targets::one(0, 10);
    targets.push(3, 5);
    let paid_out = ledger.pay(one, 1, targets);
    let paid_in = ledger.read(zero, 3);
    ([paid, short, paid_in], [agreed, rest, paid_out])
}

/// Makes the calls on a new ledger of the book, and closes it with all passes and receipts.
#[tactic(auto, using(crate::proofs::Accounts::are_accounted_for_two))]
fn closed_after(alloc: Global, book: &Book) -> Result<Closed, AllocError>
    requires four { length book.now.accounts ≡ 4 }
    requires two { book.now.processes ≡ 2 }
    ensures { IfOk result (λ c. All (λ receipts. length receipts < 2 ^ 32) c.closing.receipts) }
{
    let (ledger, mut passes) = Ledger::new(alloc, book)?;
    let mut one = passes.pop().unwrap();
    let mut zero = passes.pop().unwrap();
    let (first, second) = deal(&ledger, &mut zero, &mut one);
    let receipts = listed(alloc, first, second)?;
    let passes = Vec::from_array(alloc, [zero, one])?;
    close_twice(alloc, ledger, passes, receipts)
}

/// Closes the ledger. Where there is no memory for that it is tried once more: a refused closing hands everything back.
fn close_twice(
    alloc: Global,
    ledger: Ledger,
    passes: Vec<Pass>,
    receipts: Vec<Vec<Receipt>>,
) -> Result<Closed, AllocError>
    requires { AreAccountedFor ledger passes.items (map (λ list. list.items) receipts.items) }
    ensures { IfOk result (λ c. c.closing.receipts ≡ map (λ list. list.items) receipts.items) }
{
    match ledger.close(alloc, passes, receipts) {
        Ok(closed) => Ok(closed),
        Err(refused) => close_again(alloc, refused),
    }
}

/// Closes a ledger whose closing was refused, with what was handed back.
fn close_again(alloc: Global, refused: CloseRefused) -> Result<Closed, AllocError>
    requires { AreAccountedFor refused.ledger refused.passes.items (map (λ list. list.items) refused.receipts.items) }
    ensures { IfOk result (λ c. c.closing.receipts
        ≡ map (λ list. list.items) refused.receipts.items) }
{
    match refused
        .ledger
        .close(alloc, refused.passes, refused.receipts)
    {
        Ok(closed) => Ok(closed),
        Err(_refused) => Err(AllocError),
    }
}

/// The receipts of each process, in process order.
fn listed(
    alloc: Global,
    first: [Receipt; 3],
    second: [Receipt; 3],
) -> Result<Vec<Vec<Receipt>>, AllocError>
    ensures { IfOk result (λ lists. map (λ list. list.items) lists.items ≡ first ∷ second ∷ []) }
{
    let first = Vec::from_array(alloc, first)?;
    let second = Vec::from_array(alloc, second)?;
    Ok(Vec::from_array(alloc, [first, second])?)
}

/// Prints a call.
fn print_call(rt: &impl Print, call: &Call) -> io::Result<()> {
    match call {
        Call::Transfer { from, to, amount } => print!(rt; "transfer {from} {to} {amount}"),
        Call::Read { account } => print!(rt; "read {account}"),
        Call::Pay { from, targets } => {
            print!(rt; "pay {from}")?;
            for i in 0..targets.len() {
                print!(rt; " {} {}", targets.to(i), targets.amount(i))?;
            }
            Ok(())
        }
    }
}

/// Prints a line of the journal: the process, the number of its call, the call and the reply.
fn print_line(rt: &impl Print, line: &Line) -> io::Result<()> {
    print!(rt; "{} {} ", line.process, line.number)?;
    print_call(rt, &line.call)?;
    match line.reply {
        Reply::Done => println!(rt; " done"),
        Reply::Short => println!(rt; " short"),
        Reply::NotOwner => println!(rt; " not-owner"),
        Reply::Full => println!(rt; " full"),
        Reply::Balance(balance) => println!(rt; " {balance}"),
    }
}

/// Prints the journal of the closed ledger, and the total of its book. All memory is taken first, so without it nothing is printed.
fn print_journal(rt: &impl Print, alloc: Global, closed: &Closed) -> anyhow::Result<()>
    requires few { All (λ receipts. length receipts < 2 ^ 32) closed.now.closing.receipts }
{
    let total = State::new(alloc, closed.book())?.total();
    for line in &journal(alloc, closed.book(), closed.closing())? {
        print_line(rt, line)?;
    }
    println!(rt; "total {total}")?;
    Ok(())
}

fn main(rt: HostRuntime) -> anyhow::Result<()> {
    let alloc = rt.alloc();
    let book = book_of_four(alloc)?;
    if book.accounts() != 4 || book.processes() != 2 {
        return Ok(());
    }
    let closed = closed_after(alloc, &book)?;
    print_journal(&rt, alloc, &closed)
}
