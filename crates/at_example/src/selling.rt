//! The sequential ledger in a program.

ghost use Rattle.std.specs.Prelude.{◌≡◌, ◌<◌, ◌⊎◌, IfOk, IfSome, None, length, sum};
ghost use Rattle.at_ledger.specs.Call.{IsCallOn};
ghost use Rattle.at_ledger.specs.State.{opening_state, step};

use at_ledger::{Book, Call, Reply, State};
use std::alloc::{AllocError, Global};

/// What is sold on a new ledger: the reply of one transfer, where the book has its process and accounts.
pub fn sell(alloc: Global, book: &Book, amount: u64) -> Result<Option<Reply>, AllocError>
    ensures sold { IfOk result (λ sold. IfSome sold
        (λ reply. reply ≡ (step (opening_state book.now) 0 (Call.Transfer 0 1 amount)).reply)) }
    ensures unsold { IfOk result (λ sold. sold ≡ None
        → (length book.now.accounts < 2) ⊎ (book.now.processes < 1)) }
{
    let mut state = State::new(alloc, book)?;
    if book.accounts() < 2 || book.processes() < 1 {
        return Ok(None);
    }
    let call = Call::Transfer {
        from: 0,
        to: 1,
        amount,
    };
    Ok(Some(state.step(0, &call)))
}

/// Makes a call. The sum of the balances stays what it was.
pub fn settle(state: &mut State, process: u32, call: &Call) -> Reply
    requires process_in { process < state.old.book.processes }
    requires call_in { IsCallOn (length state.old.book.accounts) call.now }
    ensures reply { result ≡ (step state.old process call.now).reply }
    ensures total { sum state.new.balances ≡ sum state.old.balances }
{
    let _before = state.total();
    let reply = state.step(process, call);
    let _after = state.total();
    reply
}
