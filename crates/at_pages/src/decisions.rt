//! Which turns decide a round, and for whom.

ghost use Rattle.std.specs.Prelude.{◌≡◌, ◌<◌, ◌++◌, ◌∷◌, [], List, IfOk, IfSome, OnOk, length, map, slice_get};
ghost use Rattle.at_pages.specs.Prelude.{range_with_len, account_of, TurnMade};
ghost use Rattle.at_pages.specs.Arrows.{asker_loaded, cell_exchanged, decides_at, is_first_exchange, unless_own};
ghost use Rattle.at_pages.specs.Deciding.{AreExchanged};

use at_board::{BoardStep, BoardWord};
use at_ledger::Book;
use at_stepper::TurnMade;
use std::alloc::{AllocError, Global};
use std::collections::HashSet;

/// The cell of a round of an account.
#[derive(Clone, Copy, PartialEq, Eq, Hash)]
pub(crate) struct CellNumbers {
    pub(crate) account: u32,
    pub(crate) round: u32,
}

/// The cell that the step exchanges, if it does.
fn cell_exchanged(step: &Option<BoardStep>) -> Option<CellNumbers>
    ensures { result ≡ cell_exchanged step.now }
{
    match step {
        Some(BoardStep::Exchange(BoardWord::Cell { account, round })) => Some(CellNumbers {
            account: *account,
            round: *round,
        }),
        _ => None,
    }
}

/// Whether the turn decides, after the turns whose cells these are. Its own is added.
fn decides(cells: &mut HashSet<CellNumbers>, made: &TurnMade) -> Result<bool, AllocError>
    ensures decides { IfOk result (λ decides. (turns : List TurnMade) → AreExchanged cells.old turns
        → decides ≡ is_first_exchange turns (cell_exchanged made.now.step)) }
    ensures cells { OnOk result ((turns : List TurnMade) → AreExchanged cells.old turns
        → AreExchanged cells.new (turns ++ made.now ∷ [])) }
{
    let Some(cell) = cell_exchanged(&made.step) else {
        return Ok(false);
    };
    match cells.insert(cell) {
        Ok(fresh) => Ok(fresh),
        Err(_) => Err(AllocError),
    }
}

/// Of each turn, whether it decides a round.
pub(crate) fn all_decisions(alloc: Global, turns: &[TurnMade]) -> Result<Vec<bool>, AllocError>
    ensures { IfOk result (λ decided. decided.items
        ≡ map (decides_at turns.now) (range_with_len 0 (length turns.now))) }
{
    let mut cells = HashSet::new(alloc);
    let mut decided = Vec::new(alloc);
    for i in 0..turns.len() {
        let decides = decides(&mut cells, &turns[i])?;
        decided.push(decides)?;
    }
    Ok(decided)
}

/// The owner of the account whose slot this is, if there is one.
fn owner_at(book: &Book, account: u32, slot: u32) -> Option<u32>
    ensures owner { result ≡ slice_get (account_of book.now account).owners slot }
    ensures known { IfSome result (λ owner. owner < book.now.processes) }
{
    if account < book.accounts() && slot < book.owner_count(account) {
        Some(book.owner(account, slot))
    } else {
        None
    }
}

/// Whose request the step loads a word of, if it does.
fn asker_loaded(book: &Book, step: &Option<BoardStep>) -> Option<u32>
    ensures asker { result ≡ asker_loaded book.now step.now }
    ensures known { IfSome result (λ owner. owner < book.now.processes) }
{
    match step {
        Some(BoardStep::Load(BoardWord::Request { account, slot, .. })) => {
            owner_at(book, *account, *slot)
        }
        _ => None,
    }
}

/// The owner of the request that the step loads a word of, if it is another one than the process.
pub(crate) fn other_asker(book: &Book, step: &Option<BoardStep>, process: u32) -> Option<u32>
    ensures asker { result ≡ unless_own process (asker_loaded book.now step.now) }
    ensures known { IfSome result (λ owner. owner < book.now.processes) }
{
    let asker = asker_loaded(book, step)?;
    if asker == process { None } else { Some(asker) }
}
