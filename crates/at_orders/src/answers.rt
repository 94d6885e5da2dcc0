//! The replies of each call of each file.

ghost use Rattle.std.specs.Prelude.{◌≡◌, ◌++◌, ◌∷◌, [], All, Err, IfOk, OnOk, length};
ghost use Rattle.at_orders.specs.Prelude.{IsPlayable, contents_of};
ghost use Rattle.at_orders.specs.Covered.{OpeningsCover};
ghost use Rattle.at_orders.specs.Ordered.{AreOrdered};
ghost use Rattle.at_orders.specs.Orders.{AreAnswers};
ghost use Rattle.at_orders.specs.Parts.{AreParts, HasBigPart};
ghost use Rattle.at_orders.specs.Stages.{HasMoreStages};

use crate::error::OrdersError;
use crate::part::Part;
use crate::parts::parts_of;
use crate::replies::Replies;
use crate::walk::{STAGES_MAX, walk};
use crate::whole::whole;
use at_ledger::{Book, Call};
use std::alloc::{AllocError, Global};

fn push(done: &mut Vec<Part>, walked: Part) -> Result<(), AllocError>
    ensures { OnOk result (done.new.items ≡ done.old.items ++ walked ∷ []) }
{
    done.push(walked)?;
    Ok(())
}

/// What the calls of each part do by themselves.
fn walk_each(
    alloc: Global,
    book: &Book,
    files: &[Vec<Call>],
    parts: &[u32],
) -> Result<Vec<Part>, OrdersError>
    requires processes { length files.now ≡ book.now.processes }
    requires files { All (IsPlayable (length book.now.accounts)) (contents_of files.now) }
    requires parts { AreParts book.now (contents_of files.now) parts.now }
    ensures ordered { IfOk result
        (λ done. AreOrdered book.now (contents_of files.now) parts.now done.items (length files.now)) }
    ensures many { result ≡ Err OrdersError.TooManyOrders
        → HasBigPart book.now (contents_of files.now) STAGES_MAX }
{
    let mut done = Vec::new(alloc);
    for part in 0..book.processes() {
        let walked = walk(alloc, book, files, parts, part)?;
        push(&mut done, walked)?;
    }
    Ok(done)
}

/// For each call of the files, every reply that some order of all their calls gives it. There is a file for each process.
/// Two processes are of one part where both make a payment, as an owner of its source, from or to one account that doesn't open with
/// all that the files ask of it. The work grows with the stages that the orders of each part go through, of which there may be
/// `STAGES_MAX`, and with the calls times the processes. The memory grows with the stages of one part, by some ten words for each, and
/// with the balances at the stages of two levels, those after so many calls in all and those after one more; where these take more than
/// 12 million words for a level they aren't held, but made again from those of a level before.
pub fn orders(
    alloc: Global,
    book: &Book,
    files: &[Vec<Call>],
) -> Result<Vec<Vec<Replies>>, OrdersError>
    requires processes { length files.now ≡ book.now.processes }
    requires files { All (IsPlayable (length book.now.accounts)) (contents_of files.now) }
    ensures answers { IfOk result
        (λ answers. AreAnswers book.now (contents_of files.now) (contents_of answers.items)) }
    ensures many { result ≡ Err OrdersError.TooManyOrders
        → HasMoreStages book.now (contents_of files.now) STAGES_MAX }
    ensures part { result ≡ Err OrdersError.TooManyOrders
        → HasBigPart book.now (contents_of files.now) STAGES_MAX }
    ensures covered { OpeningsCover book.now (contents_of files.now)
        → result ≡ Err OrdersError.TooManyOrders → ⊥ }
{
    let parts = parts_of(alloc, book, files)?;
    let done = walk_each(alloc, book, files, parts.as_slice())?;
    Ok(whole(alloc, book, files, parts.as_slice(), done.as_slice())?)
}
