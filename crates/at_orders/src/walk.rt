//! The walk over all stages, level by level: a level has the stages at which so many calls were made in all.

ghost use Rattle.std.specs.Prelude.{◌≡◌, ◌<◌, ◌+◌, ℕ, All, Err, IfOk, List, OnOk, length, slice_index, slice_index_or};
ghost use Rattle.at_orders.specs.Prelude.{IsPlayable, contents_of};
ghost use Rattle.at_orders.specs.declared.stage.Stage.{Stage};
ghost use Rattle.at_orders.specs.Ordered.{HoldsAt, IsOrdered, IsSpan};
ghost use Rattle.at_orders.specs.Orders.{AreAnswers};
ghost use Rattle.at_orders.specs.Parts.{files_of_part};
ghost use Rattle.at_orders.specs.declared.replies.Range.{Range};
ghost use Rattle.at_orders.specs.Stages.{HasMoreStages};
ghost use Rattle.at_orders.specs.Trail.{IsAt, IsTrail, IsWalked, IsWalkedOn, IsWalking, Looks};
ghost use Rattle.at_orders.specs.Walk.{IsSeen};

use crate::counts::are_too_many;
use crate::error::OrdersError;
use crate::ground::Ground;
use crate::heard::{hear_all, opening_spans, silent, spans_of_all, widen_all};
use crate::part::Part;
use crate::stage::Stage;
use crate::trail::Trail;
use at_ledger::{Book, Call};
use std::alloc::{AllocError, Global};
use std::slice::from_ref;

/// The most stages that are walked.
pub const STAGES_MAX: usize = 1_048_576;

/// Sees the stage after the next call of the process, if it has one.
fn turn(
    ground: &Ground,
    trail: &mut Trail,
    at: usize,
    process: u32,
    stage: &Stage,
    next: &mut Stage,
    other: &mut Stage,
) -> Result<(), AllocError>
    requires process_in { process < ground.now.book.processes }
    requires seen { IsSeen ground.now stage.now }
    requires trail { (stages : List Stage) × IsTrail ground.now trail.old stages }
    ensures { OnOk result ((stages : List Stage) → IsTrail ground.now trail.old stages
        → IsAt stages at stage.now
        → Looks ground.now trail.old trail.new stages stage.now (λ p. p ≡ process)) }
{
    let _known = ground.book();
    next.set(stage)?;
    if next.go_on(ground, process) {
        trail.add(ground, at, process, next, other)?;
    }
    Ok(())
}

/// Sees the stages after the next calls of all processes.
fn look(
    ground: &Ground,
    trail: &mut Trail,
    at: usize,
    stage: &Stage,
    next: &mut Stage,
    other: &mut Stage,
) -> Result<(), AllocError>
    requires seen { IsSeen ground.now stage.now }
    requires trail { (stages : List Stage) × IsTrail ground.now trail.old stages × IsAt stages at stage.now }
    ensures { OnOk result ((stages : List Stage) → IsTrail ground.now trail.old stages
        → IsAt stages at stage.now
        → Looks ground.now trail.old trail.new stages stage.now (λ p. p < ground.now.book.processes)) }
{
    for process in 0..ground.book().processes() {
        turn(ground, trail, at, process, stage, next, other)?;
    }
    Ok(())
}

/// Hears the replies that the calls get at the stage with this number, and the balances there, and sees the stages after their next calls.
/// Three stages are written over.
fn visit(
    ground: &Ground,
    trail: &mut Trail,
    at: usize,
    stage: &mut Stage,
    next: &mut Stage,
    other: &mut Stage,
    done: &mut Part,
) -> Result<(), AllocError>
    requires walking { (most : ℕ) × IsWalking ground.now trail.old
        (contents_of done.old.replies.items) done.old.spans.items most at }
    requires within { at < trail.old.begun }
    ensures walking { OnOk result ((most : ℕ) → IsWalking ground.now trail.old
        (contents_of done.old.replies.items) done.old.spans.items most at
        → IsWalking ground.now trail.new (contents_of done.new.replies.items) done.new.spans.items
        most (at + 1)) }
    ensures begun { OnOk result (trail.new.begun ≡ trail.old.begun) }
{
    trail.recall(ground, at, stage)?;
    hear_all(ground, from_ref(stage), &mut done.replies);
    widen_all(ground, from_ref(stage), done.spans.as_mut_slice());
    look(ground, trail, at, stage, next, other)
}

/// Hears the replies that the calls get at the stages of the level, and the balances there, and sees the stages of the next level, each
/// of them once, if they are not more than so many.
fn look_all(
    alloc: Global,
    ground: &Ground,
    most: usize,
    trail: &mut Trail,
    done: &mut Part,
) -> Result<(), OrdersError>
    requires walked { IsWalked ground.now trail.old (contents_of done.old.replies.items)
        done.old.spans.items most }
    ensures walked { OnOk result (IsWalkedOn ground.now trail.new
        (contents_of done.new.replies.items) done.new.spans.items most) }
    ensures many { result ≡ Err OrdersError.TooManyOrders
        → HasMoreStages ground.now.book ground.now.files STAGES_MAX }
{
    let mut stage = Stage::first(alloc, ground)?;
    let mut next = Stage::first(alloc, ground)?;
    let mut other = Stage::first(alloc, ground)?;
    for at in trail.looked()..trail.begun() {
        visit(ground, trail, at, &mut stage, &mut next, &mut other, done)?;
        if trail.grown() > most {
            return Err(OrdersError::TooManyOrders);
        }
    }
    Ok(())
}

/// The replies of each call of each file in all orders, and the balances of the accounts with a place.
fn walk_on(alloc: Global, ground: &Ground) -> Result<Part, OrdersError>
    ensures answers { IfOk result (λ done. AreAnswers ground.now.book ground.now.files
        (contents_of done.replies.items)) }
    ensures size { IfOk result (λ done. length done.spans.items ≡ length ground.now.named) }
    ensures spans { IfOk result (λ done. (place : ℕ) (d : Range) → place < length ground.now.named
        → IsSpan (HoldsAt ground.now.book ground.now.files (slice_index ground.now.named place))
        (slice_index_or done.spans.items place d)) }
    ensures many { result ≡ Err OrdersError.TooManyOrders
        → HasMoreStages ground.now.book ground.now.files STAGES_MAX }
{
    let _known = ground.book();
    if are_too_many(ground) {
        return Err(OrdersError::TooManyOrders);
    }
    let replies = silent(alloc, ground)?;
    let spans = opening_spans(alloc, ground)?;
    let mut done = Part { replies, spans };
    let mut trail = Trail::new(alloc, ground)?;
    let mut left = STAGES_MAX - 1;
    while trail.looked() < trail.begun() {
        look_all(alloc, ground, left, &mut trail, &mut done)?;
        left -= trail.grown();
        trail.turn_over(alloc, ground)?;
    }
    Ok(done)
}

/// What the calls of the part do by themselves.
pub(crate) fn walk(
    alloc: Global,
    book: &Book,
    files: &[Vec<Call>],
    parts: &[u32],
    part: u32,
) -> Result<Part, OrdersError>
    requires processes { length files.now ≡ book.now.processes }
    requires files { All (IsPlayable (length book.now.accounts)) (contents_of files.now) }
    requires parts { length parts.now ≡ length files.now }
    ensures ordered { IfOk result
        (λ done. IsOrdered book.now (contents_of files.now) parts.now part done) }
    ensures many { result ≡ Err OrdersError.TooManyOrders
        → HasMoreStages book.now (files_of_part (contents_of files.now) parts.now part) STAGES_MAX }
{
    let ground = Ground::new(alloc, book, files, parts, part)?;
    let _known = ground.book();
    let Part { replies, spans } = walk_on(alloc, &ground)?;
    let all = spans_of_all(alloc, &ground, spans.as_slice())?;
    drop(spans);
    Ok(Part {
        replies,
        spans: all,
    })
}
