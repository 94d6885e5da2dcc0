//! What is heard of the replies of each call at the stages that it is made at, and of the balances there.

ghost use Rattle.std.specs.Prelude.{◌≡◌, ℕ, ◌<◌, ◌++◌, List, All, IfOk, [], Some, None, length, slice_index_or};
ghost use Rattle.at_orders.specs.Prelude.{contents_of};
ghost use Rattle.at_orders.specs.Ordered.{AreSpans, range_in};
ghost use Rattle.at_orders.specs.declared.stage.Stage.{Stage};
ghost use Rattle.at_orders.specs.Walk.{AreAllHeard, AreHeard, IsSeen};

use crate::ground::Ground;
use crate::replies::{Range, Replies};
use crate::stage::Stage;
use std::alloc::{AllocError, Global};

/// No reply to any call of any file.
pub(crate) fn silent(alloc: Global, ground: &Ground) -> Result<Vec<Vec<Replies>>, AllocError>
    ensures { IfOk result (λ answers. AreAllHeard ground.now [] (contents_of answers.items)
        (length ground.now.files)) }
{
    let mut answers = Vec::new(alloc);
    for process in 0..ground.book().processes() {
        let file = ground.file(process);
        answers.push(vec![in alloc; Replies::none(); file.len()]?)?;
    }
    Ok(answers)
}

/// Hears the replies that each call of the process gets at these stages too.
fn hear(ground: &Ground, stages: &[Stage], process: u32, replies: &mut [Replies])
    requires process_in { process < ground.now.book.processes }
    requires stages { All (IsSeen ground.now) stages.now }
    requires replies { length replies.old
        ≡ length (slice_index_or ground.now.files process []) }
    ensures heard { (past : List Stage)
        → AreHeard ground.now (slice_index_or ground.now.files process []) past process replies.old
        → AreHeard ground.now (slice_index_or ground.now.files process []) (past ++ stages.now)
        process replies.new }
    ensures len { length replies.new ≡ length replies.old }
{
    let file = ground.file(process);
    for stage in stages {
        let made = stage.made(process);
        let i = made as usize;
        if i < file.len() {
            replies[i] = replies[i].with(stage.reply(ground, process, &file[i]));
        }
    }
}

/// Hears the replies that each call of each file gets at these stages too.
pub(crate) fn hear_all(ground: &Ground, stages: &[Stage], answers: &mut Vec<Vec<Replies>>)
    requires stages { All (IsSeen ground.now) stages.now }
    requires answers { (past : List Stage) × AreAllHeard ground.now past
        (contents_of answers.old.items) (length ground.now.files) }
    ensures heard { (past : List Stage)
        → AreAllHeard ground.now past (contents_of answers.old.items) (length ground.now.files)
        → AreAllHeard ground.now (past ++ stages.now) (contents_of answers.new.items)
        (length ground.now.files) }
{
    for process in 0..ground.book().processes() {
        hear(
            ground,
            stages,
            process,
            answers[process as usize].as_mut_slice(),
        );
    }
}

/// What each account with a place opens with.
pub(crate) fn opening_spans(alloc: Global, ground: &Ground) -> Result<Vec<Range>, AllocError>
    ensures { IfOk result (λ spans. AreSpans ground.now [] spans.items) }
{
    let mut spans = Vec::new(alloc);
    for account in ground.named() {
        let opening = ground.book().opening(*account);
        spans.push(Range {
            least: opening,
            greatest: opening,
        })?;
    }
    Ok(spans)
}

/// The ranges, and in them the balances that are kept at these stages.
pub(crate) fn widen_all(ground: &Ground, stages: &[Stage], spans: &mut [Range])
    requires stages { All (IsSeen ground.now) stages.now }
    requires spans { length spans.old ≡ length ground.now.named }
    ensures len { length spans.new ≡ length spans.old }
    ensures widened { (past : List Stage) → AreSpans ground.now past spans.old
        → AreSpans ground.now (past ++ stages.now) spans.new }
{
    let _known = ground.book();
    for stage in stages {
        stage.widen(spans);
    }
}

/// The range of each account of the book: of one with a place what is known of it, and of another its opening.
pub(crate) fn spans_of_all(
    alloc: Global,
    ground: &Ground,
    spans: &[Range],
) -> Result<Vec<Range>, AllocError>
    requires { length spans.now ≡ length ground.now.named }
    ensures accounts { IfOk result (λ all. length all.items ≡ length ground.now.book.accounts) }
    ensures spans { IfOk result (λ all. (account place : ℕ) (d : Range)
        → slice_index_or ground.now.places account None ≡ Some place
        → range_in all.items account ≡ slice_index_or spans.now place d) }
{
    let book = ground.book();
    let mut all = Vec::new(alloc);
    for account in 0..book.accounts() {
        let opening = book.opening(account);
        all.push(match ground.find(account) {
            Some(place) => spans[place],
            None => Range {
                least: opening,
                greatest: opening,
            },
        })?;
    }
    Ok(all)
}
