//! The turns that each call took.

ghost use Rattle.std.specs.Prelude.{◌≡◌, ◌<◌, ◌+◌, ◌^◌, ◌++◌, All, IfOk, OnOk};
ghost use Rattle.at_pages.specs.Making.{IsFew, after_turn, ended, ended_by, is_answer, not_begun, with_turn};
ghost use Rattle.at_pages.specs.Spans.{all_spans, begins_record, is_exchange, spans_of};

use at_board::{BoardStep, BoardWord};
use at_ledger::Reply;
use at_stepper::TurnMade;
use std::alloc::{AllocError, Global};

/// A call by its process, its number from 0, its first turn and its last, its steps and exchanges, the records of others that it counted anew, and
/// its reply.
#[derive(Clone, Copy)]
pub(crate) struct Span {
    pub(crate) process: u32,
    pub(crate) number: usize,
    pub(crate) first: usize,
    pub(crate) last: usize,
    pub(crate) steps: usize,
    pub(crate) exchanges: usize,
    pub(crate) new_records: usize,
    pub(crate) reply: Option<Reply>,
}

/// The call of a process that is in the making: its number, its first turn if it has begun, and its steps, exchanges and records so far.
#[derive(Clone, Copy)]
struct Making {
    number: usize,
    first: Option<usize>,
    steps: usize,
    exchanges: usize,
    new_records: usize,
}

/// Whether the turn exchanges a word.
fn is_exchange(step: &Option<BoardStep>) -> bool
    ensures { result ≡ is_exchange step.now }
{
    match step {
        Some(BoardStep::Exchange(_)) => true,
        Some(BoardStep::Load(_) | BoardStep::Store(_)) | None => false,
    }
}

/// Whether the step of a process loads the first word of another's record.
fn begins_record(process: u32, step: &Option<BoardStep>) -> bool
    ensures { result ≡ begins_record process step.now }
{
    match step {
        Some(BoardStep::Load(BoardWord::Record { process: owner, .. })) if *owner == process => {
            false
        }
        Some(BoardStep::Load(BoardWord::Record { word, .. })) => *word == 0,
        _ => false,
    }
}

/// The call with one more turn.
fn with_turn(making: &Making, made: &TurnMade, turn: usize) -> Making
    requires few { IsFew making.now turn }
    requires small { turn + 1 < 2 ^ 64 }
    ensures made { result ≡ with_turn making.now made.now turn }
    ensures few { IsFew result (turn + 1) }
{
    let steps = usize::from(made.step.is_some());
    let exchanges = usize::from(is_exchange(&made.step));
    let new_records = usize::from(begins_record(made.process, &made.step));
    Making {
        number: making.number,
        first: Some(making.first.unwrap_or(turn)),
        steps: making.steps + steps,
        exchanges: making.exchanges + exchanges,
        new_records: making.new_records + new_records,
    }
}

/// The call of the process that its last turn ended.
fn ended(making: &Making, process: u32, last: usize, reply: Option<Reply>) -> Span
    ensures { result ≡ ended making.now process last reply }
{
    Span {
        process,
        number: making.number,
        first: making.first.unwrap_or(last),
        last,
        steps: making.steps,
        exchanges: making.exchanges,
        new_records: making.new_records,
        reply,
    }
}

/// The call after this many.
fn next_call(number: usize) -> Making
    ensures { result ≡ not_begun number }
{
    Making {
        number,
        first: None,
        steps: 0,
        exchanges: 0,
        new_records: 0,
    }
}

/// Whether the turn answers a call of the process.
fn is_answer(made: &TurnMade, process: u32) -> bool
    ensures { result ≡ is_answer process made.now }
{
    made.process == process && made.reply.is_some()
}

/// Adds the call of the process that the turn ends, if it does.
fn push_ended(
    out: &mut Vec<Span>,
    making: &Making,
    made: &TurnMade,
    process: u32,
    turn: usize,
) -> Result<(), AllocError>
    requires few { IsFew making.now turn }
    requires small { turn + 1 < 2 ^ 64 }
    ensures { OnOk result
        (out.new.items ≡ out.old.items ++ ended_by making.now made.now process turn) }
{
    if is_answer(made, process) {
        out.push(ended(&with_turn(making, made, turn), process, turn, made.reply))?;
    }
    Ok(())
}

/// What is known after the turn of the call that is in the making then.
fn after_turn(making: &Making, made: &TurnMade, process: u32, turn: usize) -> Making
    requires few { IsFew making.now turn }
    requires small { turn + 1 < 2 ^ 64 }
    ensures made { result ≡ after_turn making.now made.now process turn }
    ensures few { IsFew result (turn + 1) }
{
    if made.process != process {
        return *making;
    }
    if made.reply.is_some() {
        next_call(making.number + 1)
    } else {
        with_turn(making, made, turn)
    }
}

/// Adds the calls of a process.
fn push_spans(out: &mut Vec<Span>, turns: &[TurnMade], process: u32) -> Result<(), AllocError>
    ensures { OnOk result (out.new.items ≡ out.old.items ++ spans_of turns.now process) }
{
    let mut making = next_call(0);
    for i in 0..turns.len() {
        let made = &turns[i];
        push_ended(out, &making, made, process, i)?;
        making = after_turn(&making, made, process, i);
    }
    Ok(())
}

/// The calls of so many processes. The work grows with the turns times the processes.
pub(crate) fn all_spans(
    alloc: Global,
    turns: &[TurnMade],
    processes: u32,
) -> Result<Vec<Span>, AllocError>
    ensures spans { IfOk result (λ spans. spans.items ≡ all_spans turns.now processes) }
    ensures processes { IfOk result (λ spans. All (λ s. s.process < processes) spans.items) }
{
    let mut spans = Vec::new(alloc);
    for process in 0..processes {
        push_spans(&mut spans, turns, process)?;
    }
    Ok(spans)
}
