//! The text of `trace`.

ghost use Rattle.std.specs.Prelude.{◌≡◌, ◌≤◌, ◌<◌, ◌+◌, ◌++◌, ◌^◌, [], ◌∷◌, All, IfOk, OnOk, if◌then◌else◌, is_some, length};
ghost use Rattle.at_tables.specs.Prelude.{AreNamesOf, comma_led, record_text, records_text};
ghost use Rattle.at_tables.specs.TraceText.{reply_field, step_address, step_word, trace_head, trace_records, trace_text, turn_fields_at};

use crate::addresses::push_address;
use at_board::BoardStep;
use at_files::Names;
use at_ledger::{Book, Reply};
use at_report::{push_field, push_number_field, push_reply_field};
use at_stepper::TurnMade;
use std::alloc::{AllocError, Global};

/// Adds the names of the fields.
fn push_head(out: &mut Vec<u8>) -> Result<(), AllocError>
    ensures { OnOk result (out.new.items ≡ out.old.items ++ record_text trace_head) }
{
    out.extend_from_slice(b"turn,process,line,step,word,reply\n")
}

/// What a turn does to a word.
pub fn step_word(step: &Option<BoardStep>) -> &'static [u8]
    ensures { result.now ≡ step_word step.now }
{
    match step {
        None => b"none",
        Some(BoardStep::Load(_)) => b"load",
        Some(BoardStep::Store(_)) => b"store",
        Some(BoardStep::Exchange(_)) => b"exchange",
    }
}

/// Adds the address of the word, and nothing where the turn makes no step.
pub fn push_step_address(
    out: &mut Vec<u8>,
    book: &Book,
    names: &Names,
    step: &Option<BoardStep>,
) -> Result<(), AllocError>
    requires { AreNamesOf book.now names.now }
    ensures { OnOk result (out.new.items ≡ out.old.items ++ step_address book.now names.now step.now) }
{
    match step {
        None => Ok(()),
        Some(BoardStep::Load(word)) => push_address(out, book, names, word),
        Some(BoardStep::Store(word)) => push_address(out, book, names, word),
        Some(BoardStep::Exchange(word)) => push_address(out, book, names, word),
    }
}

/// Adds the step, as the field of what it does and that of its word.
fn push_step(
    out: &mut Vec<u8>,
    book: &Book,
    names: &Names,
    step: &Option<BoardStep>,
) -> Result<(), AllocError>
    requires { AreNamesOf book.now names.now }
    ensures { OnOk result (out.new.items ≡ out.old.items
        ++ comma_led (step_word step.now ∷ step_address book.now names.now step.now ∷ [])) }
{
    push_field(out, step_word(step))?;
    out.push(b',')?;
    push_step_address(out, book, names, step)
}

/// Adds the reply, and an empty field where no call is answered.
fn push_reply(out: &mut Vec<u8>, reply: Option<Reply>) -> Result<(), AllocError>
    ensures { OnOk result (out.new.items ≡ out.old.items ++ comma_led (reply_field reply ∷ [])) }
{
    match reply {
        None => {
            out.push(b',')?;
            Ok(())
        }
        Some(reply) => push_reply_field(out, reply),
    }
}

/// Adds the record of a turn, with its number and that of the call among those of its process.
fn push_turn(
    out: &mut Vec<u8>,
    book: &Book,
    names: &Names,
    turn: u64,
    line: u64,
    made: &TurnMade,
) -> Result<(), AllocError>
    requires names { AreNamesOf book.now names.now }
    requires process { made.now.process < book.now.processes }
    ensures { OnOk result (out.new.items ≡ out.old.items
        ++ record_text (turn_fields_at book.now names.now turn line made.now)) }
{
    at_base::push_number(out, turn)?;
    push_field(out, names.process(made.process))?;
    push_number_field(out, line)?;
    push_step(out, book, names, &made.step)?;
    push_reply(out, made.reply)?;
    out.push(b'\n')?;
    Ok(())
}

/// How many calls a turn answers.
fn answers(made: &TurnMade) -> u64
    ensures { result ≡ (if is_some made.now.reply then 1 else 0) }
{
    match made.reply {
        None => 0,
        Some(_) => 1,
    }
}

/// Adds the records of the turns. Of each process it counts the calls that are answered.
fn push_turns(
    out: &mut Vec<u8>,
    book: &Book,
    names: &Names,
    turns: &[TurnMade],
) -> Result<(), AllocError>
    requires names { AreNamesOf book.now names.now }
    requires processes { All (λ t. t.process < book.now.processes) turns.now }
    ensures { OnOk result (out.new.items ≡ out.old.items
        ++ records_text (trace_records book.now names.now turns.now)) }
{
    book.known();
    let mut answered = [0u64; 16];
    for i in 0..turns.len() {
        let made = &turns[i];
        let process = made.process as usize;
        push_turn(out, book, names, i as u64 + 1, answered[process] + 1, made)?;
        answered[process] += answers(made);
    }
    Ok(())
}

/// The text of `trace`: a CSV record for each turn, in order. `line` is the number of the turn's call among those of its process. The work
/// grows with the turns.
pub fn trace_text(
    alloc: Global,
    book: &Book,
    names: &Names,
    turns: &[TurnMade],
) -> Result<Vec<u8>, AllocError>
    requires names { AreNamesOf book.now names.now }
    requires processes { All (λ t. t.process < book.now.processes) turns.now }
    ensures { IfOk result (λ text. text.items ≡ trace_text book.now names.now turns.now) }
{
    let mut text = Vec::new(alloc);
    push_head(&mut text)?;
    push_turns(&mut text, book, names, turns)?;
    Ok(text)
}
