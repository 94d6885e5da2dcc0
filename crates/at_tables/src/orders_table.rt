//! The text of `orders`.

ghost use Rattle.std.specs.Prelude.{◌≡◌, ◌<◌, ◌++◌, ◌∷◌, [], Bool, All, IfOk, OnOk, ◌||◌, decimal, length, if◌then◌else◌};
ghost use Rattle.at_tables.specs.Prelude.{join_with_byte, IsPlayable, contents_of, AreNamesOf, IsCallOn, AreAnswers, comma_led, record_text, records_text};
ghost use Rattle.at_tables.specs.OrdersText.{orders_head, orders_text, payment_words, process_replies, range_words, replies_fields, replies_records, replies_words, word_if};
ghost use Rattle.at_tables.specs.Parted.{parted};

use crate::push_call_fields;
use at_base::push_number;
use at_files::Names;
use at_ledger::{Book, Call};
use at_orders::{Range, Replies};
use at_report::push_number_field;
use std::alloc::{AllocError, Global};

/// Adds the names of the fields.
fn push_head(out: &mut Vec<u8>) -> Result<(), AllocError>
    ensures { OnOk result (out.new.items ≡ out.old.items ++ record_text orders_head) }
{
    out.extend_from_slice(b"process,line,call,account,kind,replies\n")
}

/// Adds the word of a reply if it comes, after a space where one came before. It answers whether any came so far.
fn push_if(out: &mut Vec<u8>, before: bool, comes: bool, word: &[u8]) -> Result<bool, AllocError>
    ensures added { OnOk result
        (out.new.items ≡ out.old.items ++ parted before (word_if comes word.now)) }
    ensures any { IfOk result (λ any. any ≡ before || comes) }
{
    if !comes {
        return Ok(before);
    }
    if before {
        out.push(b' ')?;
    }
    out.extend_from_slice(word)?;
    Ok(true)
}

/// Adds those of the four replies that a payment has.
fn push_payment(out: &mut Vec<u8>, replies: &Replies) -> Result<(), AllocError>
    ensures { OnOk result
        (out.new.items ≡ out.old.items ++ join_with_byte 32 (payment_words replies.now)) }
{
    let any = push_if(out, false, replies.done, b"done")?;
    let any = push_if(out, any, replies.short, b"short")?;
    let any = push_if(out, any, replies.full, b"full")?;
    push_if(out, any, replies.not_owner, b"not-owner")?;
    Ok(())
}

/// Adds the least and the greatest balance, or the one that there is.
fn push_range(out: &mut Vec<u8>, range: Range) -> Result<(), AllocError>
    ensures { OnOk result (out.new.items ≡ out.old.items ++ join_with_byte 32 (range_words range)) }
{
    push_number(out, range.least)?;
    if range.least != range.greatest {
        out.push(b' ')?;
        push_number(out, range.greatest)?;
    }
    Ok(())
}

/// Adds the replies of a call.
fn push_replies(out: &mut Vec<u8>, call: &Call, replies: &Replies) -> Result<(), AllocError>
    ensures { OnOk result (out.new.items ≡ out.old.items
        ++ join_with_byte 32 (replies_words call.now replies.now)) }
{
    match (call, replies.balances) {
        (Call::Transfer { .. } | Call::Pay { .. }, _) => push_payment(out, replies),
        (Call::Read { .. }, Some(range)) => push_range(out, range),
        (Call::Read { .. }, None) => Ok(()),
    }
}

/// Adds the record of a call of the process, with its number.
fn push_record(
    out: &mut Vec<u8>,
    book: &Book,
    names: &Names,
    process: u32,
    number: u64,
    call: &Call,
    replies: &Replies,
) -> Result<(), AllocError>
    requires names { AreNamesOf book.now names.now }
    requires process { process < book.now.processes }
    requires call { IsCallOn (length book.now.accounts) call.now }
    ensures { OnOk result (out.new.items ≡ out.old.items
        ++ record_text (replies_fields book.now names.now process number call.now replies.now)) }
{
    out.extend_from_slice(names.process(process))?;
    push_number_field(out, number)?;
    push_call_fields(out, book, names, process, call)?;
    out.push(b',')?;
    push_replies(out, call, replies)?;
    out.push(b'\n')?;
    Ok(())
}

/// Adds the records of a process.
fn push_process(
    out: &mut Vec<u8>,
    book: &Book,
    names: &Names,
    process: u32,
    calls: &[Call],
    answers: &[Replies],
) -> Result<(), AllocError>
    requires names { AreNamesOf book.now names.now }
    requires process { process < book.now.processes }
    requires known { All (IsCallOn (length book.now.accounts)) calls.now }
    requires count { length answers.now ≡ length calls.now }
    ensures { OnOk result (out.new.items ≡ out.old.items
        ++ records_text (process_replies book.now names.now process calls.now answers.now)) }
{
    for i in 0..calls.len() {
        let call = &calls[i];
        let replies = &answers[i];
        push_record(out, book, names, process, i as u64 + 1, call, replies)?;
    }
    Ok(())
}

/// Adds the records of all processes.
fn push_processes(
    out: &mut Vec<u8>,
    book: &Book,
    names: &Names,
    files: &[Vec<Call>],
    answers: &[Vec<Replies>],
) -> Result<(), AllocError>
    requires names { AreNamesOf book.now names.now }
    requires processes { length files.now ≡ book.now.processes }
    requires files { All (IsPlayable (length book.now.accounts)) (contents_of files.now) }
    requires answers { AreAnswers book.now (contents_of files.now) (contents_of answers.now) }
    ensures { OnOk result (out.new.items ≡ out.old.items
        ++ records_text (replies_records book.now names.now (contents_of files.now)
        (contents_of answers.now) book.now.processes)) }
{
    for p in 0..book.processes() {
        let calls = files[p as usize].as_slice();
        let replies = answers[p as usize].as_slice();
        push_process(out, book, names, p, calls, replies)?;
    }
    Ok(())
}

/// The text of `orders`: a CSV record for each call of the files, by process and then in file order, with every reply that
/// some order of all calls gives it. The work grows with the calls.
pub fn orders_text(
    alloc: Global,
    book: &Book,
    names: &Names,
    files: &[Vec<Call>],
    answers: &[Vec<Replies>],
) -> Result<Vec<u8>, AllocError>
    requires names { AreNamesOf book.now names.now }
    requires processes { length files.now ≡ book.now.processes }
    requires files { All (IsPlayable (length book.now.accounts)) (contents_of files.now) }
    requires answers { AreAnswers book.now (contents_of files.now) (contents_of answers.now) }
    ensures { IfOk result (λ text. text.items
        ≡ orders_text book.now names.now (contents_of files.now) (contents_of answers.now)) }
{
    let mut text = Vec::new(alloc);
    push_head(&mut text)?;
    push_processes(&mut text, book, names, files, answers)?;
    Ok(text)
}
