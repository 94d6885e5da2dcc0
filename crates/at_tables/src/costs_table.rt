//! The text of `costs`.

ghost use Rattle.std.specs.Prelude.{◌≡◌, ◌<◌, ◌+◌, ◌++◌, ℕ, [], ◌∷◌, All, IfOk, OnOk, decimal, length, slice_index_or};
ghost use Rattle.at_tables.specs.Prelude.{IsCallOn, AreNamesOf, receipts_of, contents_of, reply_word, comma_led, record_text, records_text};
ghost use Rattle.at_tables.specs.Bounds.{AreCostsWithin, most_exchanges, most_steps};
ghost use Rattle.at_tables.specs.CostsText.{HaveCosts, cost_fields, costs_head, costs_records, costs_text, process_costs};

use crate::bounds::{most_exchanges, most_steps};
use crate::push_call_fields;
use at_files::Names;
use at_ledger::Book;
use at_log::{Closing, Receipt};
use at_report::{push_number_field, push_reply_field};
use at_workers::CallCost;
use std::alloc::{AllocError, Global};

/// Adds the names of the fields.
fn push_head(out: &mut Vec<u8>) -> Result<(), AllocError>
    ensures { OnOk result (out.new.items ≡ out.old.items ++ record_text costs_head) }
{
    out.extend_from_slice(
        b"process,line,call,account,kind,reply,steps,exchanges,new,most_steps,most_exchanges\n",
    )
}

/// Adds a comma, and a number of any size.
pub(crate) fn push_large_field(out: &mut Vec<u8>, n: u128) -> Result<(), AllocError>
    ensures { OnOk result (out.new.items ≡ out.old.items ++ comma_led (decimal n ∷ [])) }
{
    out.push(b',')?;
    out.extend_from_slice(itoa::Buffer::new().format(n).as_bytes())
}

/// Adds the reply, what the call cost, and the most that it may cost.
fn push_cost(
    out: &mut Vec<u8>,
    book: &Book,
    receipt: &Receipt,
    cost: &CallCost,
) -> Result<(), AllocError>
    requires { IsCallOn (length book.now.accounts) receipt.now.call }
    ensures { OnOk result (out.new.items ≡ out.old.items
        ++ comma_led (reply_word receipt.now.reply ∷ decimal cost.now.steps
        ∷ decimal cost.now.exchanges ∷ decimal cost.now.new_records
        ∷ decimal (most_steps book.now receipt.now.call receipt.now.reply cost.now.new_records)
        ∷ decimal (most_exchanges book.now receipt.now.call receipt.now.reply) ∷ [])) }
{
    push_reply_field(out, receipt.reply)?;
    push_number_field(out, cost.steps())?;
    push_number_field(out, cost.exchanges())?;
    let new_records = cost.new_records();
    push_number_field(out, new_records)?;
    push_large_field(
        out,
        most_steps(book, &receipt.call, receipt.reply, new_records),
    )?;
    push_number_field(out, most_exchanges(book, &receipt.call, receipt.reply))
}

/// Adds the record of a call of the process, with its number.
fn push_record(
    out: &mut Vec<u8>,
    book: &Book,
    names: &Names,
    process: u32,
    number: u64,
    receipt: &Receipt,
    cost: &CallCost,
) -> Result<(), AllocError>
    requires names { AreNamesOf book.now names.now }
    requires process { process < book.now.processes }
    requires call { IsCallOn (length book.now.accounts) receipt.now.call }
    ensures { OnOk result (out.new.items ≡ out.old.items
        ++ record_text (cost_fields book.now names.now process number receipt.now cost.now)) }
{
    out.extend_from_slice(names.process(process))?;
    push_number_field(out, number)?;
    push_call_fields(out, book, names, process, &receipt.call)?;
    push_cost(out, book, receipt, cost)?;
    out.push(b'\n')?;
    Ok(())
}

/// Adds the records of a process.
fn push_process(
    out: &mut Vec<u8>,
    book: &Book,
    names: &Names,
    process: u32,
    receipts: &[Receipt],
    costs: &[CallCost],
) -> Result<(), AllocError>
    requires names { AreNamesOf book.now names.now }
    requires process { process < book.now.processes }
    requires known { All (λ r. IsCallOn (length book.now.accounts) r.call) receipts.now }
    requires count { length costs.now ≡ length receipts.now }
    ensures { OnOk result (out.new.items ≡ out.old.items
        ++ records_text (process_costs book.now names.now process receipts.now costs.now)) }
{
    for i in 0..receipts.len() {
        let receipt = &receipts[i];
        let cost = &costs[i];
        push_record(out, book, names, process, i as u64 + 1, receipt, cost)?;
    }
    Ok(())
}

/// Adds the records of all processes.
fn push_processes(
    out: &mut Vec<u8>,
    book: &Book,
    names: &Names,
    closing: &Closing,
    costs: &[Vec<CallCost>],
) -> Result<(), AllocError>
    requires names { AreNamesOf book.now names.now }
    requires costs { HaveCosts book.now closing.now.receipts (contents_of costs.now) }
    ensures { OnOk result (out.new.items ≡ out.old.items
        ++ records_text (costs_records book.now names.now closing.now.receipts (contents_of costs.now)
        book.now.processes)) }
{
    for p in 0..book.processes() {
        let list = costs[p as usize].as_slice();
        push_process(out, book, names, p, closing.receipts(p), list)?;
    }
    Ok(())
}

/// The text of `costs`: a CSV record for each call of the closing, by process and then in the order of its calls. The work grows with the
/// calls.
pub fn costs_text(
    alloc: Global,
    book: &Book,
    names: &Names,
    closing: &Closing,
    costs: &[Vec<CallCost>],
) -> Result<Vec<u8>, AllocError>
    requires names { AreNamesOf book.now names.now }
    requires costs { HaveCosts book.now closing.now.receipts (contents_of costs.now) }
    ensures text { IfOk result (λ text. text.items
        ≡ costs_text book.now names.now closing.now.receipts (contents_of costs.now)) }
    ensures within { IfOk result (λ text. (p : ℕ) → p < book.now.processes
        → AreCostsWithin book.now (receipts_of closing.now p) (slice_index_or (contents_of costs.now) p [])) }
{
    let mut text = Vec::new(alloc);
    push_head(&mut text)?;
    push_processes(&mut text, book, names, closing, costs)?;
    Ok(text)
}
