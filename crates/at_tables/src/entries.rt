//! The entry of a line.

ghost use Rattle.std.specs.Prelude.{◌≡◌, ◌<◌, ◌++◌, ◌∷◌, [], length, codes, OnOk, Some};
ghost use Rattle.at_tables.specs.Prelude.{AreTargetsOn, IsCallOn, IsLineOn};
ghost use Rattle.at_tables.specs.Entries.{CallOf, Comments, assertion, target_credits, entry_of, entry_with, balance_read, paid, posted};
ghost use Rattle.at_tables.specs.LedgerText.{entry_text, postings_text, title_text};

use crate::call_fields::call_word;
use crate::posting::{Amount, push_posting};
use at_files::Names;
use at_ledger::{Call, Line, Reply, Targets};
use at_report::{push_line, push_number, push_word};
use std::alloc::AllocError;

/// Adds what each target gets.
fn push_credits(out: &mut Vec<u8>, names: &Names, targets: &Targets) -> Result<(), AllocError>
    requires { AreTargetsOn (length names.now.accounts) targets.now }
    ensures { OnOk result
        (out.new.items ≡ out.old.items ++ postings_text names.now (target_credits targets.now)) }
{
    for i in 0..targets.len() {
        let amount = Amount::Plus(u128::from(targets.amount(i)));
        push_posting(out, names, targets.to(i), amount, None)?;
    }
    Ok(())
}

/// Adds the first line of a call's transaction.
fn push_title(out: &mut Vec<u8>, names: &Names, line: &Line) -> Result<(), AllocError>
    requires { line.now.process < length names.now.processes }
    ensures { OnOk result
        (out.new.items ≡ out.old.items ++ title_text names.now (CallOf line.now)) }
{
    out.extend_from_slice(b"1970-01-01")?;
    push_word(out, names.process(line.process))?;
    push_number(out, u64::from(line.number))?;
    push_word(out, call_word(&line.call))?;
    out.push(b'\n')?;
    Ok(())
}

/// Adds a line that moves nothing, as `run` prints it.
fn push_comment(out: &mut Vec<u8>, names: &Names, line: &Line) -> Result<(), AllocError>
    requires { IsLineOn (length names.now.processes) (length names.now.accounts) line.now }
    ensures { OnOk result
        (out.new.items ≡ out.old.items ++ entry_text names.now (Comments line.now)) }
{
    out.extend_from_slice(b"\n; ")?;
    push_line(out, names, line)?;
    Ok(())
}

/// Adds the transaction of a payment that was done.
fn push_done(
    out: &mut Vec<u8>,
    names: &Names,
    line: &Line,
    from: u32,
    targets: &Targets,
) -> Result<(), AllocError>
    requires process { line.now.process < length names.now.processes }
    requires source { from < length names.now.accounts }
    requires targets { AreTargetsOn (length names.now.accounts) targets.now }
    ensures { OnOk result (out.new.items ≡ out.old.items
        ++ entry_text names.now (entry_with line.now (paid from targets.now Reply.Done))) }
{
    out.push(b'\n')?;
    push_title(out, names, line)?;
    push_posting(out, names, from, Amount::Minus(targets.sum()), None)?;
    push_credits(out, names, targets)?;
    Ok(())
}

/// Adds a payment, by its reply.
fn push_payment(
    out: &mut Vec<u8>,
    names: &Names,
    line: &Line,
    from: u32,
    targets: &Targets,
) -> Result<(), AllocError>
    requires line { IsLineOn (length names.now.processes) (length names.now.accounts) line.now }
    requires source { from < length names.now.accounts }
    requires targets { AreTargetsOn (length names.now.accounts) targets.now }
    ensures { OnOk result (out.new.items ≡ out.old.items
        ++ entry_text names.now (entry_with line.now (paid from targets.now line.now.reply))) }
{
    match line.reply {
        Reply::Done => push_done(out, names, line, from, targets),
        Reply::Short | Reply::NotOwner | Reply::Full | Reply::Balance(_) => {
            push_comment(out, names, line)
        }
    }
}

/// Adds the transaction of a read that found this balance.
fn push_balance(
    out: &mut Vec<u8>,
    names: &Names,
    line: &Line,
    account: u32,
    balance: u64,
) -> Result<(), AllocError>
    requires process { line.now.process < length names.now.processes }
    requires account { account < length names.now.accounts }
    ensures { OnOk result (out.new.items ≡ out.old.items
        ++ entry_text names.now (entry_with line.now (balance_read account (Reply.Balance balance)))) }
{
    out.push(b'\n')?;
    push_title(out, names, line)?;
    push_posting(out, names, account, Amount::Plus(0), Some(balance))?;
    Ok(())
}

/// Adds a read, by its reply.
fn push_read(out: &mut Vec<u8>, names: &Names, line: &Line, account: u32) -> Result<(), AllocError>
    requires line { IsLineOn (length names.now.processes) (length names.now.accounts) line.now }
    requires account { account < length names.now.accounts }
    ensures { OnOk result (out.new.items ≡ out.old.items
        ++ entry_text names.now (entry_with line.now (balance_read account line.now.reply))) }
{
    match line.reply {
        Reply::Balance(balance) => push_balance(out, names, line, account, balance),
        Reply::Done | Reply::Short | Reply::NotOwner | Reply::Full => {
            push_comment(out, names, line)
        }
    }
}

/// Adds the entry of a line, after an empty line.
pub(crate) fn push_entry(out: &mut Vec<u8>, names: &Names, line: &Line) -> Result<(), AllocError>
    requires { IsLineOn (length names.now.processes) (length names.now.accounts) line.now }
    ensures { OnOk result
        (out.new.items ≡ out.old.items ++ entry_text names.now (entry_of line.now)) }
{
    names.known();
    match &line.call {
        Call::Transfer { from, to, amount } => {
            let targets = Targets::one(*to, *amount);
            push_payment(out, names, line, *from, &targets)
        }
        Call::Read { account } => push_read(out, names, line, *account),
        Call::Pay { from, targets } => push_payment(out, names, line, *from, targets),
    }
}
