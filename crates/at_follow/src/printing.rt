//! The text of what was followed.

ghost use Rattle.std.specs.Prelude.{◌≡◌, ◌+◌, ◌<◌, ◌++◌, ◌∷◌, [], All, IfOk, OnOk, codes, length, map, sum};
ghost use Rattle.at_follow.specs.Following.{IsFollowedOn, IsToldOn};
ghost use Rattle.at_follow.specs.FollowText.{entry_fault_words, follow_lines, follow_text, log_line, log_words, node_account_words, section, told_words, why_word};
ghost use Rattle.at_follow.specs.Prelude.{AreNamesOf, AreTargetsOn, Call, call_words, contents_of, line_text, lines_text, logs_of, range_with_len, spaced, target_at, targets_words, total_of};

use crate::following::{EntryFault, EntryWhy, Followed};
use crate::log_words::log_words;
use at_files::Names;
use at_ledger::{Book, Targets};
use at_logs::{Node, Told};
use at_report::{push_number, push_numbered, push_word};
use std::alloc::{AllocError, Global};

/// Adds the account and the amount of a target.
fn push_target(
    out: &mut Vec<u8>,
    names: &Names,
    targets: &Targets,
    i: u32,
) -> Result<(), AllocError>
    requires target { i < length targets.now }
    requires accounts { AreTargetsOn (length names.now.accounts) targets.now }
    ensures { OnOk result (out.new.items ≡ out.old.items ++ spaced (targets_words names.now (target_at targets.now i ∷ []))) }
{
    push_word(out, names.account(targets.to(i)))?;
    push_number(out, targets.amount(i))
}

/// Adds those of each target.
fn push_targets(out: &mut Vec<u8>, names: &Names, targets: &Targets) -> Result<(), AllocError>
    requires { AreTargetsOn (length names.now.accounts) targets.now }
    ensures { OnOk result (out.new.items ≡ out.old.items ++ spaced (targets_words names.now targets.now)) }
{
    for i in 0..targets.len() {
        push_target(out, names, targets, i)?;
    }
    Ok(())
}

/// Adds a payment.
fn push_pay(
    out: &mut Vec<u8>,
    names: &Names,
    from: u32,
    targets: &Targets,
) -> Result<(), AllocError>
    requires source { from < length names.now.accounts }
    requires targets { AreTargetsOn (length names.now.accounts) targets.now }
    ensures { OnOk result (out.new.items ≡ out.old.items ++ spaced (call_words names.now (Call.Pay from targets.now))) }
{
    push_word(out, b"pay")?;
    push_word(out, names.account(from))?;
    push_targets(out, names, targets)
}

/// Adds the line of a message that was told.
fn push_told(
    alloc: Global,
    out: &mut Vec<u8>,
    words: &[Vec<u8>],
    book: &Book,
    names: &Names,
    told: &Told,
) -> Result<(), AllocError>
    requires words { contents_of words.now ≡ log_words book.now names.now }
    requires log_in { told.now.log < length words.now }
    requires source { told.now.from < length names.now.accounts }
    requires targets { AreTargetsOn (length names.now.accounts) told.now.targets }
    ensures { OnOk result (out.new.items ≡ out.old.items ++ line_text (told_words book.now names.now told.now)) }
{
    out.extend_from_slice(words[told.log as usize].as_slice())?;
    push_number(out, u64::from(told.number) + 1)?;
    push_pay(out, names, told.from, &told.targets)?;
    push_word(out, hex::encode(alloc, told.reference)?.as_bytes())?;
    out.push(b'\n')?;
    Ok(())
}

/// Adds the line of a log.
fn push_log(
    out: &mut Vec<u8>,
    words: &[Vec<u8>],
    book: &Book,
    names: &Names,
    node: &Node,
    log: u32,
) -> Result<(), AllocError>
    requires words { contents_of words.now ≡ log_words book.now names.now }
    requires word_in { log < length words.now }
    requires log_in { log < node.now.core.book.logs }
    requires counts { length node.now.core.validated ≡ node.now.core.book.logs }
    ensures { OnOk result (out.new.items ≡ out.old.items ++ line_text (log_line book.now names.now node.now log)) }
{
    out.extend_from_slice(words[log as usize].as_slice())?;
    push_number(out, u64::from(node.counts().get(log)))?;
    push_number(out, u64::from(node.next_place(log)))?;
    out.push(b'\n')?;
    Ok(())
}

/// The word of what is wrong.
fn why_word(why: EntryWhy) -> &'static [u8]
    ensures { result.now ≡ why_word why }
{
    match why {
        EntryWhy::NotAnEntry => b"not-an-entry",
        EntryWhy::Forked => b"forked",
    }
}

/// Adds the line of a fault.
fn push_fault(
    out: &mut Vec<u8>,
    words: &[Vec<u8>],
    book: &Book,
    names: &Names,
    fault: &EntryFault,
) -> Result<(), AllocError>
    requires words { contents_of words.now ≡ log_words book.now names.now }
    requires log_in { fault.now.log < length words.now }
    ensures { OnOk result (out.new.items ≡ out.old.items ++ line_text (entry_fault_words book.now names.now fault.now)) }
{
    out.extend_from_slice(words[fault.log as usize].as_slice())?;
    push_number(out, u64::from(fault.place) + 1)?;
    push_word(out, why_word(fault.why))?;
    out.push(b'\n')?;
    Ok(())
}

/// Adds how many messages were told, and each.
fn push_journal(
    alloc: Global,
    out: &mut Vec<u8>,
    words: &[Vec<u8>],
    book: &Book,
    names: &Names,
    told: &[Told],
) -> Result<(), AllocError>
    requires words { contents_of words.now ≡ log_words book.now names.now }
    requires known { All (IsToldOn (length words.now) (length names.now.accounts)) told.now }
    ensures { OnOk result (out.new.items ≡ out.old.items ++ lines_text (section (codes "journal") (map (told_words book.now names.now) told.now))) }
{
    push_numbered(out, b"journal", told.len() as u64)?;
    for message in told {
        push_told(alloc, out, words, book, names, message)?;
    }
    Ok(())
}

/// Adds how many logs there are, and each.
fn push_logs(
    out: &mut Vec<u8>,
    words: &[Vec<u8>],
    book: &Book,
    names: &Names,
    node: &Node,
) -> Result<(), AllocError>
    requires words { contents_of words.now ≡ log_words book.now names.now }
    requires each { length words.now ≡ (logs_of book.now).logs }
    requires logs { node.now.core.book ≡ logs_of book.now }
    requires counts { length node.now.core.validated ≡ (logs_of book.now).logs }
    ensures { OnOk result (out.new.items ≡ out.old.items
        ++ lines_text (section (codes "logs") (map (log_line book.now names.now node.now) (range_with_len 0 (logs_of book.now).logs)))) }
{
    push_numbered(out, b"logs", u64::from(node.logs()))?;
    for log in 0..node.logs() {
        push_log(out, words, book, names, node, log)?;
    }
    Ok(())
}

/// Adds how many faults there are, and each.
fn push_faults(
    out: &mut Vec<u8>,
    words: &[Vec<u8>],
    book: &Book,
    names: &Names,
    faults: &[EntryFault],
) -> Result<(), AllocError>
    requires words { contents_of words.now ≡ log_words book.now names.now }
    requires known { All (λ x. x.log < length words.now) faults.now }
    ensures { OnOk result (out.new.items ≡ out.old.items ++ lines_text (section (codes "passed") (map (entry_fault_words book.now names.now) faults.now))) }
{
    push_numbered(out, b"passed", faults.len() as u64)?;
    for fault in faults {
        push_fault(out, words, book, names, fault)?;
    }
    Ok(())
}

/// Adds how many accounts there are, and the balance of each.
fn push_balances(
    out: &mut Vec<u8>,
    book: &Book,
    names: &Names,
    node: &Node,
) -> Result<(), AllocError>
    requires names { length names.now.accounts ≡ length book.now.accounts }
    requires book { node.now.book ≡ book.now }
    ensures { OnOk result (out.new.items ≡ out.old.items
        ++ lines_text (section (codes "balances") (map (node_account_words names.now node.now) (range_with_len 0 (length book.now.accounts))))) }
{
    push_numbered(out, b"balances", u64::from(book.accounts()))?;
    for account in 0..book.accounts() {
        push_numbered(out, names.account(account), node.balance(account))?;
    }
    Ok(())
}

/// The sum of the node's balances.
fn total_of(book: &Book, node: &Node) -> u64
    requires book { node.now.book ≡ book.now }
    requires balances { length node.now.core.balances ≡ length book.now.accounts }
    requires total { sum node.now.core.balances ≡ total_of book.now }
    ensures { result ≡ sum node.now.core.balances }
{
    let mut total = 0;
    for account in 0..book.accounts() {
        total += node.balance(account);
    }
    total
}

/// The text of what was followed: each message that was told, in that order, by its log and its number there from 1, with its reference in
/// hex; of each log how many messages are validated and how many places were read; the faults, with places from 1; and the balances with
/// their total. Processes and accounts are written as in the report of a run. The log of a process is written as the process, and that of a
/// shared account as `account:` and the account, so no two logs are written alike.
pub fn follow_text(
    alloc: Global,
    book: &Book,
    names: &Names,
    followed: &Followed,
) -> Result<Vec<u8>, AllocError>
    requires names { AreNamesOf book.now names.now }
    requires followed { IsFollowedOn book.now followed.now }
    ensures { IfOk result (λ text. text.items ≡ follow_text book.now names.now followed.now) }
{
    let words = log_words(alloc, book, names)?;
    let words = words.as_slice();
    let node = &followed.node;
    let mut out = Vec::new(alloc);
    push_journal(
        alloc,
        &mut out,
        words,
        book,
        names,
        followed.told.as_slice(),
    )?;
    push_logs(&mut out, words, book, names, node)?;
    push_faults(&mut out, words, book, names, followed.faults.as_slice())?;
    push_balances(&mut out, book, names, node)?;
    push_numbered(&mut out, b"total", total_of(book, node))?;
    Ok(out)
}
