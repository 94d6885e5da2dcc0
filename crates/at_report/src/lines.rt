//! Lines of printed texts, word by word.

ghost use Rattle.std.specs.Prelude.{◌≡◌, ◌<◌, [], ◌∷◌, ◌++◌, length, take, decimal, OnOk, OnErr};
ghost use Rattle.at_report.specs.Prelude.{StartsWith, AreTargetsOn, IsCallOn, IsLineOn, target_at};
ghost use Rattle.at_report.specs.Lines.{spaced, line_shown, line_text, targets_words, call_words, reply_word, journal_words};

use crate::line_at::{LineAt, at_line};
use at_files::Names;
use at_ledger::{Call, Line, Reply, Targets};
use std::alloc::AllocError;

/// Adds a word that follows another on its line.
pub fn push_word(out: &mut Vec<u8>, word: &[u8]) -> Result<(), AllocError>
    ensures text { OnOk result (out.new.items ≡ out.old.items ++ spaced (word.now ∷ [])) }
    ensures begun { OnErr result (StartsWith out.new.items out.old.items) }
{
    out.push(b' ')?;
    out.extend_from_slice(word)
}

/// Adds a number that follows a word on its line.
pub fn push_number(out: &mut Vec<u8>, n: u64) -> Result<(), AllocError>
    ensures text { OnOk result (out.new.items ≡ out.old.items ++ spaced (decimal n ∷ [])) }
    ensures begun { OnErr result (StartsWith out.new.items out.old.items) }
{
    out.push(b' ')?;
    at_base::push_number(out, n)
}

/// Adds a line of a word and a number.
pub fn push_numbered(out: &mut Vec<u8>, word: &[u8], n: u64) -> Result<(), AllocError>
    ensures text { OnOk result (out.new.items ≡ out.old.items
        ++ line_text (word.now ∷ decimal n ∷ [])) }
    ensures begun { OnErr result (StartsWith out.new.items out.old.items) }
{
    out.extend_from_slice(word)?;
    push_number(out, n)?;
    out.push(b'\n')?;
    Ok(())
}

fn push_target(
    out: &mut Vec<u8>,
    names: &Names,
    targets: &Targets,
    i: u32,
) -> Result<(), AllocError>
    requires target { i < length targets.now }
    requires accounts { AreTargetsOn (length names.now.accounts) targets.now }
    ensures text { OnOk result
        (out.new.items ≡ out.old.items ++ spaced
        (targets_words names.now (target_at targets.now i ∷ []))) }
    ensures begun { OnErr result (StartsWith out.new.items out.old.items) }
{
    push_word(out, names.account(targets.to(i)))?;
    push_number(out, targets.amount(i))
}

fn push_targets(out: &mut Vec<u8>, names: &Names, targets: &Targets) -> Result<(), AllocError>
    requires { AreTargetsOn (length names.now.accounts) targets.now }
    ensures text { OnOk result
        (out.new.items ≡ out.old.items ++ spaced (targets_words names.now targets.now)) }
    ensures begun { OnErr result (StartsWith out.new.items out.old.items) }
{
    for i in 0..targets.len() {
        push_target(out, names, targets, i)?;
    }
    Ok(())
}

fn push_call(out: &mut Vec<u8>, names: &Names, call: &Call) -> Result<(), AllocError>
    requires { IsCallOn (length names.now.accounts) call.now }
    ensures text { OnOk result
        (out.new.items ≡ out.old.items ++ spaced (call_words names.now call.now)) }
    ensures begun { OnErr result (StartsWith out.new.items out.old.items) }
{
    match call {
        Call::Transfer { from, to, amount } => push_transfer(out, names, *from, *to, *amount),
        Call::Read { account } => {
            push_word(out, b"read")?;
            push_word(out, names.account(*account))
        }
        Call::Pay { from, targets } => {
            push_word(out, b"pay")?;
            push_word(out, names.account(*from))?;
            push_targets(out, names, targets)
        }
    }
}

fn push_transfer(
    out: &mut Vec<u8>,
    names: &Names,
    from: u32,
    to: u32,
    amount: u64,
) -> Result<(), AllocError>
    requires source { from < length names.now.accounts }
    requires target { to < length names.now.accounts }
    ensures text { OnOk result
        (out.new.items ≡ out.old.items ++ spaced
        (call_words names.now (Call.Transfer from to amount))) }
    ensures begun { OnErr result (StartsWith out.new.items out.old.items) }
{
    push_word(out, b"transfer")?;
    push_word(out, names.account(from))?;
    push_word(out, names.account(to))?;
    push_number(out, amount)
}

/// Adds the word of a reply.
pub(crate) fn push_reply_word(out: &mut Vec<u8>, reply: Reply) -> Result<(), AllocError>
    ensures text { OnOk result (out.new.items ≡ out.old.items ++ reply_word reply) }
    ensures begun { OnErr result (StartsWith out.new.items out.old.items) }
{
    match reply {
        Reply::Done => out.extend_from_slice(b"done"),
        Reply::Short => out.extend_from_slice(b"short"),
        Reply::NotOwner => out.extend_from_slice(b"not-owner"),
        Reply::Full => out.extend_from_slice(b"full"),
        Reply::Balance(n) => at_base::push_number(out, n),
    }
}

fn push_reply(out: &mut Vec<u8>, reply: Reply) -> Result<(), AllocError>
    ensures text { OnOk result (out.new.items ≡ out.old.items ++ spaced (reply_word reply ∷ [])) }
    ensures begun { OnErr result (StartsWith out.new.items out.old.items) }
{
    out.push(b' ')?;
    push_reply_word(out, reply)
}

/// Takes a text back to what it was where not all could be added.
pub(crate) fn all_or_nothing(
    out: &mut Vec<u8>,
    length: usize,
    added: Result<(), AllocError>,
) -> Result<(), AllocError>
    ensures same { result ≡ added }
    ensures all { OnOk result (out.new.items ≡ out.old.items) }
    ensures nothing { OnErr result (out.new.items ≡ take length out.old.items) }
{
    if added.is_err() {
        out.truncate(length);
    }
    added
}

/// Adds what a line of the journal is made of, one part after another.
fn push_parts(out: &mut Vec<u8>, names: &Names, line: &LineAt<'_>) -> Result<(), AllocError>
    requires { IsLineOn (length names.now.processes) (length names.now.accounts)
        (line_shown line.now) }
    ensures text { OnOk result
        (out.new.items ≡ out.old.items ++ line_text
        (journal_words names.now (line_shown line.now))) }
    ensures begun { OnErr result (StartsWith out.new.items out.old.items) }
{
    out.extend_from_slice(names.process(line.process))?;
    push_number(out, u64::from(line.number))?;
    push_call(out, names, line.call)?;
    push_reply(out, line.reply)?;
    out.push(b'\n')?;
    Ok(())
}

/// Adds a line of the journal whose call stands elsewhere, with its newline.
pub(crate) fn push_line_at(
    out: &mut Vec<u8>,
    names: &Names,
    line: &LineAt<'_>,
) -> Result<(), AllocError>
    requires { IsLineOn (length names.now.processes) (length names.now.accounts)
        (line_shown line.now) }
    ensures text { OnOk result
        (out.new.items ≡ out.old.items ++ line_text
        (journal_words names.now (line_shown line.now))) }
    ensures kept { OnErr result (out.new.items ≡ out.old.items) }
{
    let length = out.len();
    let added = push_parts(out, names, line);
    all_or_nothing(out, length, added)
}

/// Adds a line of the journal, with its newline.
pub fn push_line(out: &mut Vec<u8>, names: &Names, line: &Line) -> Result<(), AllocError>
    requires { IsLineOn (length names.now.processes) (length names.now.accounts) line.now }
    ensures text { OnOk result
        (out.new.items ≡ out.old.items ++ line_text (journal_words names.now line.now)) }
    ensures kept { OnErr result (out.new.items ≡ out.old.items) }
{
    push_line_at(out, names, &at_line(line))
}
