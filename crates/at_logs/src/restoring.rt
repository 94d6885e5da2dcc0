//! Snapshots from bytes, before they are checked. A reader takes its value from the front of the bytes, and answers the rest of them too.

ghost use Rattle.std.specs.Prelude.{◌≡◌, ◌↔◌, ◌≤◌, ◌^◌, Some, option_map, IfOk, IfSome, length};
ghost use Rattle.std.specs.Int.{w64};
ghost use Rattle.at_logs.specs.Prelude.{IsLogBook, most_logs};
ghost use Rattle.at_logs.specs.Compact.{kept_of};
ghost use Rattle.at_logs.specs.Readers.{read_items, read_number, read_whole};
ghost use Rattle.at_logs.specs.Saved.{IsSaved, SavedTerms, read_backlog, read_core, read_credit, read_front, read_kept_message, read_many, read_saved, read_tail, saved_bytes};

use crate::backlog::Backlog;
use crate::credits::Credit;
use crate::reading::{below, byte_of, counts_of, raw_of, targets_of, u32_of, u64_of};
use crate::saving::SNAPSHOT_VERSION;
use crate::tail::Tail;
use at_broadcast::{LogBook, LogCounts, Message};
use std::alloc::{AllocError, Global};
use std::collections::VecDeque;
use std::marker::Model;

/// What a snapshot has of all logs: what a core keeps, whatever its numbers say.
#[derive(Drop)]
pub(crate) struct SavedCore {
    pub(crate) book: LogBook,
    pub(crate) validated: LogCounts,
    pub(crate) told: LogCounts,
    pub(crate) settled: Vec<u64>,
    pub(crate) balances: Vec<u64>,
    pub(crate) backlogs: Vec<Backlog>,
}

impl Model for SavedCore {
    ghost use Rattle.at_logs.specs.Compact.{CompactState, state_of};

    ghost Value = { CompactState };

    ghost view = { λ c. state_of c.book c.validated c.told c.settled.items c.balances.items c.backlogs.items };
}

/// What stands before the tails of a snapshot.
#[derive(Drop)]
struct Front {
    hash: [u8; 32],
}

/// What a snapshot says.
#[derive(Drop)]
pub(crate) struct Saved {
    pub(crate) hash: [u8; 32],
    pub(crate) tails: Vec<Tail>,
    pub(crate) core: SavedCore,
}

impl Model for Saved {
    ghost use Rattle.at_logs.specs.Saved.{SavedTerms};

    ghost Value = { SavedTerms };

    ghost view = { λ s. record { hash = s.hash; tails = s.tails.items; core = s.core } };
}

#[tactic(auto, unfolding(crate::specs::Saved::read_kept_message))]
fn kept_message_of(logs: u32, accounts: u32, bytes: &[u8]) -> Option<(Message, &[u8])>
    requires some { 1 ≤ logs }
    requires few { logs ≤ most_logs }
    requires accounts { accounts ≤ 2 ^ 16 }
    ensures { option_map (λ x. (x.0, x.1.now)) result ≡ read_kept_message logs accounts bytes.now }
{
    let (from, rest) = below(accounts, bytes)?;
    let (targets, rest) = targets_of(accounts, rest)?;
    let (reference, rest) = raw_of::<16>(rest)?;
    let (deps, rest) = counts_of(logs, rest)?;
    Some((
        Message {
            from,
            targets,
            reference,
            deps,
        },
        rest,
    ))
}

/// So many messages.
fn so_many_kept_messages(
    alloc: Global,
    logs: u32,
    accounts: u32,
    count: u64,
    bytes: &[u8],
) -> Result<Option<(VecDeque<Message>, &[u8])>, AllocError>
    requires some { 1 ≤ logs }
    requires few { logs ≤ most_logs }
    requires accounts { accounts ≤ 2 ^ 16 }
    ensures { IfOk result (λ found. option_map (λ x. (x.0.items, x.1.now)) found ≡ read_items (read_kept_message logs accounts) count bytes.now) }
{
    let mut messages = VecDeque::new(alloc);
    let mut rest = bytes;
    for _ in 0..count {
        let Some((message, after)) = kept_message_of(logs, accounts, rest) else {
            return Ok(None);
        };
        messages.push_back(message)?;
        rest = after;
    }
    Ok(Some((messages, rest)))
}

fn kept_messages_of(
    alloc: Global,
    logs: u32,
    accounts: u32,
    bytes: &[u8],
) -> Result<Option<(VecDeque<Message>, &[u8])>, AllocError>
    requires some { 1 ≤ logs }
    requires few { logs ≤ most_logs }
    requires accounts { accounts ≤ 2 ^ 16 }
    ensures { IfOk result (λ found. option_map (λ x. (x.0.items, x.1.now)) found ≡ read_many (read_kept_message logs accounts) bytes.now) }
{
    let Some((count, rest)) = u64_of(bytes) else {
        return Ok(None);
    };
    so_many_kept_messages(alloc, logs, accounts, count, rest)
}

#[tactic(auto, unfolding(crate::specs::Saved::read_credit))]
fn credit_of(logs: u32, accounts: u32, bytes: &[u8]) -> Option<(Credit, &[u8])>
    ensures { option_map (λ x. (x.0, x.1.now)) result ≡ read_credit logs accounts bytes.now }
{
    let (account, rest) = below(accounts, bytes)?;
    let (log, rest) = below(logs, rest)?;
    let (number, rest) = u32_of(rest)?;
    let (amount, rest) = u64_of(rest)?;
    Some((
        Credit {
            account,
            log,
            number,
            amount,
        },
        rest,
    ))
}

/// So many credits.
fn so_many_credits(
    alloc: Global,
    logs: u32,
    accounts: u32,
    count: u64,
    bytes: &[u8],
) -> Result<Option<(Vec<Credit>, &[u8])>, AllocError>
    ensures { IfOk result (λ found. option_map (λ x. (x.0.items, x.1.now)) found ≡ read_items (read_credit logs accounts) count bytes.now) }
{
    let mut credits = Vec::new(alloc);
    let mut rest = bytes;
    for _ in 0..count {
        let Some((credit, after)) = credit_of(logs, accounts, rest) else {
            return Ok(None);
        };
        credits.push(credit)?;
        rest = after;
    }
    Ok(Some((credits, rest)))
}

fn credits_of(
    alloc: Global,
    logs: u32,
    accounts: u32,
    bytes: &[u8],
) -> Result<Option<(Vec<Credit>, &[u8])>, AllocError>
    ensures { IfOk result (λ found. option_map (λ x. (x.0.items, x.1.now)) found ≡ read_many (read_credit logs accounts) bytes.now) }
{
    let Some((count, rest)) = u64_of(bytes) else {
        return Ok(None);
    };
    so_many_credits(alloc, logs, accounts, count, rest)
}

#[tactic(auto, unfolding(crate::specs::Saved::read_backlog))]
fn backlog_of(
    alloc: Global,
    logs: u32,
    accounts: u32,
    bytes: &[u8],
) -> Result<Option<(Backlog, &[u8])>, AllocError>
    requires some { 1 ≤ logs }
    requires few { logs ≤ most_logs }
    requires accounts { accounts ≤ 2 ^ 16 }
    ensures { IfOk result (λ found. option_map (λ x. (x.0.kept, x.1.now)) found ≡ read_backlog logs accounts bytes.now) }
{
    let Some((messages, rest)) = kept_messages_of(alloc, logs, accounts, bytes)? else {
        return Ok(None);
    };
    let Some((credits, rest)) = credits_of(alloc, logs, accounts, rest)? else {
        return Ok(None);
    };
    let Some((settled_at, rest)) = counts_of(logs, rest) else {
        return Ok(None);
    };
    Ok(Some((Backlog::of(messages, credits, settled_at), rest)))
}

/// One for each log.
fn backlogs_of(
    alloc: Global,
    logs: u32,
    accounts: u32,
    bytes: &[u8],
) -> Result<Option<(Vec<Backlog>, &[u8])>, AllocError>
    requires some { 1 ≤ logs }
    requires few { logs ≤ most_logs }
    requires accounts { accounts ≤ 2 ^ 16 }
    ensures { IfOk result (λ found. option_map (λ x. (kept_of x.0.items, x.1.now)) found ≡ read_items (read_backlog logs accounts) logs bytes.now) }
{
    let mut backlogs = Vec::new(alloc);
    let mut rest = bytes;
    for _ in 0..logs {
        let Some((backlog, after)) = backlog_of(alloc, logs, accounts, rest)? else {
            return Ok(None);
        };
        backlogs.push(backlog)?;
        rest = after;
    }
    Ok(Some((backlogs, rest)))
}

/// So many amounts.
fn amounts_of(
    alloc: Global,
    count: u32,
    bytes: &[u8],
) -> Result<Option<(Vec<u64>, &[u8])>, AllocError>
    ensures { IfOk result (λ found. option_map (λ x. (x.0.items, x.1.now)) found ≡ read_items (read_number w64) count bytes.now) }
{
    let mut amounts = Vec::new(alloc);
    let mut rest = bytes;
    for _ in 0..count {
        let Some((amount, after)) = u64_of(rest) else {
            return Ok(None);
        };
        amounts.push(amount)?;
        rest = after;
    }
    Ok(Some((amounts, rest)))
}

#[tactic(auto, unfolding(crate::specs::Saved::read_tail))]
fn tail_of(logs: u32, bytes: &[u8]) -> Option<(Tail, &[u8])>
    requires some { 1 ≤ logs }
    requires few { logs ≤ most_logs }
    ensures { option_map (λ x. (x.0, x.1.now)) result ≡ read_tail logs bytes.now }
{
    let (entries, rest) = u32_of(bytes)?;
    let (messages, rest) = u32_of(rest)?;
    let (deps, rest) = counts_of(logs, rest)?;
    let (hash, rest) = raw_of::<32>(rest)?;
    Some((
        Tail {
            entries,
            messages,
            deps,
            hash,
        },
        rest,
    ))
}

/// One for each log.
fn tails_of(
    alloc: Global,
    logs: u32,
    bytes: &[u8],
) -> Result<Option<(Vec<Tail>, &[u8])>, AllocError>
    requires some { 1 ≤ logs }
    requires few { logs ≤ most_logs }
    ensures { IfOk result (λ found. option_map (λ x. (x.0.items, x.1.now)) found ≡ read_items (read_tail logs) logs bytes.now) }
{
    let mut tails = Vec::new(alloc);
    let mut rest = bytes;
    for _ in 0..logs {
        let Some((tail, after)) = tail_of(logs, rest) else {
            return Ok(None);
        };
        tails.push(tail)?;
        rest = after;
    }
    Ok(Some((tails, rest)))
}

/// What stands behind the tails, for this book.
#[tactic(auto, unfolding(crate::specs::Saved::read_core))]
fn core_of(
    alloc: Global,
    book: LogBook,
    bytes: &[u8],
) -> Result<Option<(SavedCore, &[u8])>, AllocError>
    requires { length book.accounts ≤ 2 ^ 16 }
    ensures { IfOk result (λ found. option_map (λ x. (x.0, x.1.now)) found ≡ read_core book bytes.now) }
{
    let accounts = book.accounts();
    let logs = book.logs();
    let Some((validated, rest)) = counts_of(logs, bytes) else {
        return Ok(None);
    };
    let Some((told, rest)) = counts_of(logs, rest) else {
        return Ok(None);
    };
    let Some((settled, rest)) = amounts_of(alloc, accounts, rest)? else {
        return Ok(None);
    };
    let Some((balances, rest)) = amounts_of(alloc, accounts, rest)? else {
        return Ok(None);
    };
    let Some((backlogs, rest)) = backlogs_of(alloc, logs, accounts, rest)? else {
        return Ok(None);
    };
    let core = SavedCore {
        book,
        validated,
        told,
        settled,
        balances,
        backlogs,
    };
    Ok(Some((core, rest)))
}

#[tactic(auto, unfolding(crate::specs::Saved::read_front))]
fn front_of(bytes: &[u8]) -> Option<(Front, &[u8])>
    ensures { option_map (λ x. (x.0, x.1.now)) result ≡ read_front bytes.now }
{
    let (version, rest) = byte_of(bytes)?;
    if version != SNAPSHOT_VERSION {
        return None;
    }
    let (hash, rest) = raw_of::<32>(rest)?;
    Some((Front { hash }, rest))
}

#[tactic(auto, unfolding(crate::specs::Saved::read_saved))]
fn saved_of(alloc: Global, book: LogBook, bytes: &[u8]) -> Result<Option<Saved>, AllocError>
    requires { length book.accounts ≤ 2 ^ 16 }
    ensures { IfOk result (λ found. found ≡ read_whole (read_saved book) bytes.now) }
{
    known(&book);
    let Some((front, rest)) = front_of(bytes) else {
        return Ok(None);
    };
    let Some((tails, rest)) = tails_of(alloc, book.logs(), rest)? else {
        return Ok(None);
    };
    let Some((core, rest)) = core_of(alloc, book, rest)? else {
        return Ok(None);
    };
    if !rest.is_empty() {
        return Ok(None);
    }
    let hash = front.hash;
    Ok(Some(Saved { hash, tails, core }))
}

/// What the bytes say, all of them, as a snapshot of a book with such logs: it comes exactly where they are one.
pub(crate) fn read_saved(
    alloc: Global,
    book: LogBook,
    bytes: &[u8],
) -> Result<Option<Saved>, AllocError>
    requires { length book.accounts ≤ 2 ^ 16 }
    ensures { IfOk result (λ found. (s : SavedTerms) → (found ≡ Some s) ↔ (IsSaved book s × (bytes.now ≡ saved_bytes s))) }
{
    known(&book);
    saved_of(alloc, book, bytes)
}

/// Tells a proof what holds of a book. It does nothing when it runs.
pub(crate) fn known(book: &LogBook)
    ensures { IsLogBook book.now }
{
    let _accounts = book.accounts();
}
