//! Entries from bytes. A reader takes its value from the front of the bytes, and answers the rest of them too.

ghost use Rattle.std.specs.Prelude.{◌≡◌, ◌↔◌, ◌≤◌, ◌^◌, ℕ, ◌<◌, Some, option_map, IfOk, IfSome, length};
ghost use Rattle.std.specs.Int.{w32, w64};
ghost use Rattle.at_logs.specs.Prelude.{most_logs, most_targets};
ghost use Rattle.at_logs.specs.Entry.{EntryTerms, IsEntryOn, entry_bytes, most_in_entry};
ghost use Rattle.at_logs.specs.Readers.{read_below, read_byte, read_entry, read_head, read_items, read_listed, read_message, read_number, read_raw, read_target, read_whole};

use crate::entry::{ENTRY_MESSAGES_MAX, Entry, EntryMessage};
use crate::spelling::ENTRY_VERSION;
use at_broadcast::LogCounts;
use at_ledger::{TARGETS_MAX, Targets};
use std::alloc::{AllocError, Global};

/// What stands before the messages of an entry.
#[derive(Drop)]
struct Head {
    writer: u32,
    deps: LogCounts,
    book: [u8; 32],
    before: [u8; 32],
}

pub(crate) fn byte_of(bytes: &[u8]) -> Option<(u8, &[u8])>
    ensures { option_map (λ x. (x.0, x.1.now)) result ≡ read_byte bytes.now }
{
    match bytes {
        [] => None,
        [byte, rest @ ..] => Some((*byte, rest)),
    }
}

pub(crate) fn raw_of<const N: usize>(bytes: &[u8]) -> Option<([u8; N], &[u8])>
    ensures { option_map (λ x. (x.0, x.1.now)) result ≡ read_raw N bytes.now }
{
    if bytes.len() < N {
        return None;
    }
    let (front, rest) = bytes.split_at(N);
    let mut raw = [0; N];
    raw.copy_from_slice(front);
    Some((raw, rest))
}

pub(crate) fn u32_of(bytes: &[u8]) -> Option<(u32, &[u8])>
    ensures { option_map (λ x. (x.0, x.1.now)) result ≡ read_number w32 bytes.now }
{
    let (number, rest) = raw_of::<4>(bytes)?;
    Some((u32::from_be_bytes(number), rest))
}

pub(crate) fn u64_of(bytes: &[u8]) -> Option<(u64, &[u8])>
    ensures { option_map (λ x. (x.0, x.1.now)) result ≡ read_number w64 bytes.now }
{
    let (number, rest) = raw_of::<8>(bytes)?;
    Some((u64::from_be_bytes(number), rest))
}

pub(crate) fn below(limit: u32, bytes: &[u8]) -> Option<(u32, &[u8])>
    ensures read { option_map (λ x. (x.0, x.1.now)) result ≡ read_below limit bytes.now }
    ensures below { IfSome result (λ x. x.0 < limit) }
{
    let (number, rest) = u32_of(bytes)?;
    if number >= limit {
        return None;
    }
    Some((number, rest))
}

#[tactic(auto, unfolding(crate::specs::Readers::read_target))]
fn target_of(accounts: u32, bytes: &[u8]) -> Option<((u32, u64), &[u8])>
    ensures read { option_map (λ x. (x.0, x.1.now)) result ≡ read_target accounts bytes.now }
    ensures below { IfSome result (λ x. x.0.0 < accounts) }
{
    let (to, rest) = below(accounts, bytes)?;
    let (amount, rest) = u64_of(rest)?;
    Some(((to, amount), rest))
}

/// So many counts.
pub(crate) fn counts_of(logs: u32, bytes: &[u8]) -> Option<(LogCounts, &[u8])>
    requires some { 1 ≤ logs }
    requires few { logs ≤ most_logs }
    ensures { option_map (λ x. (x.0, x.1.now)) result ≡ read_items (read_number w32) logs bytes.now }
{
    let mut counts = LogCounts::zeros(logs);
    let mut rest = bytes;
    for log in 0..logs {
        let (count, after) = u32_of(rest)?;
        counts.set(log, count);
        rest = after;
    }
    Some((counts, rest))
}

/// So many targets.
fn so_many_targets(accounts: u32, count: u8, bytes: &[u8]) -> Option<(Targets, &[u8])>
    requires accounts { accounts ≤ 2 ^ 16 }
    requires some { 1 ≤ count }
    requires few { count ≤ most_targets }
    ensures { option_map (λ x. (x.0, x.1.now)) result ≡ read_items (read_target accounts) count bytes.now }
{
    let ((to, amount), after) = target_of(accounts, bytes)?;
    let mut targets = Targets::one(to, amount);
    let mut rest = after;
    for _ in 1..count {
        let ((to, amount), after) = target_of(accounts, rest)?;
        targets.push(to, amount);
        rest = after;
    }
    Some((targets, rest))
}

pub(crate) fn targets_of(accounts: u32, bytes: &[u8]) -> Option<(Targets, &[u8])>
    requires { accounts ≤ 2 ^ 16 }
    ensures { option_map (λ x. (x.0, x.1.now)) result ≡ read_listed most_targets (read_target accounts) bytes.now }
{
    let (count, rest) = byte_of(bytes)?;
    if count == 0 || usize::from(count) > TARGETS_MAX {
        return None;
    }
    so_many_targets(accounts, count, rest)
}

#[tactic(auto, unfolding(crate::specs::Readers::read_message))]
fn message_of(accounts: u32, bytes: &[u8]) -> Option<(EntryMessage, &[u8])>
    requires { accounts ≤ 2 ^ 16 }
    ensures { option_map (λ x. (x.0, x.1.now)) result ≡ read_message accounts bytes.now }
{
    let (from, rest) = below(accounts, bytes)?;
    let (targets, rest) = targets_of(accounts, rest)?;
    let (reference, rest) = raw_of::<16>(rest)?;
    Some((
        EntryMessage {
            from,
            targets,
            reference,
        },
        rest,
    ))
}

/// So many messages.
fn so_many_messages(
    alloc: Global,
    accounts: u32,
    count: u8,
    bytes: &[u8],
) -> Result<Option<(Vec<EntryMessage>, &[u8])>, AllocError>
    requires { accounts ≤ 2 ^ 16 }
    ensures read { IfOk result (λ found. option_map (λ x. (x.0.items, x.1.now)) found ≡ read_items (read_message accounts) count bytes.now) }
    ensures long { IfOk result (λ found. IfSome found (λ x. length x.0.items ≡ count)) }
{
    let mut messages = Vec::new(alloc);
    let mut rest = bytes;
    for _ in 0..count {
        let Some((message, after)) = message_of(accounts, rest) else {
            return Ok(None);
        };
        messages.push(message)?;
        rest = after;
    }
    Ok(Some((messages, rest)))
}

fn messages_of(
    alloc: Global,
    accounts: u32,
    bytes: &[u8],
) -> Result<Option<(Vec<EntryMessage>, &[u8])>, AllocError>
    requires { accounts ≤ 2 ^ 16 }
    ensures read { IfOk result (λ found. option_map (λ x. (x.0.items, x.1.now)) found ≡ read_listed most_in_entry (read_message accounts) bytes.now) }
    ensures some { IfOk result (λ found. IfSome found (λ x. 1 ≤ length x.0.items)) }
    ensures few { IfOk result (λ found. IfSome found (λ x. length x.0.items ≤ most_in_entry)) }
{
    let Some((count, rest)) = byte_of(bytes) else {
        return Ok(None);
    };
    if count == 0 || usize::from(count) > ENTRY_MESSAGES_MAX {
        return Ok(None);
    }
    so_many_messages(alloc, accounts, count, rest)
}

#[tactic(auto, unfolding(crate::specs::Readers::read_head))]
fn head_of(logs: u32, processes: u32, bytes: &[u8]) -> Option<(Head, &[u8])>
    requires some { 1 ≤ logs }
    requires few { logs ≤ most_logs }
    ensures { option_map (λ x. (x.0, x.1.now)) result ≡ read_head logs processes bytes.now }
{
    let (version, rest) = byte_of(bytes)?;
    if version != ENTRY_VERSION {
        return None;
    }
    let (writer, rest) = below(processes, rest)?;
    let (deps, rest) = counts_of(logs, rest)?;
    let (book, rest) = raw_of::<32>(rest)?;
    let (before, rest) = raw_of::<32>(rest)?;
    Some((
        Head {
            writer,
            deps,
            book,
            before,
        },
        rest,
    ))
}

#[tactic(auto, unfolding(crate::specs::Readers::read_entry))]
fn entry_of(
    alloc: Global,
    logs: u32,
    accounts: u32,
    processes: u32,
    bytes: &[u8],
) -> Result<Option<Entry>, AllocError>
    requires some { 1 ≤ logs }
    requires few { logs ≤ most_logs }
    requires accounts { accounts ≤ 2 ^ 16 }
    ensures { IfOk result (λ found. found ≡ read_whole (read_entry logs accounts processes) bytes.now) }
{
    let Some((head, rest)) = head_of(logs, processes, bytes) else {
        return Ok(None);
    };
    let Some((messages, rest)) = messages_of(alloc, accounts, rest)? else {
        return Ok(None);
    };
    if !rest.is_empty() {
        return Ok(None);
    }
    Ok(Some(Entry::new(head.writer, head.deps, head.book, head.before, messages)))
}

/// The entry that the bytes spell, all of them, for a book with so many logs, accounts and processes: it comes exactly where there is one.
pub fn read_entry(
    alloc: Global,
    logs: u32,
    accounts: u32,
    processes: u32,
    bytes: &[u8],
) -> Result<Option<Entry>, AllocError>
    requires some_log { 1 ≤ logs }
    requires few_logs { logs ≤ most_logs }
    requires few_accounts { accounts ≤ 2 ^ 16 }
    ensures { IfOk result (λ found. (e : EntryTerms) → (found ≡ Some e) ↔ (IsEntryOn logs accounts processes e × (bytes.now ≡ entry_bytes e))) }
{
    entry_of(alloc, logs, accounts, processes, bytes)
}
