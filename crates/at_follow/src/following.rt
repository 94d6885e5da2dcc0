//! A node that is given logs.

ghost use Rattle.std.specs.Prelude.{◌≡◌, ◌+◌, ◌<◌, ◌≤◌, All, IfNone, IfOk, IfSome, List, OnOk, length, if◌then◌else◌};
ghost use Rattle.at_follow.specs.Following.{HasToldAll, IsFollowed, IsFollowedOn, IsFollowing, entries_at, log_bytes};
ghost use Rattle.at_follow.specs.Prelude.{ENTRIES_MAX, IsHistoryOf, MessageList, WhateverRead, logs_of, most_logs};

use at_ledger::Book;
use at_logs::{Answer, Node, Told};
use std::alloc::{AllocError, Global};

/// What is wrong with the bytes at a place of a log.
#[derive(Clone, Copy, Debug, PartialEq, Eq)]
pub enum EntryWhy {
    /// They spell no entry of this log and place. They are passed over, and the log goes on.
    NotAnEntry,
    /// They spell an entry that was made after other bytes than those at the place before: the log was rewritten. It is read no further.
    Forked,
}

/// A place of a log whose bytes are no entry, or a fork. Logs and places are counted from 0.
#[derive(Clone, Copy, Debug, PartialEq, Eq, Drop)]
pub struct EntryFault {
    pub log: u32,
    pub place: u32,
    pub why: EntryWhy,
}

/// A node that has read logs and told all that it has validated, with the messages that it told, in their order, and the faults, in the order
/// in which they were met.
#[derive(Drop)]
pub struct Followed {
    pub node: Node,
    pub told: Vec<Told>,
    pub faults: Vec<EntryFault>,
}

/// Gives the node the entry at the place of the log that comes next, and answers whether the log goes on.
fn give_entry(
    alloc: Global,
    node: &mut Node,
    logs: &[Vec<Vec<u8>>],
    log: u32,
    place: u32,
    faults: &mut Vec<EntryFault>,
) -> Result<bool, AllocError>
    requires before { IsFollowing node.old.book node.old.hash (log_bytes logs.now) log place node.old faults.old.items }
    requires log_in { log < length logs.now }
    requires count { length logs.now ≡ (logs_of node.old.book).logs }
    requires place_in { place < length (entries_at (log_bytes logs.now) log) }
    requires few { length (entries_at (log_bytes logs.now) log) ≤ ENTRIES_MAX }
    ensures { IfOk result (λ goes_on. IsFollowing node.old.book node.old.hash (log_bytes logs.now)
        (if goes_on then log else log + 1) (if goes_on then place + 1 else 0) node.new faults.new.items) }
{
    let answer = node.take(
        alloc,
        log,
        place,
        logs[log as usize][place as usize].as_slice(),
    )?;
    match answer {
        Answer::Taken => Ok(true),
        Answer::NotAnEntry => {
            let why = EntryWhy::NotAnEntry;
            faults.push(EntryFault { log, place, why })?;
            Ok(true)
        }
        Answer::Forked => {
            let why = EntryWhy::Forked;
            faults.push(EntryFault { log, place, why })?;
            Ok(false)
        }
        // neither comes: the places of a log are given in order, each once
        Answer::Gap => Ok(false),
        Answer::Again => Ok(false),
    }
}

/// Gives the node the entries of a log, to its end or to its first fork.
fn follow_log(
    alloc: Global,
    node: &mut Node,
    logs: &[Vec<Vec<u8>>],
    log: u32,
    faults: &mut Vec<EntryFault>,
) -> Result<(), AllocError>
    requires before { IsFollowing node.old.book node.old.hash (log_bytes logs.now) log 0 node.old faults.old.items }
    requires log_in { log < length logs.now }
    requires count { length logs.now ≡ (logs_of node.old.book).logs }
    requires few { length (entries_at (log_bytes logs.now) log) ≤ ENTRIES_MAX }
    ensures { OnOk result (IsFollowing node.old.book node.old.hash (log_bytes logs.now) (log + 1) 0 node.new faults.new.items) }
{
    for place in 0..logs[log as usize].len() {
        if !give_entry(alloc, node, logs, log, place as u32, faults)? {
            return Ok(());
        }
    }
    Ok(())
}

/// All that the node has validated and not told yet.
fn tell_all(alloc: Global, node: &mut Node) -> Result<Vec<Told>, AllocError>
    requires history { (messages : List MessageList) × IsHistoryOf messages node.old }
    ensures { IfOk result (λ told. WhateverRead node.old (λ s. HasToldAll s told.items node.new)) }
{
    let mut list = Vec::new(alloc);
    while let Some(told) = node.next_validated() {
        list.push(told)?;
    }
    Ok(list)
}

/// Has a new node of the book read these logs, log after log, each to its end or to its first fork, and tell all that it has validated then.
/// There is a log for each process and then one for each shared account, in book order. Entries have the hash of their book: a caller takes
/// that of the book's file. None comes where there are more than 64 logs. It takes memory for the node, for each message that is told, and for
/// each fault.
pub fn follow(
    alloc: Global,
    book: &Book,
    hash: &[u8; 32],
    logs: &[Vec<Vec<u8>>],
) -> Result<Option<Followed>, AllocError>
    requires count { length logs.now ≡ (logs_of book.now).logs }
    requires few { All (λ log. length log ≤ ENTRIES_MAX) (log_bytes logs.now) }
    ensures followed { IfOk result (λ found. IfSome found (IsFollowed book.now hash.now (log_bytes logs.now))) }
    ensures on { IfOk result (λ found. IfSome found (IsFollowedOn book.now)) }
    ensures none { IfOk result (λ found. IfNone found (most_logs < (logs_of book.now).logs)) }
{
    let Some(mut node) = Node::open(alloc, book, hash)? else {
        return Ok(None);
    };
    let mut faults = Vec::new(alloc);
    for log in 0..node.logs() {
        follow_log(alloc, &mut node, logs, log, &mut faults)?;
    }
    let told = tell_all(alloc, &mut node)?;
    node.known();
    Ok(Some(Followed { node, told, faults }))
}
