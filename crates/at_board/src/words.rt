//! The words of records, requests and targets.

ghost use Rattle.std.specs.Prelude.{◌≡◌, ℕ, ◌+◌, ◌*◌, ◌^◌, ◌<◌, ◌≤◌, ◌++◌, List, length, slice_index};
ghost use Rattle.at_board.specs.Prelude.{HeadInRange, head_word, AreTargetsOn, TargetPair, target_at, targets_of, Entry};
ghost use Rattle.at_board.specs.Words.Packed.{IsForm, amount_words, decision_word, entry_words, head_of};
ghost use Rattle.at_board.specs.Words.Targets.{ArePacked, account_in, accounts_of, targets_word};

use arrayvec::ArrayVec;
use at_base::{Counts, Head, pack_decision, pack_head, unpack_decision, unpack_head};
use at_history::Entry;
use at_ledger::{TARGETS_MAX, Targets};

/// The words of a record before its view: its head, its targets word, its decision and four amounts.
pub const RECORD_WORDS: u32 = 7;

/// The words of a request: its targets word, four amounts, and its `since`.
pub const REQUEST_WORDS: u32 = 6;

/// The word of the accounts of a list of targets, with their number. An account takes ten bits.
pub fn pack_targets(targets: &Targets) -> u64
    requires { AreTargetsOn (2 ^ 10) targets.now }
    ensures word { result ≡ targets_word (accounts_of targets.now) }
    ensures packed { ArePacked (accounts_of targets.now) }
{
    account_or_zero(targets, 0)
        + (1 << 10) * account_or_zero(targets, 1)
        + (1 << 20) * account_or_zero(targets, 2)
        + (1 << 30) * account_or_zero(targets, 3)
        + (1 << 40) * u64::from(targets.len())
}

/// The account of a target, or 0 past the last.
fn account_or_zero(targets: &Targets, i: u32) -> u64
    requires { AreTargetsOn (2 ^ 10) targets.now }
    ensures account { result ≡ slice_index (accounts_of targets.now) i }
    ensures small { result < 2 ^ 10 }
{
    if i < targets.len() {
        u64::from(targets.to(i))
    } else {
        0
    }
}

/// The accounts of a word. Of a word that packs no list the answer is some accounts.
pub fn unpack_targets(word: u64) -> ArrayVec<u32, TARGETS_MAX>
    ensures { (accounts : List ℕ) → ArePacked accounts → targets_word accounts ≡ word
        → result.items ≡ accounts }
{
    let mut accounts = ArrayVec::from([
        account_at(word, 0),
        account_at(word, 10),
        account_at(word, 20),
        account_at(word, 30),
    ]);
    accounts.truncate((word >> 40) as usize);
    accounts
}

/// The ten bits of a word from this bit on.
fn account_at(word: u64, bit: u32) -> u32
    requires { bit < 64 }
    ensures { result ≡ account_in word bit }
{
    (word >> bit & 1023) as u32
}

/// A word of a record: its entry's words come first, and then its view, a count for each process.
pub fn record_word(entry: &Entry, view: &Counts, j: u32) -> u64
    requires form { IsForm entry.now }
    requires word { j < RECORD_WORDS + length view.now }
    ensures { result ≡ slice_index (entry_words entry.now ++ view.now) j }
{
    if RECORD_WORDS <= j {
        return u64::from(view.get(j - RECORD_WORDS));
    }
    let targets = targets(entry);
    match j {
        0 => pack_head(&head(entry)),
        1 => pack_targets(targets),
        2 => decision(entry),
        _ => amount_or_zero(targets, j - 3),
    }
}

/// The head of an entry.
fn head(entry: &Entry) -> Head
    requires { IsForm entry.now }
    ensures range { HeadInRange result }
    ensures word { head_word result ≡ head_of entry.now }
{
    match entry {
        Entry::Own { from, targets: _ } => Head {
            kind: 0,
            from: *from,
            to: 0,
            round: 0,
        },
        Entry::Round {
            account,
            round,
            decision: _,
            targets: _,
        } => Head {
            kind: 1,
            from: *account,
            to: 0,
            round: *round,
        },
    }
}

/// The targets of an entry.
fn targets(entry: &Entry) -> &Targets
    ensures { result.now ≡ targets_of entry.now }
{
    match entry {
        Entry::Own { from: _, targets } => targets,
        Entry::Round {
            account: _,
            round: _,
            decision: _,
            targets,
        } => targets,
    }
}

/// The word of an entry's decision, 0 in an own record.
fn decision(entry: &Entry) -> u64
    requires { IsForm entry.now }
    ensures { result ≡ decision_word entry.now }
{
    match entry {
        Entry::Own {
            from: _,
            targets: _,
        } => 0,
        Entry::Round {
            account: _,
            round: _,
            decision,
            targets: _,
        } => pack_decision(decision),
    }
}

/// The amount for a target, or 0 past the last.
fn amount_or_zero(targets: &Targets, i: u32) -> u64
    ensures { result ≡ (target_at targets.now i).1 }
{
    if i < targets.len() {
        targets.amount(i)
    } else {
        0
    }
}

/// The entry that these words were made of. For words that no entry has, the answer is some entry.
pub fn entry_of(words: [u64; RECORD_WORDS as usize]) -> Entry
    ensures { (e : Entry) → IsForm e → words ≡ entry_words e → result ≡ e }
{
    let amounts = [words[3], words[4], words[5], words[6]];
    entry_from(words[0], words[1], words[2], amounts)
}

/// The entry of its words, each for itself.
fn entry_from(head: u64, accounts: u64, decision: u64, amounts: [u64; 4]) -> Entry
    ensures { (e : Entry) → IsForm e → head ≡ head_of e
        → accounts ≡ targets_word (accounts_of (targets_of e)) → decision ≡ decision_word e
        → amounts ≡ amount_words (targets_of e) → result ≡ e }
{
    let head = unpack_head(head);
    match unpack_decision(decision) {
        Some(decision) => Entry::Round {
            account: head.from,
            round: head.round,
            decision,
            targets: targets_from(accounts, amounts),
        },
        None => Entry::Own {
            from: head.from,
            targets: targets_from(accounts, amounts),
        },
    }
}

/// The targets of these words. For words that no targets have, the answer is some targets.
pub fn targets_from(word: u64, amounts: [u64; 4]) -> Targets
    ensures { (ts : List TargetPair) → ArePacked (accounts_of ts)
        → word ≡ targets_word (accounts_of ts) → amounts ≡ amount_words ts → result ≡ ts }
{
    let mut targets = Targets::one(account_at(word, 0), amounts[0]);
    for k in 1..target_count(word) {
        targets.push(account_at(word, 10 * k), amounts[k as usize]);
    }
    targets
}

/// How many targets a word has. Of a word that packs no list the answer is some number of them.
fn target_count(word: u64) -> u32
    ensures count { (accounts : List ℕ) → ArePacked accounts → targets_word accounts ≡ word
        → result ≡ length accounts }
    ensures few { result ≤ 4 }
{
    (word >> 40).min(TARGETS_MAX as u64) as u32
}
