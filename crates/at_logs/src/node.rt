//! A node over logs.

ghost use Rattle.std.specs.Prelude.{◌≡◌, ◌≢◌, ◌+◌, ◌<◌, ◌≤◌, ◌↔◌, ℕ, All, List, Some, length, replicate, slice_index, sum, Ok, IsTrue, IfOk, IfErr, IfSome, IfNone, OnOk, OnErr, nat_le, if◌then◌else◌};
ghost use Rattle.std.specs.Bool.{OnFalse, OnTrue};
ghost use Rattle.at_logs.specs.Prelude.{AreTargetsOn, MessageList, most_logs};
ghost use Rattle.at_logs.specs.Entry.{EntryTerms, IsEntryOn};
ghost use Rattle.at_logs.specs.Logs.{logs_of};
ghost use Rattle.at_logs.specs.Reading.{IsHistoryOf, WhateverRead, no_tail, opened_terms, read_state, shown, tail_of, nothing_read};
ghost use Rattle.at_logs.specs.declared.tail.TheConstants.{ENTRIES_MAX};

use crate::compact::Compact;
use crate::entry::{Entry, EntryMessage};
use crate::logs::logs_of;
use crate::reading::read_entry;
use crate::restoring::read_saved;
use crate::saving::{SNAPSHOT_VERSION, put_tails};
use crate::spelling::{entry_bytes, hash_of, put_raw};
use crate::tail::{ENTRIES_MAX, Tail, is_same};
use at_broadcast::{LogCounts, MESSAGES_MAX};
use at_ledger::{Book, Targets};
use std::alloc::{AllocError, Global};
use std::marker::Model;

/// What a node has read of its logs, what it has validated of that, and what it has told. It keeps no message that it told: memory is in
/// proportion to logs, accounts, and what waits.
#[derive(Drop)]
pub struct Node {
    book: Book,
    hash: [u8; 32],
    core: Compact,
    tails: Vec<Tail>,
}

impl Model for Node {
    ghost use Rattle.at_logs.specs.Reading.{IsRecord, NodeTerms};

    ghost Value = { NodeTerms };

    ghost view = { λ n. record { book = n.book; hash = n.hash; core = n.core; tails = n.tails.items } };

    ghost invariant = { λ n. IsRecord (record { book = n.book; hash = n.hash; core = n.core; tails = n.tails.items }) };
}

/// What a node answers of the bytes at a place of a log.
#[derive(Clone, Copy, Debug)]
pub enum Answer {
    /// They spell an entry: it is read, and all that it makes valid is validated.
    Taken,
    /// They spell no entry of this log and place. They are passed over: the place counts, and the log goes on.
    NotAnEntry,
    /// They spell an entry that was made after other bytes than those at the place before: the log was rewritten. The node goes no further
    /// in it.
    Forked,
    /// Places before it weren't read yet.
    Gap,
    /// The place was read.
    Again,
}

/// A message that was validated: a pay-out of a log, by its number there, with the reference that its payer chose.
#[derive(Debug, Drop)]
pub struct Told {
    pub log: u32,
    pub number: u32,
    pub from: u32,
    pub targets: Targets,
    pub reference: [u8; 16],
}

/// A payment that was made: the bytes to append to a log at a place. Nothing counts it until its append was answered.
/// One whose append was refused is let go, and the node is as if it had never been made.
#[derive(Debug, Drop)]
pub struct Draft {
    pub log: u32,
    pub place: u32,
    pub bytes: Vec<u8>,
}

impl Node {
    ghost use Rattle.at_logs.specs.Answers.{ComesNext, Fits, IsAnswerAt, IsOneAnswer, IsSource, SpellsEntry, entry_book};
    ghost use Rattle.at_logs.specs.Calls.{CanResume, HasAnswered, HasMade, HasReadEntry, HasResumed, HasTold, Promises, passed_terms, told_terms};
    ghost use Rattle.at_logs.specs.Draft.{CanPay, IsDraft};
    ghost use Rattle.at_logs.specs.Prelude.{Covers, IsValid, Message, Reached, left};
    ghost use Rattle.at_logs.specs.SameLogs.{HasReadLogs, LogBytes};
    ghost use Rattle.at_logs.specs.Reading.{NodeTerms};
    ghost use Rattle.at_logs.specs.Snapshot.{WritesSnapshot, snapshot_bytes};
    ghost use Rattle.at_logs.specs.Telling.{IsFirstUntold, IsNextWithin, IsUntold};
    ghost use Rattle.at_logs.specs.declared.node.Answer.{Answer};

    /// A node that has read nothing of the logs of a book. Each entry has the hash of its book: a caller takes that of the book's file. None
    /// comes where there are more than 64 logs.
    pub fn open(alloc: Global, book: &Book, hash: &[u8; 32]) -> Result<Option<Node>, AllocError>
        ensures opened { IfOk result (λ found. found ≡ (if nat_le (logs_of book.now).logs most_logs then Some (opened_terms book.now hash.now) else None)) }
        ensures history { IfOk result (λ found. IfSome found (IsHistoryOf (nothing_read book.now))) }
        ensures read { IfOk result (λ found. IfSome found (λ n. (logs : LogBytes) → HasReadLogs book.now hash.now logs (read_state n (nothing_read book.now)))) }
    {
        let Some(logs) = logs_of(alloc, book)? else {
            return Ok(None);
        };
        let tails = new_tails(alloc, logs.logs())?;
        let copy = book.copy(alloc)?;
        let core = Compact::new(alloc, logs)?;
        core.known();
        Ok(Some(Node {
            book: copy,
            hash: *hash,
            core,
            tails,
        }))
    }

    /// The node that wrote these bytes as its snapshot, of a book with this hash: with the rest of the logs it is the node that stopped. None
    /// comes where no node of the book and hash writes them. It takes memory in proportion to the book and the bytes that are there, whatever
    /// lengths these tell.
    pub fn restore(
        alloc: Global,
        book: &Book,
        hash: &[u8; 32],
        bytes: &[u8],
    ) -> Result<Option<Node>, AllocError>
        ensures { IfOk result (λ found. (n : NodeTerms) → (found ≡ Some n) ↔ WritesSnapshot book.now hash.now bytes.now n) }
    {
        let Some(logs) = logs_of(alloc, book)? else {
            return Ok(None);
        };
        book.known();
        let Some(saved) = read_saved(alloc, logs, bytes)? else {
            return Ok(None);
        };
        if !saved.is_node_of(alloc, hash)? {
            return Ok(None);
        }
        let copy = book.copy(alloc)?;
        let core = Compact::restore(saved.core)?;
        Ok(Some(Node {
            book: copy,
            hash: *hash,
            core,
            tails: saved.tails,
        }))
    }

    /// Reads the bytes at a place of a log. What it says of the messages that were read holds whatever they are.
    pub fn take(
        &mut self,
        alloc: Global,
        log: u32,
        place: u32,
        bytes: &[u8],
    ) -> Result<Answer, AllocError>
        requires log_in { log < self.old.core.book.logs }
        requires place_in { place < ENTRIES_MAX }
        ensures answer { IfOk result (IsOneAnswer (shown self.old) log place bytes.now) }
        ensures left { IfOk result (λ a. WhateverRead self.old (λ s. HasAnswered s log place bytes.now a self.new)) }
        ensures err { OnErr result (self.new ≡ self.old) }
    {
        match self.next_entry(alloc, log, place, bytes)? {
            Ok(entry) => {
                self.read(alloc, log, &entry, bytes)?;
                Ok(Answer::Taken)
            }
            Err(answer) => {
                if matches!(answer, Answer::NotAnEntry) {
                    self.pass_over(log, bytes);
                }
                Ok(answer)
            }
        }
    }

    /// The entry that comes next there, or the answer why there is none.
    fn next_entry(
        &self,
        alloc: Global,
        log: u32,
        place: u32,
        bytes: &[u8],
    ) -> Result<Result<Entry, Answer>, AllocError>
        requires { log < self.now.core.book.logs }
        ensures fits { IfOk result (λ found. IfOk found (Fits (entry_book (shown self.now)) (tail_of (shown self.now) log) log place bytes.now)) }
        ensures only { IfOk result (λ found. IfOk found (λ e. (other : EntryTerms) → SpellsEntry (entry_book (shown self.now)) log bytes.now other → other ≡ e)) }
        ensures answer { IfOk result (λ found. IfErr found (IsAnswerAt (shown self.now) log place bytes.now)) }
        ensures untaken { IfOk result (λ found. IfErr found (λ a. a ≢ Answer.Taken)) }
    {
        let tail = &self.tails[log as usize];
        if place > tail.entries {
            return Ok(Err(Answer::Gap));
        }
        if place < tail.entries {
            return Ok(Err(Answer::Again));
        }
        let Some(entry) = self.spelled(alloc, log, bytes)? else {
            return Ok(Err(Answer::NotAnEntry));
        };
        if !is_same(&entry.before(), &tail.hash) {
            return Ok(Err(Answer::Forked));
        }
        if !tail.comes_next(log, &entry) {
            return Ok(Err(Answer::NotAnEntry));
        }
        Ok(Ok(entry))
    }

    /// The entry of the log that the bytes spell.
    fn spelled(&self, alloc: Global, log: u32, bytes: &[u8]) -> Result<Option<Entry>, AllocError>
        requires { log < self.now.core.book.logs }
        ensures { IfOk result (λ found. (e : EntryTerms) → (found ≡ Some e) ↔ SpellsEntry (entry_book (shown self.now)) log bytes.now e) }
    {
        self.core.known();
        let read = read_entry(
            alloc,
            self.core.logs(),
            self.book.accounts(),
            self.book.processes(),
            bytes,
        )?;
        let Some(entry) = read else {
            return Ok(None);
        };
        if !is_same(&entry.book(), &self.hash) || !self.has_sources(log, &entry) {
            return Ok(None);
        }
        Ok(Some(entry))
    }

    /// Whether each message of the entry has a source there.
    fn has_sources(&self, log: u32, entry: &Entry) -> bool
        requires { All (λ m. m.from < length self.now.book.accounts) entry.now.messages }
        ensures { IsTrue result ↔ All (λ m. IsSource (entry_book (shown self.now)) log entry.now.writer m.from) entry.now.messages }
    {
        for message in entry.messages() {
            if !self.is_source(log, entry.writer(), message.from) {
                return false;
            }
        }
        true
    }

    /// Whether the log debits the account, and the writer owns it.
    fn is_source(&self, log: u32, writer: u32, account: u32) -> bool
        requires { account < length self.now.book.accounts }
        ensures { IsTrue result ↔ IsSource (entry_book (shown self.now)) log writer account }
    {
        self.core.log_of(account) == Some(log) && self.book.slot_of(account, writer).is_some()
    }

    /// Counts an entry that comes next.
    fn read(
        &mut self,
        alloc: Global,
        log: u32,
        entry: &Entry,
        bytes: &[u8],
    ) -> Result<(), AllocError>
        requires log_in { log < self.old.core.book.logs }
        requires place_in { (tail_of (shown self.old) log).entries < ENTRIES_MAX }
        requires on { IsEntryOn self.old.core.book.logs (length self.old.book.accounts) self.old.book.processes
            entry.now }
        requires next { ComesNext (tail_of (shown self.old) log) log entry.now }
        ensures ok { OnOk result (WhateverRead self.old (λ s. HasReadEntry s log bytes.now entry.now self.new)) }
        ensures err { OnErr result (self.new ≡ self.old) }
    {
        self.core.known();
        let messages = entry.messages_in_log(alloc, log)?;
        self.core.extend(log, &messages)?;
        self.core.settle();
        let tail = &mut self.tails[log as usize];
        tail.entries += 1;
        tail.messages += entry.len();
        tail.deps = entry.deps().copy();
        tail.hash = hash_of(bytes);
        Ok(())
    }

    /// Counts the place of bytes that are no entry.
    fn pass_over(&mut self, log: u32, bytes: &[u8])
        requires log_in { log < self.old.core.book.logs }
        requires place_in { (tail_of (shown self.old) log).entries < ENTRIES_MAX }
        ensures passed { self.new ≡ passed_terms self.old log bytes.now }
        ensures history { (messages : List MessageList) → IsHistoryOf messages self.old → IsHistoryOf messages self.new }
    {
        let tail = &mut self.tails[log as usize];
        tail.entries += 1;
        tail.hash = hash_of(bytes);
    }

    /// Makes a payment by a process from what the node has validated, with a reference that the payer chooses. It changes nothing: the draft
    /// counts once its append was answered.
    /// None comes where no log debits the account, where the writer doesn't own it, where the node has read messages of the log that it
    /// hasn't validated, where the log is full, and where the balance is short.
    pub fn pay(
        &self,
        alloc: Global,
        writer: u32,
        from: u32,
        targets: &Targets,
        reference: &[u8; 16],
    ) -> Result<Option<Draft>, AllocError>
        requires writer_in { writer < self.now.book.processes }
        requires source_in { from < length self.now.book.accounts }
        requires targets_in { AreTargetsOn (length self.now.book.accounts) targets.now }
        ensures some { IfOk result (λ made. IfSome made (λ d. WhateverRead self.now (λ s. IsDraft s writer from targets.now reference.now d))) }
        ensures none { IfOk result (λ made. IfNone made ((log : ℕ) → log < self.now.core.book.logs → ¬ CanPay (shown self.now) log writer from targets.now)) }
    {
        let Some(log) = self.core.log_of(from) else {
            return Ok(None);
        };
        if log >= self.core.logs() || !self.can_pay(log, writer, from, targets) {
            return Ok(None);
        }
        let mut messages = Vec::new(alloc);
        messages.push(EntryMessage {
            from,
            targets: targets.copy(),
            reference: *reference,
        })?;
        let tail = &self.tails[log as usize];
        let entry = Entry::new(writer, self.core.counts(), self.hash, tail.hash, messages);
        Ok(Some(Draft {
            log,
            place: tail.entries,
            bytes: entry_bytes(alloc, &entry)?,
        }))
    }

    /// Whether the process can pay the amounts by this log.
    fn can_pay(&self, log: u32, writer: u32, from: u32, targets: &Targets) -> bool
        requires log_in { log < self.now.core.book.logs }
        requires source_in { from < length self.now.book.accounts }
        ensures { IsTrue result ↔ CanPay (shown self.now) log writer from targets.now }
    {
        let tail = &self.tails[log as usize];
        self.is_source(log, writer, from)
            && self.core.validated(log) == tail.messages
            && tail.messages < MESSAGES_MAX
            && tail.entries < ENTRIES_MAX
            && targets.sum() <= u128::from(self.core.balance(from))
    }

    /// Counts a draft whose append was answered, by reading it at its place. Then its payment is validated, here and wherever as much was read.
    pub fn appended(&mut self, alloc: Global, draft: &Draft) -> Result<Answer, AllocError>
        requires log_in { draft.now.log < self.old.core.book.logs }
        requires place_in { draft.now.place < ENTRIES_MAX }
        ensures answer { IfOk result (IsOneAnswer (shown self.old) draft.now.log draft.now.place draft.now.bytes.items) }
        ensures left { IfOk result (λ a. WhateverRead self.old (λ s. HasMade s draft.now a self.new)) }
        ensures err { OnErr result (self.new ≡ self.old) }
    {
        self.take(alloc, draft.log, draft.place, draft.bytes.as_slice())
    }

    /// The next message that is validated and wasn't told, of the lowest log that has one. Each is told once, after all that it rests on, so
    /// that what was told is always a legal run. None comes exactly where all that is validated was told.
    pub fn next_validated(&mut self) -> Option<Told>
        ensures some { IfSome result (λ told. WhateverRead self.old (λ s. HasTold s told self.new)) }
        ensures none { IfNone result (self.new ≡ self.old) }
        ensures all { IfNone result (WhateverRead self.old (λ s. s.told ≡ s.node.validated)) }
    {
        let told = self.untold()?;
        self.count_told(told.log);
        Some(told)
    }

    /// Counts the next message of a log as told, and lets it go.
    fn count_told(&mut self, log: u32)
        requires log_in { log < self.old.core.book.logs }
        requires validated { slice_index self.old.core.told log < slice_index self.old.core.validated log }
        ensures told { self.new ≡ told_terms self.old log }
        ensures fewer { left self.new.core.told + 1 ≡ left self.old.core.told }
        ensures history { (messages : List MessageList) (m : Message) → IsHistoryOf messages self.old
            → IsValid self.old.core.book messages self.old.core.told log m → IsHistoryOf messages self.new }
    {
        self.core.known();
        let _ = self.core.tell(log);
    }

    /// A message that can be told next, of the lowest log that has one.
    fn untold(&self) -> Option<Told>
        ensures some { IfSome result (λ told. WhateverRead self.now (λ s. IsUntold s told)) }
        ensures first { IfSome result (λ told. WhateverRead self.now (λ s. IsFirstUntold s told)) }
        ensures log { IfSome result (λ told. told.log < self.now.core.book.logs) }
        ensures validated { IfSome result (λ told. slice_index self.now.core.told told.log < slice_index self.now.core.validated told.log) }
        ensures none { IfNone result (WhateverRead self.now (λ s. s.told ≡ s.node.validated)) }
    {
        for log in 0..self.core.logs() {
            if let Some(told) = self.untold_of(log) {
                return Some(told);
            }
        }
        None
    }

    /// The next message of the log, if it can be told next.
    fn untold_of(&self, log: u32) -> Option<Told>
        requires { log < self.now.core.book.logs }
        ensures some { IfSome result (λ told. WhateverRead self.now (λ s. IsUntold s told)) }
        ensures log { IfSome result (λ told. told.log ≡ log) }
        ensures validated { IfSome result (λ _. slice_index self.now.core.told log < slice_index self.now.core.validated log) }
        ensures none { IfNone result (WhateverRead self.now (λ s. (m : Message) → ¬ IsValid s.node.book s.node.messages s.told log m)) }
    {
        self.core.known();
        let number = self.core.told_of(log);
        if number >= self.core.validated(log) {
            return None;
        }
        let message = self.core.first(log)?;
        if !self.core.has_told(&message.deps) {
            return None;
        }
        Some(Told {
            log,
            number,
            from: message.from,
            targets: message.targets.copy(),
            reference: message.reference,
        })
    }

    /// Goes on where a node that stopped had told so many messages of each log, and tells none of them again. It answers false, and changes
    /// nothing, exactly where this one has told more of a log, and where no node tells so many after what this one has read.
    pub fn resume(&mut self, told: &LogCounts) -> bool
        requires { length told.now ≡ self.old.core.book.logs }
        ensures done { OnTrue result (WhateverRead self.old (λ s. HasResumed s told.now self.new)) }
        ensures refused { OnFalse result (self.new ≡ self.old) }
        ensures exact { WhateverRead self.old (λ s. IsTrue result ↔ CanResume s told.now) }
    {
        if !self.reaches(told) {
            return false;
        }
        self.tell_to(told);
        true
    }

    /// Tells messages until so many of each log are told.
    fn tell_to(&mut self, told: &LogCounts)
        requires sized { length told.now ≡ self.old.core.book.logs }
        requires below { Covers told.now self.old.core.told }
        requires validated { Covers self.old.core.validated told.now }
        ensures { WhateverRead self.old (λ s. ∥ Reached s.node.book s.node.messages told.now ∥₁ → HasResumed s told.now self.new) }
    {
        self.core.known();
        while let Some(log) = self.next_within(&self.core.told(), told) {
            self.count_told(log);
        }
    }

    /// Whether so many messages of each log are told by some node that has read the same and told no less.
    fn reaches(&self, told: &LogCounts) -> bool
        requires { length told.now ≡ self.now.core.book.logs }
        ensures below { IsTrue result → Covers told.now self.now.core.told }
        ensures validated { IsTrue result → Covers self.now.core.validated told.now }
        ensures exact { WhateverRead self.now (λ s. IsTrue result ↔ CanResume s told.now) }
    {
        self.core.known();
        let mut counts = self.core.told();
        if !told.covers(&counts) || !self.core.has_validated(told) {
            return false;
        }
        while let Some(log) = self.next_within(&counts, told) {
            counts.set(log, counts.get(log) + 1);
        }
        counts.covers(told)
    }

    /// The lowest log whose next message at these counts is one of the first so many, and valid there.
    fn next_within(&self, counts: &LogCounts, told: &LogCounts) -> Option<u32>
        requires counted { length counts.now ≡ self.now.core.book.logs }
        requires sized { length told.now ≡ self.now.core.book.logs }
        requires untold { Covers counts.now self.now.core.told }
        requires validated { Covers self.now.core.validated told.now }
        ensures log { IfSome result (λ log. log < self.now.core.book.logs) }
        ensures within { IfSome result (λ log. slice_index counts.now log < slice_index told.now log) }
        ensures some { IfSome result (λ log. WhateverRead self.now
            (λ s. ∥ Reached s.node.book s.node.messages counts.now ∥₁ → IsNextWithin s.node counts.now told.now log)) }
        ensures none { IfNone result (WhateverRead self.now
            (λ s. ∥ Reached s.node.book s.node.messages counts.now ∥₁ → (log : ℕ) → ¬ IsNextWithin s.node counts.now told.now log)) }
    {
        for log in 0..self.core.logs() {
            if self.is_next_within(log, counts, told) {
                return Some(log);
            }
        }
        None
    }

    /// Whether the log's is.
    fn is_next_within(&self, log: u32, counts: &LogCounts, told: &LogCounts) -> bool
        requires log_in { log < self.now.core.book.logs }
        requires counted { length counts.now ≡ self.now.core.book.logs }
        requires sized { length told.now ≡ self.now.core.book.logs }
        requires untold { Covers counts.now self.now.core.told }
        requires validated { Covers self.now.core.validated told.now }
        ensures within { IsTrue result → slice_index counts.now log < slice_index told.now log }
        ensures exact { WhateverRead self.now
            (λ s. ∥ Reached s.node.book s.node.messages counts.now ∥₁ → (IsTrue result ↔ IsNextWithin s.node counts.now told.now log)) }
    {
        self.core.known();
        let number = counts.get(log);
        if number >= told.get(log) {
            return false;
        }
        match self.core.message(log, number) {
            Some(message) => counts.covers(&message.deps),
            None => false,
        }
    }

    /// All that the node keeps, as bytes. They name its book by its hash. `restore` gives just this node of them.
    pub fn snapshot(&self, alloc: Global) -> Result<Vec<u8>, AllocError>
        ensures spelled { IfOk result (λ bytes. bytes.items ≡ snapshot_bytes self.now) }
        ensures writes { IfOk result (λ bytes. WritesSnapshot self.now.book self.now.hash bytes.items self.now) }
    {
        self.core.known();
        let mut out = Vec::new(alloc);
        out.push(SNAPSHOT_VERSION)?;
        put_raw(&mut out, &self.hash)?;
        put_tails(&mut out, self.tails.as_slice())?;
        self.core.put(&mut out)?;
        Ok(out)
    }

    /// Tells a proof what is promised of the node, alone and beside any other of the same logs. It does nothing when it runs.
    pub fn known(&self)
        ensures { WhateverRead self.now Promises }
    {
        self.book.known();
    }

    /// How many logs there are.
    pub fn logs(&self) -> u32
        ensures { result ≡ self.now.core.book.logs }
    {
        self.core.logs()
    }

    /// The place of a log that is read next: so many were read.
    pub fn next_place(&self, log: u32) -> u32
        requires { log < self.now.core.book.logs }
        ensures { result ≡ (tail_of (shown self.now) log).entries }
    {
        self.tails[log as usize].entries
    }

    /// How many messages of each log were told.
    pub fn told(&self) -> LogCounts
        ensures { result ≡ self.now.core.told }
    {
        self.core.told()
    }

    /// How many messages of each log are validated.
    pub fn counts(&self) -> LogCounts
        ensures { result ≡ self.now.core.validated }
    {
        self.core.counts()
    }

    /// The balance of the account at these counts.
    pub fn balance(&self, account: u32) -> u64
        requires { account < length self.now.book.accounts }
        ensures { result ≡ slice_index self.now.core.balances account }
    {
        self.core.balance(account)
    }
}

/// A tail for each of so many logs.
fn new_tails(alloc: Global, logs: u32) -> Result<Vec<Tail>, AllocError>
    requires some { 1 ≤ logs }
    requires few { logs ≤ most_logs }
    ensures { IfOk result (λ tails. tails.items ≡ replicate logs (no_tail logs)) }
{
    let mut tails = Vec::new(alloc);
    for _ in 0..logs {
        tails.push(Tail::new(logs))?;
    }
    Ok(tails)
}
