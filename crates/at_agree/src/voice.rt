//! Voices: the right of one process to propose.

ghost use Rattle.std.specs.Prelude.{◌≡◌, ◌+◌, ◌*◌, ◌^◌, ◌<◌, ◌≤◌, IfOk, length};
ghost use Rattle.at_agree.specs.Council.{IsCouncil, shared_account, size_of, spent_account, value_account};
ghost use Rattle.at_agree.specs.Plan.{HasShareDecided, HasProposed, share_of};
ghost use Rattle.at_agree.specs.Voices.{HasMadeOneMore, HasNotProposed, HasRead, IsVoiceOf, process_of, seen_by};
ghost use Rattle.at_agree.specs.Prelude.{RECORD_WORDS, IsHistory, Call, asks_in, Stands, counted_anew, past_receipts, shared_steps, single_steps, snapshot_steps};

use arrayvec::ArrayVec;
use at_ledger::Reply;
use at_log::Receipt;
use at_object::{Ledger, Pass};
use std::alloc::{AllocError, Global};
use std::marker::Model;

/// The right of one process of a council to propose a value, once. It has the process's pass, and the receipts of its four calls.
/// One thread uses it at a time.
#[derive(Drop)]
pub struct Voice {
    pub(crate) pass: Pass,
    pub(crate) receipts: ArrayVec<Receipt, 4>,
}

impl Model for Voice {
    ghost use Rattle.at_agree.specs.Voices.{IsVoice, VoiceTerms};

    ghost Value = { VoiceTerms };

    ghost view = { λ v. record { pass = v.pass; receipts = v.receipts.items } };

    ghost invariant = { λ v. IsVoice (record { pass = v.pass; receipts = v.receipts.items }) };
}

impl Voice {
    /// The process that the voice belongs to.
    pub(crate) fn process(&self) -> u32
        ensures process { result ≡ process_of self.now }
        ensures known { result < self.now.pass.knows.book.processes }
    {
        self.pass.process()
    }

    /// The first call: pays the value from the process's own account into its value account. It is done in every case.
    pub(crate) fn pay_value(&mut self, ledger: &Ledger, size: u32, value: u64)
        requires council { IsCouncil ledger.now }
        requires size { size ≡ size_of ledger.now }
        requires voice { IsVoiceOf self.old ledger.now }
        requires unproposed { HasNotProposed self.old }
        requires value { value < 2 ^ 32 }
        ensures made { HasMadeOneMore ledger.now self.old self.new
            (Call.Transfer (process_of self.old) (value_account size (process_of self.old)) value) }
        ensures proposed { HasProposed size (seen_by self.new) (process_of self.old) value }
        ensures steps { self.new.pass.steps ≤ self.old.pass.steps + single_steps size
            + RECORD_WORDS * counted_anew self.old.pass self.new.pass }
        ensures exchanges { self.new.pass.exchanges ≡ self.old.pass.exchanges }
    {
        let process = self.pass.process();
        let paid = ledger.transfer(&mut self.pass, process, size + process, value);
        self.receipts.push(paid);
    }

    /// The second call: asks for at least half of the shared account.
    pub(crate) fn ask_for_share(&mut self, ledger: &Ledger, size: u32)
        requires council { IsCouncil ledger.now }
        requires size { size ≡ size_of ledger.now }
        requires voice { IsVoiceOf self.old ledger.now }
        requires some_room { length self.old.receipts < 4 }
        requires unasked { asks_in (shared_account size) self.old.receipts ≡ 0 }
        ensures made { HasMadeOneMore ledger.now self.old self.new
            (Call.Transfer (shared_account size) (spent_account size)
            (share_of size (process_of self.old))) }
        ensures asked { HasShareDecided size (seen_by self.new) (process_of self.old) }
        ensures steps { self.new.pass.steps ≤ self.old.pass.steps + shared_steps size size
            + RECORD_WORDS * counted_anew self.old.pass self.new.pass }
        ensures exchanges { self.new.pass.exchanges ≤ self.old.pass.exchanges + size }
    {
        let share = u64::from(2 * size - (self.pass.process() + 1));
        let asked = ledger.transfer(&mut self.pass, 2 * size, 2 * size + 1, share);
        self.receipts.push(asked);
    }

    /// The third and the fourth call: reads an account.
    pub(crate) fn find(&mut self, ledger: &Ledger, account: u32) -> u64
        requires voice { IsVoiceOf self.old ledger.now }
        requires account { account < length ledger.now.book.accounts }
        requires some_room { length self.old.receipts < 4 }
        ensures read { HasRead ledger.now self.old self.new account result }
        ensures stands { Stands self.new.pass self.new.receipts }
        ensures history { IsHistory ledger.now.book (seen_by self.new) }
        ensures steps { self.new.pass.steps
            ≤ self.old.pass.steps + snapshot_steps (size_of ledger.now)
            + RECORD_WORDS * counted_anew self.old.pass self.new.pass }
        ensures exchanges { self.new.pass.exchanges ≡ self.old.pass.exchanges }
    {
        let found = ledger.read(&mut self.pass, account);
        let balance = match found.reply {
            Reply::Balance(balance) => balance,
            // A read is answered a balance.
            _ => unreachable!(),
        };
        self.receipts.push(found);
        balance
    }

    /// The pass, and the receipts as a closing takes them.
    pub(crate) fn split(self, alloc: Global) -> Result<(Pass, Vec<Receipt>), AllocError>
        ensures pass { IfOk result (λ r. r.0 ≡ self.pass) }
        ensures receipts { IfOk result (λ r. r.1.items ≡ self.receipts) }
        ensures stands { Stands self.pass self.receipts }
        ensures past { past_receipts self.pass ≡ self.receipts }
    {
        let Voice { pass, receipts } = self;
        let list = receipts.into_iter().collect(alloc)?;
        Ok((pass, list))
    }
}
