//! Councils: processes that agree on one of the values that they propose.

ghost use Rattle.std.specs.Prelude.{◌≡◌, ◌+◌, ◌*◌, ◌^◌, ◌<◌, ◌≤◌, IfOk};
ghost use Rattle.at_agree.specs.Council.{IsCouncil, IsSize, council_book, size_of};
ghost use Rattle.at_agree.specs.Plan.{HasShareDecided, HasProposed, HasVoted, KeepsPlan, chosen, named_account};
ghost use Rattle.at_agree.specs.Voices.{AreNewVoices, HasNotProposed, IsVoiceOf, process_of, propose_steps, seen_by};
ghost use Rattle.at_agree.specs.Prelude.{RECORD_WORDS, IsPrefix, AreNewPasses, counted_anew};

use crate::book::book_for;
use crate::voice::Voice;
use arrayvec::ArrayVec;
use at_object::{Ledger, Pass};
use std::alloc::{AllocError, Global};
use std::marker::Model;

/// Two to eight processes that agree on one value. Threads share it by `&Council`, and each proposes with a voice of its own.
#[derive(Drop)]
pub struct Council {
    pub(crate) ledger: Ledger,
}

impl Model for Council {
    ghost use Rattle.at_agree.specs.Council.{IsCouncil};
    ghost use Rattle.at_agree.specs.Prelude.{BoardTerms};

    ghost Value = { BoardTerms };

    ghost view = { λ c. c.ledger };

    ghost invariant = { λ c. IsCouncil c.ledger };
}

impl Council {
    /// A council of this size, and one voice for each process, in order. Takes the memory that proposing needs.
    pub fn new(alloc: Global, size: u32) -> Result<(Council, Vec<Voice>), AllocError>
        requires { IsSize size }
        ensures book { IfOk result (λ r. r.0.book ≡ council_book size) }
        ensures voices { IfOk result (λ r. AreNewVoices r.0 r.1.items) }
    {
        let book = book_for(alloc, size)?;
        let (ledger, passes) = Ledger::new(alloc, &book)?;
        let voices = voices_for(alloc, &ledger, passes)?;
        Ok((Council { ledger }, voices))
    }

    /// Proposes a value, and answers the value that is chosen: where all processes keep to the plan, it is that of the process
    /// whose request was decided first. One voice can't see what others will do, so this is a premise.
    /// Takes no memory.
    pub fn propose(&self, voice: &mut Voice, value: u64) -> u64
        requires voice { IsVoiceOf voice.old self.now }
        requires unproposed { HasNotProposed voice.old }
        requires value { value < 2 ^ 32 }
        ensures proposed { HasProposed (size_of self.now) (seen_by voice.new)
            (process_of voice.old) value }
        ensures asked { HasShareDecided (size_of self.now) (seen_by voice.new)
            (process_of voice.old) }
        ensures agreed { KeepsPlan (size_of self.now) (seen_by voice.new)
            → HasProposed (size_of self.now) (seen_by voice.new)
            (chosen (size_of self.now) (seen_by voice.new)) result }
        ensures voted { HasVoted (size_of self.now)
            (process_of voice.old) value result voice.new.receipts }
        ensures voice { IsVoiceOf voice.new self.now }
        ensures process { process_of voice.new ≡ process_of voice.old }
        ensures begins { IsPrefix (seen_by voice.old) (seen_by voice.new) }
        ensures steps { voice.new.pass.steps
            ≤ voice.old.pass.steps + propose_steps (size_of self.now)
            + RECORD_WORDS * counted_anew voice.old.pass voice.new.pass }
        ensures exchanges { voice.new.pass.exchanges ≤ voice.old.pass.exchanges + size_of self.now }
    {
        let size = self.size();
        let process = voice.process();
        voice.pay_value(&self.ledger, size, value);
        voice.ask_for_share(&self.ledger, size);
        let left = voice.find(&self.ledger, 2 * size);
        let account = named_account(size, process, left);
        voice.find(&self.ledger, account)
    }

    /// How many processes there are.
    pub(crate) fn size(&self) -> u32
        ensures size { result ≡ size_of self.now }
        ensures council { IsCouncil self.now }
    {
        self.ledger.book().processes()
    }
}

/// The account that the last call of a process reads, where the call before it has found so much in the shared account.
fn named_account(size: u32, process: u32, left: u64) -> u32
    requires size { IsSize size }
    requires process { process < size }
    ensures account { result ≡ named_account size process left }
    ensures within { result < 2 * size }
{
    if 1 <= left && left <= u64::from(size) {
        size + (left - 1) as u32
    } else {
        size + process
    }
}

/// A voice for each pass of a new ledger.
fn voices_for(alloc: Global, ledger: &Ledger, passes: Vec<Pass>) -> Result<Vec<Voice>, AllocError>
    requires { AreNewPasses ledger.now passes.items }
    ensures { IfOk result (λ voices. AreNewVoices ledger.now voices.items) }
{
    let mut voices = Vec::with_capacity(alloc, passes.len())?;
    for pass in passes {
        voices.push(Voice {
            pass,
            receipts: ArrayVec::new(),
        })?;
    }
    Ok(voices)
}
