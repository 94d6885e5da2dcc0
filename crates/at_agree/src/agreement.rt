//! The agreement of all voices of one council.

ghost use Rattle.std.specs.Prelude.{◌≡◌, ℕ, ◌<◌, ◌^◌, All, IfOk, length, map, slice_index_or};
ghost use Rattle.at_agree.specs.Agreement.{AreCast, IsAgreement, IsCast, MayVote, StandsByItself, values_of};
ghost use Rattle.at_agree.specs.Council.{IsSize};
ghost use Rattle.at_agree.specs.declared.votes.Vote.{Vote};
ghost use Rattle.at_agree.specs.Prelude.{contents_of};

use crate::council::Council;
use crate::votes::{Vote, propose_one, votes_of};
use at_log::Receipt;
use at_object::{Closed, Pass};
use std::alloc::{AllocError, Global};
use std::thread::{Threads, for_each_mut};

/// The value that all processes agreed on, and what is left of their ledger, in which each of their calls stands.
#[derive(Drop)]
pub struct Agreed {
    pub value: u64,
    pub closed: Closed,
}

/// Each value is proposed by a process of its own, in a thread of its own. All processes get one answer, which is one of the values.
/// The closed ledger shows it, whatever the threads' steps were.
pub fn agree<R: Threads + Sync>(rt: &R, alloc: Global, values: &[u64]) -> Result<Agreed, AllocError>
    requires size { IsSize (length values.now) }
    requires small { All (λ v. v < 2 ^ 32) values.now }
    ensures { IfOk result (λ a. IsAgreement values.now a.closed a.value) }
{
    let (council, voices) = Council::new(alloc, values.len() as u32)?;
    let mut votes = votes_of(alloc, &council, voices, values)?;
    propose_all(rt, &council, &mut votes);
    close(alloc, council, votes)
}

/// Makes all votes, each by a thread of its own.
fn propose_all<R: Threads + Sync>(rt: &R, council: &Council, votes: &mut Vec<Vote>)
    requires { All (MayVote council.now) votes.old.items }
    ensures count { length votes.new.items ≡ length votes.old.items }
    ensures cast { (p : ℕ) (d : Vote) → p < length votes.old.items → IsCast council.now
        (slice_index_or votes.old.items p d) (slice_index_or votes.new.items p d) }
{
    let threads = votes.len().max(1);
    for_each_mut(
        rt,
        votes.as_mut_slice(),
        threads,
        &|_process: usize, vote: &mut Vote|
            requires { MayVote council.now vote.old }
            ensures { IsCast council.entry.now vote.old vote.new }
        { propose_one(council, vote) },
    );
}

/// Closes the council's ledger with all passes and receipts. The answer is that of process 0, and of all others.
fn close(alloc: Global, council: Council, votes: Vec<Vote>) -> Result<Agreed, AllocError>
    requires some { 0 < length votes.items }
    requires made { AreCast council votes.items }
    ensures { IfOk result (λ a. IsAgreement (values_of votes.items) a.closed a.value) }
{
    let value = votes[0].answer;
    let (passes, receipts) = parted(alloc, votes)?;
    match council.ledger.close(alloc, passes, receipts) {
        Ok(closed) => {
            closed.book().known();
            Ok(Agreed { value, closed })
        }
        Err(_refused) => Err(AllocError),
    }
}

/// The passes and the receipts of all processes.
fn parted(alloc: Global, votes: Vec<Vote>) -> Result<(Vec<Pass>, Vec<Vec<Receipt>>), AllocError>
    ensures passes { IfOk result (λ r. r.0.items ≡ map (λ x. x.voice.pass) votes.items) }
    ensures receipts { IfOk result
        (λ r. contents_of r.1.items ≡ map (λ x. x.voice.receipts) votes.items) }
    ensures stands { IfOk result (λ r. All StandsByItself votes.items) }
{
    let mut passes = Vec::with_capacity(alloc, votes.len())?;
    let mut receipts = Vec::with_capacity(alloc, votes.len())?;
    for vote in votes {
        let (pass, told) = vote.voice.split(alloc)?;
        passes.push(pass)?;
        receipts.push(told)?;
    }
    Ok((passes, receipts))
}
