//! Votes: a voice with the value that it proposes, and the answer.

ghost use Rattle.std.specs.Prelude.{◌≡◌, ◌<◌, ◌^◌, All, IfOk, length};
ghost use Rattle.at_agree.specs.Agreement.{AllMayVote, IsCast, MayVote};
ghost use Rattle.at_agree.specs.Voices.{AreNewVoices};

use crate::council::Council;
use crate::voice::Voice;
use std::alloc::{AllocError, Global};

/// A voice with the value that it proposes. The answer is 0 until it has proposed.
#[derive(Drop)]
pub(crate) struct Vote {
    pub(crate) voice: Voice,
    pub(crate) value: u64,
    pub(crate) answer: u64,
}

/// One vote for each voice, in order.
pub(crate) fn votes_of(
    alloc: Global,
    council: &Council,
    voices: Vec<Voice>,
    values: &[u64],
) -> Result<Vec<Vote>, AllocError>
    requires voices { AreNewVoices council.now voices.items }
    requires count { length values.now ≡ length voices.items }
    requires small { All (λ v. v < 2 ^ 32) values.now }
    ensures { IfOk result (λ votes. AllMayVote council.now values.now votes.items) }
{
    let mut votes = Vec::with_capacity(alloc, values.len())?;
    let mut rest = voices.into_iter();
    for value in values {
        let Some(voice) = rest.next() else {
            // There is a voice for each value.
            unreachable!()
        };
        votes.push(Vote {
            voice,
            value: *value,
            answer: 0,
        })?;
    }
    Ok(votes)
}

/// Proposes.
pub(crate) fn propose_one(council: &Council, vote: &mut Vote)
    requires { MayVote council.now vote.old }
    ensures { IsCast council.now vote.old vote.new }
{
    vote.answer = council.propose(&mut vote.voice, vote.value);
}
