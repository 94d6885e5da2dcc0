//! What `agree` makes of the values that its words propose.

ghost use Rattle.std.specs.Prelude.{◌≡◌, ⊤, IfOk, IfErr};
ghost use Rattle.at_commands.specs.Agreed.{PrintsAgreed, agree_promise};
ghost use Rattle.at_commands.specs.Commanding.{Does};
ghost use Rattle.at_commands.specs.Limits.{MayAgreeOn};

use crate::commanding::{Command, answer_by};
use crate::ending::Printed;
use at_agree::agree;
use at_io::{Shelf, Sink};
use at_object::Closed;
use at_report::{Status, agreed_text};
use std::alloc::Global;
use std::thread::Threads;

/// The values of `agree`.
#[derive(Drop)]
pub(crate) struct Agree<'a> {
    values: &'a [u64],
}

impl Command for Agree<'_> {
    type Loaded = ();

    ghost What = { ⊤ };

    ghost shown = { λ l. tt };

    ghost known = { λ l. ⊤ };

    ghost promise = { λ s. agree_promise s.values.now };

    fn load<R: Threads + Sync, F: Shelf>(
        &self,
        _rt: &R,
        _alloc: Global,
        _shelf: &mut F,
    ) -> Result<(), Status> {
        Ok(())
    }

    fn lawful(&self) {}
}

/// The line of the value that the processes agree on, each of which proposes one of the values, by threads.
fn agreement<R: Threads + Sync>(rt: &R, alloc: Global, values: &[u64]) -> Result<Printed, Status>
    requires { MayAgreeOn values.now }
    ensures prints { IfOk result (λ p. PrintsAgreed values.now p.closed p.text) }
    ensures err { IfErr result (λ refusal. refusal ≡ Status.NoMemory) }
{
    let agreed = agree(rt, alloc, values)?;
    let text = agreed_text(alloc, values.len() as u32, agreed.value)?;
    Printed::of(alloc, text, Some(agreed.closed))
}

/// Does what the words of `agree` ask.
pub(crate) fn answer_agree<R: Threads + Sync, F: Shelf, O: Sink>(
    rt: &R,
    alloc: Global,
    shelf: &mut F,
    out: &mut O,
    values: &[u64],
    kept: &mut Option<Closed>,
) -> Status
    requires { MayAgreeOn values.now }
    ensures { Does (agree_promise values.now) F.tells F.file F.faults O.tells O.taken O.faults
        shelf.old shelf.new out.old out.new kept.old kept.new result }
{
    let text = |_loaded: ()| -> Result<Printed, Status>
        requires { MayAgreeOn values.now }
        ensures prints { IfOk result (λ p. PrintsAgreed values.entry.now p.closed p.text) }
        ensures err { IfErr result (λ refusal. refusal ≡ Status.NoMemory) }
    { agreement(rt, alloc, values) };
    answer_by(rt, alloc, shelf, out, &Agree { values }, text, kept)
}
