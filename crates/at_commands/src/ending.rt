//! How each command ends: the text that it made is written, and the answer says whether all of it was; or its refusal is
//! answered.

ghost use Rattle.std.specs.Prelude.{◌≡◌, ◌≤◌, IfOk, IfErr};
ghost use Rattle.at_commands.specs.Outcome.{outcome};
ghost use Rattle.at_commands.specs.Writing.{Ends, Wrote};
ghost use Rattle.at_commands.specs.Prelude.{joined};

use at_io::{Sink, put_all};
use at_object::Closed;
use at_report::{Pieces, Status};
use std::alloc::Global;

/// What a command prints, and the closed ledger on which it made calls, if it did.
#[derive(Drop)]
pub struct Printed {
    pub text: Pieces,
    pub closed: Option<Closed>,
}

impl Printed {
    /// A text of one piece, and the closed ledger that it is of, if it is of one.
    pub(crate) fn of(
        alloc: Global,
        text: Vec<u8>,
        closed: Option<Closed>,
    ) -> Result<Printed, Status>
        ensures text { IfOk result (λ p. p.text ≡ text.items) }
        ensures closed { IfOk result (λ p. p.closed ≡ closed) }
        ensures err { IfErr result (λ refusal. refusal ≡ Status.NoMemory) }
    {
        let text = Pieces::one(alloc, text)?;
        Ok(Printed { text, closed })
    }
}

/// Writes a whole text that was made before, piece after piece.
fn write_pieces<O: Sink>(out: &mut O, pieces: &[Vec<u8>]) -> Status
    ensures later { O.faults out.old ≤ O.faults out.new }
    ensures as_told { O.tells out.new ≡ O.tells out.old }
    ensures wrote { Wrote (O.tells out.old) (joined pieces.now) (O.taken out.old) (O.taken out.new)
        (O.faults out.old) (O.faults out.new) result }
{
    for piece in pieces {
        let Ok(()) = put_all(out, piece.as_slice()) else {
            return Status::WriteFault;
        };
    }
    Status::Done
}

/// Ends a command that has made this, or came to this refusal. A closed ledger is kept.
pub(crate) fn end_keeping<O: Sink>(
    made: Result<Printed, Status>,
    out: &mut O,
    kept: &mut Option<Closed>,
) -> Status
    ensures later { O.faults out.old ≤ O.faults out.new }
    ensures as_told { O.tells out.new ≡ O.tells out.old }
    ensures ends { Ends (λ (p : Printed). p.text) made
        (outcome O.tells O.taken O.faults out.old out.new kept.new result) }
    ensures kept { IfOk made (λ p. kept.new ≡ p.closed) }
    ensures untouched { IfErr made (λ _. (out.new ≡ out.old) × (kept.new ≡ kept.old)) }
{
    match made {
        Ok(Printed { text, closed }) => {
            *kept = closed;
            write_pieces(out, text.as_slice())
        }
        Err(refusal) => refusal,
    }
}
