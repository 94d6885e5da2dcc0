//! What a turn does.

ghost use Rattle.std.specs.Prelude.{◌≡◌, ◌==◌};
ghost use Rattle.at_stepper.specs.Callers.{answers_in, reply_in};

use at_ledger::Reply;
use at_log::Receipt;

/// What a turn of a process does: a step of its call, which goes on, or its last, with which it is answered.
#[derive(Drop)]
pub enum Turned {
    /// One step, after which the call goes on.
    Step,
    /// The call is answered by this receipt: in one step, and in none where it is refused.
    Answer(Receipt),
}

impl Turned {
    /// Whether a call is answered.
    pub fn is_answer(&self) -> bool
        ensures { result ≡ (answers_in self.now == 1) }
    {
        matches!(self, Turned::Answer(_))
    }

    /// The reply of the call that is answered, if one is.
    pub fn reply(&self) -> Option<Reply>
        ensures { result ≡ reply_in self.now }
    {
        match self {
            Turned::Step => None,
            Turned::Answer(receipt) => Some(receipt.reply),
        }
    }
}
