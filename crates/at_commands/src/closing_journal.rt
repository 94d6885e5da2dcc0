//! The lines of a closing's calls, which stand in its receipts.

ghost use Rattle.std.specs.Prelude.{◌≡◌, ◌<◌, ◌^◌, length, map, All};
ghost use Rattle.at_commands.specs.Prelude.{AreCallsOf, line_at, receipts_of, line_shown};

use at_journal::CallAt;
use at_log::Closing;
use at_report::{Journal, LineAt};

/// Calls of a closing in some order.
#[derive(Clone, Copy)]
pub(crate) struct ClosingJournal<'c> {
    pub(crate) closing: &'c Closing,
    pub(crate) calls: &'c [CallAt],
    ghost known: { AreCallsOf closing.now calls.now },
    ghost few: { All (λ receipts. length receipts < 2 ^ 32) closing.now.receipts },
}

/// A call of a closing as a line.
fn line_of_call<'c>(closing: &'c Closing, one: &CallAt) -> LineAt<'c>
    requires known { one.now.process < length closing.now.receipts }
    requires within { one.now.number < length (receipts_of closing.now one.now.process) }
    requires few { length (receipts_of closing.now one.now.process) < 2 ^ 32 }
    ensures { line_shown result ≡ line_at closing.now one.now }
{
    let receipt = &closing.receipts(one.process)[one.number as usize];
    LineAt {
        process: one.process,
        number: one.number + 1,
        call: &receipt.call,
        reply: receipt.reply,
    }
}

impl<'c> Journal for ClosingJournal<'c> {
    ghost lines = { λ j. map (line_at j.closing.now) j.calls.now };

    fn len(&self) -> usize {
        self.calls.len()
    }

    fn line(&self, i: usize) -> LineAt<'_> {
        line_of_call(self.closing, &self.calls[i])
    }
}
