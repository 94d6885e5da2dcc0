//! What callers give back to their ledger, and what they leave for one another.

ghost use Rattle.std.specs.Prelude.{◌≡◌};
ghost use Rattle.at_c.specs.Prelude.{IsOf};
ghost use Rattle.at_c.specs.Given.{IsGivenBack};

use at_log::Receipt;
use at_object::{Ledger, Note, Pass};
use counted_slot::Fits;
use std::snapshot::Snapshot;

/// Whose a place is: that of a process of a ledger, for another process; a process has one place for what it gives back, which is for
/// process 0. The ledger stands in clauses alone.
#[derive(Drop)]
pub struct Owner {
    pub ledger: Snapshot<Ledger>,
    pub process: u32,
    pub to: u32,
}

/// A pass that its caller has given back, with the receipts of all its calls.
#[derive(Drop)]
pub struct Given {
    pub(crate) pass: Pass,
    pub(crate) receipts: Vec<Receipt>,
}

impl Fits for Given {
    type Tag = Owner;

    ghost fits = { λ o g. IsGivenBack o.ledger.value g.pass g.receipts.items
        × (g.pass.knows.first ≡ o.process) };
}

/// A note that one caller has left for another, with whom it is for.
#[derive(Drop)]
pub struct LeftNote {
    pub(crate) note: Note,
    pub(crate) to: u32,
}

impl Fits for LeftNote {
    type Tag = Owner;

    ghost fits = { λ o l. IsOf l.note o.ledger.value × (l.note.knows.first ≡ o.process)
        × (l.to ≡ o.to) };
}
