//! The rule of the board's table.

ghost use Rattle.at_board.specs.Rule.{Ruled};
ghost use Rattle.at_board.specs.Knowledge.Parts.{starting_knowledge};

use crate::knowledge::Knowledge;
use at_ledger::Book;
use atomic_table::TableRule;
use std::snapshot::Snapshot;

/// The words stand for a sound state of the board that keeps the law of overtaking, and whatever a seat or a note has seen is in
/// it.
pub(crate) struct BoardRule {}

impl TableRule<(), Knowledge, Snapshot<Book>> for BoardRule {
    ghost holds = { λ key s. Ruled key.value s.words s.views };

    ghost first = { λ key. starting_knowledge key.value };
}
