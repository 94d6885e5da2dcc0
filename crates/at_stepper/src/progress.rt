//! How far a run is.

use crate::run::Run;
use at_log::Receipt;
use at_object::{Closed, Ledger, Pass};
use std::snapshot::Snapshot;

/// A run is made; or all its calls are answered, and what its ledger is closed with is put together; or the ledger is closed.
#[derive(Drop)]
pub(crate) enum Progress {
    Running(Run),
    Ended(EndedRun),
    Closed(ClosedRun),
}

/// A run whose calls are all answered, as its ledger is closed with it.
#[derive(Drop)]
pub(crate) struct EndedRun {
    pub(crate) ledger: Ledger,
    pub(crate) passes: Vec<Pass>,
    pub(crate) receipts: Vec<Vec<Receipt>>,
    /// The run that it was, for contracts alone.
    pub(crate) run: Snapshot<Run>,
}

/// A run whose ledger is closed.
#[derive(Drop)]
pub(crate) struct ClosedRun {
    pub(crate) closed: Closed,
    /// The run that it was, for contracts alone.
    pub(crate) run: Snapshot<Run>,
}
