//! What is left of a ledger at the end.

ghost use Rattle.std.specs.Prelude.{◌≡◌, ◌<◌, ◌≤◌, length, map};

use crate::receipt::Receipt;
use crate::record::Record;
use std::marker::Model;

/// The records and the receipts of each process, from the first call to the last.
#[derive(Drop)]
pub struct Closing {
    logs: Vec<Vec<Record>>,
    receipts: Vec<Vec<Receipt>>,
}

impl Model for Closing {
    ghost use Rattle.std.specs.Prelude.{◌≡◌, ◌≤◌, length, map};
    ghost use Rattle.at_log.specs.ClosingTerms.{ClosingTerms};

    ghost Value = { ClosingTerms };

    ghost view = { λ c. record {
      logs = map (λ v. v.items) c.logs.items;
      receipts = map (λ v. v.items) c.receipts.items;
    } };

    ghost invariant = { λ c. (1 ≤ length c.logs.items) × (length c.logs.items ≤ 16)
        × (length c.receipts.items ≡ length c.logs.items) };
}

impl Closing {
    ghost use Rattle.at_log.specs.ClosingTerms.{log_of, receipts_of};

    /// A closing of these lists, those of process 0 first. Takes no memory.
    pub fn new(logs: Vec<Vec<Record>>, receipts: Vec<Vec<Receipt>>) -> Closing
        requires some { 1 ≤ length logs.items }
        requires few { length logs.items ≤ 16 }
        requires receipts { length receipts.items ≡ length logs.items }
        ensures logs { result.logs ≡ map (λ v. v.items) logs.items }
        ensures receipts { result.receipts ≡ map (λ v. v.items) receipts.items }
    {
        Closing { logs, receipts }
    }

    /// How many processes there are.
    pub fn processes(&self) -> u32
        ensures logs { result ≡ length self.now.logs }
        ensures receipts { result ≡ length self.now.receipts }
        ensures some { 1 ≤ result }
        ensures few { result ≤ 16 }
    {
        self.logs.len() as u32
    }

    /// The records of a process, in the order in which it published them.
    pub fn log(&self, p: u32) -> &[Record]
        requires { p < length self.now.logs }
        ensures { result.now ≡ log_of self.now p }
    {
        self.logs[p as usize].as_slice()
    }

    /// The receipts of a process, in the order of its calls.
    pub fn receipts(&self, p: u32) -> &[Receipt]
        requires { p < length self.now.receipts }
        ensures { result.now ≡ receipts_of self.now p }
    {
        self.receipts[p as usize].as_slice()
    }
}
