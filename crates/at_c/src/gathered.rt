//! Ledgers whose callers have all given back their passes.

ghost use Rattle.std.specs.Prelude.{◌≡◌, All, IfErr, IfOk, length};
ghost use Rattle.at_c.specs.Prelude.{AreNamesOf, contents_of, AreAccountedFor};
ghost use Rattle.at_c.specs.Endings.{EndsAs};
ghost use Rattle.at_c.specs.Given.{AreReceipts};

use crate::ended::Ended;
use at_files::Names;
use at_log::Receipt;
use at_object::{CloseRefused, Ledger, Pass};
use std::alloc::Global;
use std::marker::Model;

/// A ledger that no caller shares any more, with all its passes and the receipts of all calls.
#[derive(Drop)]
pub struct Gathered {
    ledger: Ledger,
    names: Names,
    passes: Vec<Pass>,
    receipts: Vec<Vec<Receipt>>,
}

impl Model for Gathered {
    ghost use Rattle.at_ledger.specs.Files.{contents_of};
    ghost use Rattle.at_c.specs.Endings.{GatheredTerms, IsGathered};

    ghost Value = { GatheredTerms };

    ghost view = { λ g. record {
      ledger = g.ledger;
      names = g.names;
      passes = g.passes.items;
      receipts = contents_of g.receipts.items;
    } };

    ghost invariant = { λ g. IsGathered (record {
      ledger = g.ledger;
      names = g.names;
      passes = g.passes.items;
      receipts = contents_of g.receipts.items;
    }) };
}

impl Gathered {
    /// A ledger with all passes in order, and the receipts of their calls.
    pub(crate) fn new(
        ledger: Ledger,
        names: Names,
        passes: Vec<Pass>,
        receipts: Vec<Vec<Receipt>>,
    ) -> Gathered
        requires named { AreNamesOf ledger.book names }
        requires accounted { AreAccountedFor ledger passes.items (contents_of receipts.items) }
        requires are { All (AreReceipts (length ledger.book.accounts)) (contents_of receipts.items) }
        ensures { result ≡ record {
          ledger = ledger;
          names = names;
          passes = passes.items;
          receipts = contents_of receipts.items;
        } }
    {
        Gathered {
            ledger,
            names,
            passes,
            receipts,
        }
    }

    /// Closes the ledger. Where there is no memory for that, all is as it was.
    pub(crate) fn closed(self, alloc: Global) -> Result<Ended, Gathered>
        ensures ok { IfOk result (EndsAs self) }
        ensures err { IfErr result (λ g. g ≡ self) }
    {
        let Gathered {
            ledger,
            names,
            passes,
            receipts,
        } = self;
        match ledger.close(alloc, passes, receipts) {
            Ok(closed) => Ok(Ended { closed, names }),
            Err(
                CloseRefused {
                    ledger,
                    passes,
                    receipts,
                },
            ) => Err(Gathered {
                ledger,
                names,
                passes,
                receipts,
            }),
        }
    }
}
