//! Texts whose pieces stand apart.

ghost use Rattle.std.specs.Prelude.{◌≡◌, ◌++◌, [], IfOk, OnOk};
ghost use Rattle.at_report.specs.Pieces.{joined};

use std::alloc::{AllocError, Global};
use std::marker::Model;

/// A text in pieces, one after another. None is copied to stand with the others.
#[derive(Drop)]
pub struct Pieces {
    pieces: Vec<Vec<u8>>,
}

impl Model for Pieces {
    ghost use Rattle.std.specs.Prelude.{ℕ, List};
    ghost use Rattle.at_report.specs.Pieces.{joined};

    ghost Value = { List ℕ };

    ghost view = { λ p. joined p.pieces.items };
}

impl Pieces {
    /// A text without pieces.
    pub(crate) fn new(alloc: Global) -> Pieces
        ensures { result ≡ [] }
    {
        Pieces {
            pieces: Vec::new(alloc),
        }
    }

    /// A text in one piece.
    pub fn one(alloc: Global, text: Vec<u8>) -> Result<Pieces, AllocError>
        ensures { IfOk result (λ p. p ≡ text.items) }
    {
        let mut pieces = Pieces::new(alloc);
        pieces.push(text)?;
        Ok(pieces)
    }

    /// Adds a piece.
    pub(crate) fn push(&mut self, piece: Vec<u8>) -> Result<(), AllocError>
        ensures { OnOk result (self.new ≡ self.old ++ piece.items) }
    {
        self.pieces.push(piece)?;
        Ok(())
    }

    /// Adds the pieces of another text.
    pub(crate) fn append(&mut self, more: Pieces) -> Result<(), AllocError>
        ensures { OnOk result (self.new ≡ self.old ++ more) }
    {
        let Pieces { mut pieces } = more;
        self.pieces.append(&mut pieces)
    }

    /// The pieces, in order.
    pub fn as_slice(&self) -> &[Vec<u8>]
        ensures { joined result.now ≡ self.now }
    {
        self.pieces.as_slice()
    }
}
