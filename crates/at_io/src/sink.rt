ghost use Rattle.std.specs.Prelude.{◌≡◌, ℕ, ◌≤◌, ◌<◌, Bool, true, List, [], ◌++◌, length, take, IfOk, OnOk, OnErr};
ghost use Rattle.at_io.specs.Faults.{Rose};

use thiserror::Error;

/// Bytes could not be written.
#[derive(Clone, Copy, Debug, PartialEq, Eq, Error)]
#[error("the bytes cannot be written")]
pub struct WriteFailed;

/// What takes bytes, one after another.
pub trait Sink {
    // whether the sink tells what it has taken
    ghost tells: { Self → Bool };

    // the bytes taken so far
    ghost taken: { Self → List ℕ };

    // how many faults were counted
    ghost faults: { Self → ℕ };

    /// Takes a prefix of the piece, of one byte at least where the piece is not empty, and answers
    /// its length.
    fn write(&mut self, piece: &[u8]) -> Result<usize, WriteFailed>
        ensures as_told { tells self.new ≡ tells self.old }
        ensures later { faults self.old ≤ faults self.new }
        ensures kept { OnOk result (faults self.new ≡ faults self.old) }
        ensures failed { OnErr result (Rose (faults self.old) (faults self.new)) }
        ensures bound { IfOk result (λ n. n ≤ length piece.now) }
        ensures some { 0 < length piece.now → IfOk result (λ n. 0 < n) }
        ensures empty { piece.now ≡ [] → result ≡ Ok 0 }
        ensures prefix { tells self.old ≡ true →
            IfOk result (λ n. taken self.new ≡ taken self.old ++ take n piece.now) }
        ensures untaken { tells self.old ≡ true → OnErr result (taken self.new ≡ taken self.old) };
}
