ghost use Rattle.std.specs.Prelude.{◌≡◌, ◌↔◌, ℕ, ◌≤◌, ◌<◌, ◌⊎◌, Bool, true, List, [], ◌++◌, length, take, Option, IfOk, OnOk, OnErr};
ghost use Rattle.at_io.specs.Faults.{Rose};
ghost use Rattle.at_io.specs.Shelf.{SameFiles, LacksFile};

use thiserror::Error;

/// A file could not be chosen or read.
#[derive(Clone, Copy, Debug, PartialEq, Eq, Error)]
#[error("the file cannot be read")]
pub struct ReadFailed;

/// Files by name, one of which is chosen and read from its start.
pub trait Shelf {
    // whether the shelf tells what its files hold
    ghost tells: { Self → Bool };

    // the bytes of the file of a name
    ghost file: { Self → List ℕ → Option (List ℕ) };

    // the bytes of the chosen file that are not read yet
    ghost rest: { Self → List ℕ };

    // how many faults were counted
    ghost faults: { Self → ℕ };

    /// Makes a file the chosen one, to be read from its start. A shelf that does not tell its files
    /// counts a missing file as a fault.
    fn choose(&mut self, name: &str) -> Result<(), ReadFailed>
        ensures files { SameFiles (tells self.old) (tells self.new)
            (file self.old) (file self.new) }
        ensures later { faults self.old ≤ faults self.new }
        ensures kept { OnOk result (faults self.new ≡ faults self.old) }
        ensures failed { OnErr result (Rose (faults self.old) (faults self.new)
            ⊎ LacksFile (tells self.old) (file self.old name.now)) }
        ensures chosen { tells self.old ≡ true →
            OnOk result (file self.old name.now ≡ Some (rest self.new)) }
        ensures none_chosen { tells self.old ≡ true → OnErr result (rest self.new ≡ []) };

    /// Reads the next bytes of the chosen file into the start of `buf`, and answers how many. With
    /// no file chosen there are none. After a failure `buf` may hold anything.
    fn read(&mut self, buf: &mut [u8]) -> Result<usize, ReadFailed>
        ensures files { SameFiles (tells self.old) (tells self.new)
            (file self.old) (file self.new) }
        ensures later { faults self.old ≤ faults self.new }
        ensures kept { OnOk result (faults self.new ≡ faults self.old) }
        ensures failed { OnErr result (Rose (faults self.old) (faults self.new)) }
        ensures bound { IfOk result (λ n. n ≤ length buf.old) }
        ensures bytes { tells self.old ≡ true →
            IfOk result (λ n. rest self.old ≡ take n buf.new ++ rest self.new) }
        ensures end { tells self.old ≡ true →
            IfOk result (λ n. 0 < length buf.old → (n ≡ 0) ↔ (rest self.old ≡ [])) }
        ensures unread { tells self.old ≡ true → OnErr result (rest self.new ≡ rest self.old) };
}
