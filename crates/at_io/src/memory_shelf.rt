ghost use Rattle.std.specs.Prelude.{◌≡◌, ◌↔◌, ◌≤◌, ◌<◌, ◌++◌, ◌^◌, ◌-◌, true, false, [], map, take, length, IfOk, OnOk, OnErr, is_some, IsErr, ◌&&◌, not, is_ok};
ghost use Rattle.at_io.specs.HeldFiles.{named_file, file_of};
ghost use Rattle.at_io.specs.MemoryShelf.{next_fails, after_call, rest_chosen, rest_read, read_count};

use crate::faults::raised;
use crate::held_files::HeldFiles;
use crate::shelf::{ReadFailed, Shelf};
use std::marker::Model;

/// A shelf in memory, whose calls of `choose` and `read` are numbered from 0 together and fail at
/// given numbers. It tells its files, and the first of a name is the one that is read.
#[derive(Drop)]
pub struct MemoryShelf {
    held: HeldFiles,
    failing: Vec<u64>,
    grain: usize,
    calls: u64,
    faults: u64,
}

impl Model for MemoryShelf {
    ghost use Rattle.std.specs.Prelude.{◌<◌};
    ghost use Rattle.at_io.specs.MemoryShelf.{ShelfInMemory};

    ghost Value = { ShelfInMemory };

    ghost view = { λ s.
        record {
          held = s.held;
          failing = s.failing.items;
          grain = s.grain;
          calls = s.calls;
          faults = s.faults;
        } };

    ghost invariant = { λ s. 0 < s.grain };
}

impl MemoryShelf {
    /// A shelf of these files, by name, whose calls of these numbers fail.
    pub fn new(files: Vec<(String, Vec<u8>)>, failing: Vec<u64>) -> MemoryShelf
        ensures files { result.held.files ≡ map named_file files.items }
        ensures none_chosen { result.held.rest ≡ [] }
        ensures failing { result.failing ≡ failing.items }
        ensures grain { result.grain ≡ 2 ^ 64 - 1 }
        ensures calls { result.calls ≡ 0 }
        ensures faults { result.faults ≡ 0 }
    {
        MemoryShelf::with_grain(files, failing, usize::MAX)
    }

    /// The same, where a read gives at most `grain` bytes.
    pub fn with_grain(files: Vec<(String, Vec<u8>)>, failing: Vec<u64>, grain: usize) -> MemoryShelf
        requires { 0 < grain }
        ensures files { result.held.files ≡ map named_file files.items }
        ensures none_chosen { result.held.rest ≡ [] }
        ensures failing { result.failing ≡ failing.items }
        ensures grain { result.grain ≡ grain }
        ensures calls { result.calls ≡ 0 }
        ensures faults { result.faults ≡ 0 }
    {
        MemoryShelf {
            held: HeldFiles::new(files),
            failing,
            grain,
            calls: 0,
            faults: 0,
        }
    }

    /// Counts a call, and fails where its number is one of those that fail.
    fn count_call(&mut self) -> Result<(), ReadFailed>
        ensures ok { OnOk result (next_fails self.old ≡ false) }
        ensures err { OnErr result (next_fails self.old ≡ true) }
        ensures after { self.new ≡ after_call self.old self.old.held.rest }
        ensures later { self.old.faults ≤ self.new.faults }
    {
        let fails = self.failing.contains(&self.calls);
        self.calls = raised(self.calls);
        if fails {
            self.faults = raised(self.faults);
            return Err(ReadFailed);
        }
        Ok(())
    }
}

// The methods' clauses give the trait's.
impl Shelf for MemoryShelf {
    ghost use Rattle.std.specs.Prelude.{true};
    ghost use Rattle.at_io.specs.HeldFiles.{file_of};

    ghost tells = { λ _. true };

    ghost file = { λ s. file_of s.held.files };

    ghost rest = { λ s. s.held.rest };

    ghost faults = { λ s. s.faults };

    fn choose(&mut self, name: &str) -> Result<(), ReadFailed>
        ensures later { self.old.faults ≤ self.new.faults }
        ensures succeeds { is_ok result ≡
            (not (next_fails self.old) && is_some (file_of self.old.held.files name.now)) }
        ensures after { self.new ≡ after_call self.old (rest_chosen self.old name.now) }
    {
        if self.count_call().is_err() {
            self.held.close();
            return Err(ReadFailed);
        }
        if self.held.choose(name) {
            Ok(())
        } else {
            Err(ReadFailed)
        }
    }

    fn read(&mut self, buf: &mut [u8]) -> Result<usize, ReadFailed>
        ensures later { self.old.faults ≤ self.new.faults }
        ensures fails { next_fails self.old ≡ true → IsErr result }
        ensures count { next_fails self.old ≡ false →
            result ≡ Ok (read_count self.old (length buf.old)) }
        ensures bytes { IfOk result (λ n.
            self.old.held.rest ≡ take n buf.new ++ self.new.held.rest) }
        ensures end { IfOk result (λ n. 0 < length buf.old → (n ≡ 0) ↔ (self.old.held.rest ≡ [])) }
        ensures after { self.new ≡ after_call self.old (rest_read self.old (length buf.old)) }
    {
        match self.count_call() {
            Ok(()) => Ok(self.held.read(buf, self.grain)),
            Err(failed) => Err(failed),
        }
    }
}
