ghost use Rattle.std.specs.Prelude.{◌≡◌, ◌≤◌, ◌<◌, ◌^◌, ◌-◌, true, false, [], length, IfOk, IsErr};
ghost use Rattle.at_io.specs.MemorySink.{write_count, write_fails, after_write};

use crate::faults::raised;
use crate::sink::{Sink, WriteFailed};
use std::alloc::{AllocError, Global};
use std::marker::Model;

/// A sink in memory, which takes up to so many bytes in all, and tells them. A piece for which no
/// room is left is a fault.
#[derive(Drop)]
pub struct MemorySink {
    taken: Vec<u8>,
    room: usize,
    grain: usize,
    faults: u64,
}

impl Model for MemorySink {
    ghost use Rattle.std.specs.Prelude.{◌<◌, ◌≤◌, length, vec_capacity};
    ghost use Rattle.at_io.specs.MemorySink.{SinkInMemory, HasRoom};

    ghost Value = { SinkInMemory };

    ghost view = { λ s.
        record { room = s.room; grain = s.grain; taken = s.taken.items; faults = s.faults } };

    ghost invariant = { λ s. HasRoom s.room s.grain (length s.taken.items) (vec_capacity s.taken) };
}

impl MemorySink {
    /// A sink with room for so many bytes.
    pub fn new(alloc: Global, room: usize) -> Result<MemorySink, AllocError>
        ensures room { IfOk result (λ s. s.room ≡ room) }
        ensures grain { IfOk result (λ s. s.grain ≡ 2 ^ 64 - 1) }
        ensures taken { IfOk result (λ s. s.taken ≡ []) }
        ensures faults { IfOk result (λ s. s.faults ≡ 0) }
    {
        MemorySink::with_grain(alloc, room, usize::MAX)
    }

    /// The same, where a write takes at most `grain` bytes.
    pub fn with_grain(alloc: Global, room: usize, grain: usize) -> Result<MemorySink, AllocError>
        requires { 0 < grain }
        ensures room { IfOk result (λ s. s.room ≡ room) }
        ensures grain { IfOk result (λ s. s.grain ≡ grain) }
        ensures taken { IfOk result (λ s. s.taken ≡ []) }
        ensures faults { IfOk result (λ s. s.faults ≡ 0) }
    {
        let taken = Vec::with_capacity(alloc, room)?;
        Ok(MemorySink {
            taken,
            room,
            grain,
            faults: 0,
        })
    }

    /// The bytes taken so far.
    pub fn taken(&self) -> &[u8]
        ensures { result.now ≡ self.now.taken }
    {
        self.taken.as_slice()
    }
}

// The method's clauses give the trait's.
impl Sink for MemorySink {
    ghost use Rattle.std.specs.Prelude.{true};

    ghost tells = { λ _. true };

    ghost taken = { λ s. s.taken };

    ghost faults = { λ s. s.faults };

    fn write(&mut self, piece: &[u8]) -> Result<usize, WriteFailed>
        ensures later { self.old.faults ≤ self.new.faults }
        ensures fails { write_fails self.old (length piece.now) ≡ true → IsErr result }
        ensures count { write_fails self.old (length piece.now) ≡ false →
            result ≡ Ok (write_count self.old (length piece.now)) }
        ensures some { 0 < length piece.now → IfOk result (λ n. 0 < n) }
        ensures after { self.new ≡ after_write self.old piece.now }
    {
        if piece.is_empty() {
            return Ok(0);
        }
        let left = self.room - self.taken.len();
        if left == 0 {
            self.faults = raised(self.faults);
            return Err(WriteFailed);
        }
        let count = self.grain.min(piece.len().min(left));
        let Ok(()) = self.taken.extend_from_slice(&piece[..count]) else {
            unreachable!()
        };
        Ok(count)
    }
}
