//! A load of a record's entry.

ghost use Rattle.std.specs.Prelude.{◌≡◌, ◌+◌};
ghost use Rattle.at_log.specs.Prelude.{stepped, SeesRecord, IsOf, RECORD_WORDS};
ghost use Rattle.at_log.specs.Loading.{IsEntryOf};

use at_board::{Board, BoardSeat, Entry, RECORD_WORDS, entry_of};

/// The entry of a record that the seat has seen, in a step for each of its words. Takes no memory.
pub fn load_entry(board: &Board, seat: &mut BoardSeat, p: u32, i: u32) -> Entry
    requires board { IsOf seat.old board.now }
    requires record { SeesRecord seat.old.knows p i }
    ensures entry { IsEntryOf seat.old.knows p i result }
    ensures same { seat.new ≡ stepped seat.old RECORD_WORDS }
{
    board.book().known();
    seat.known();
    let mut words = [0u64; RECORD_WORDS as usize];
    for j in 0..RECORD_WORDS {
        words[j as usize] = board.load_record_word(seat, p, i, j).value();
    }
    entry_of(words)
}
