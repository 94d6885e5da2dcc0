//! What the rule of a table says of two seats at once.

ghost use Rattle.std.specs.Prelude.{◌≡◌, ◌<◌};
ghost use Rattle.at_board.specs.Steps.Meetings.{AreSeen};

use atomic_table::{Seat, Shared, TableRule};
use std::marker::Brand;
use std::sync::atomic::Ordering::SeqCst;
use std::sync::atomic::raw;

/// Tells that the table had a state in which its rule held and two different seats knew this. A step of the table tells
/// of its own seat alone. This loads a word of its own and none of the table's, so it is no step on the table.
pub(crate) fn meet<S, V, K, P: TableRule<S, V, K>>(
    table: &Shared<S, V, K, P>,
    one: &mut Seat<S, V>,
    other: &mut Seat<S, V>,
)
    requires one { one.old.table_id ≡ table.now.table_id }
    requires other { other.old.table_id ≡ table.now.table_id }
    ensures one { one.new ≡ one.old }
    ensures other { other.new ≡ other.old }
    ensures seen { AreSeen (P.holds table.now.key) one.old.id
        one.old.me.0 other.old.id other.old.me.0 }
{
    let word: u64 = 0;
    unsafe { raw::load::<Brand>(&raw const word, SeqCst) };
}
