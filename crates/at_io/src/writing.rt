ghost use Rattle.std.specs.Prelude.{◌≡◌, ◌≤◌, true, ◌++◌, OnOk, OnErr};
ghost use Rattle.at_io.specs.Faults.{Rose};
ghost use Rattle.at_io.specs.Sink.{TakesPrefix};

use crate::sink::Sink;
use thiserror::Error;

/// Bytes could not all be written.
#[derive(Clone, Copy, Debug, PartialEq, Eq, Error)]
#[error("the bytes cannot all be written")]
pub struct WriteFault;

/// Writes all bytes, piece by piece as the sink takes them.
pub fn put_all<O: Sink>(sink: &mut O, bytes: &[u8]) -> Result<(), WriteFault>
    ensures as_told { O.tells sink.new ≡ O.tells sink.old }
    ensures later { O.faults sink.old ≤ O.faults sink.new }
    ensures kept { OnOk result (O.faults sink.new ≡ O.faults sink.old) }
    ensures all { O.tells sink.old ≡ true →
        OnOk result (O.taken sink.new ≡ O.taken sink.old ++ bytes.now) }
    ensures fault { OnErr result (Rose (O.faults sink.old) (O.faults sink.new)) }
    ensures prefix { O.tells sink.old ≡ true →
        OnErr result (TakesPrefix (O.taken sink.old) (O.taken sink.new) bytes.now) }
{
    let mut at = 0;
    while at < bytes.len() {
        let Ok(count) = sink.write(&bytes[at..]) else {
            return Err(WriteFault);
        };
        at += count;
    }
    Ok(())
}
