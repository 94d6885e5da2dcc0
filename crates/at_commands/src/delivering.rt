//! What `deliver` prints of a broadcast.

ghost use Rattle.std.specs.Prelude.{◌≡◌, ◌⊎◌, ◌≤◌, All, length, map, Ok, IfOk, IfErr};
ghost use Rattle.at_commands.specs.Commands.{IsOwnOrMemory};
ghost use Rattle.at_commands.specs.Delivering.{deliver_terms};
ghost use Rattle.at_commands.specs.Faults.{Kind};
ghost use Rattle.at_commands.specs.Forms.{IsFurther};
ghost use Rattle.at_commands.specs.Commanding.{IsLoadedForm, RefusesFurther};
ghost use Rattle.at_commands.specs.Loading.{SendsBytes, loaded_shown};
ghost use Rattle.at_commands.specs.Prelude.{contents_of, most_messages};

use crate::beside::Further;
use crate::ending::Printed;
use crate::file_forms::Messages;
use crate::loading::Loaded;
use crate::nodes::nodes_given;
use at_base::Counts;
use at_broadcast::Message;
use at_files::{Delivery, ReadOrderFault, location_of, read_deliveries};
use at_report::{Status, nodes_text};
use std::alloc::Global;

/// `deliver`: its further file is one of deliveries.
pub(crate) struct Delivering;

impl Further for Delivering {
    type Files = Messages;

    type Item = Delivery;

    ghost terms = { deliver_terms };

    fn read(
        alloc: Global,
        loaded: &Loaded<Message>,
        bytes: Vec<u8>,
    ) -> Result<Vec<Delivery>, Status> {
        read_order(alloc, loaded, bytes.as_slice())
    }

    fn text(
        alloc: Global,
        loaded: Loaded<Message>,
        further: Vec<Delivery>,
    ) -> Result<Printed, Status>
        requires loaded { IsLoadedForm SendsBytes loaded }
        requires further { IsFurther (deliver_terms.spells (loaded_shown loaded)) further.items }
        ensures prints { IfOk result (λ p. deliver_terms.prints
            (record { what = loaded_shown loaded; further = further.items }) p.closed p.text) }
        ensures err { IfErr result (IsOwnOrMemory (deliver_terms.refuses
            (record { what = loaded_shown loaded; further = further.items }))) }
    {
        let nodes = nodes_given(alloc, &loaded, further.as_slice())?;
        Printed::of(alloc, nodes_text(alloc, nodes.as_slice())?, None)
    }

    fn lawful() {}
}

/// How many messages each process has.
fn counts_of(files: &[Vec<Message>]) -> Counts
    requires some { 1 ≤ length files.now }
    requires few { length files.now ≤ 16 }
    requires each { All (λ messages. length messages ≤ most_messages) (contents_of files.now) }
    ensures { result ≡ map length (contents_of files.now) }
{
    let mut counts = Counts::zeros(files.len() as u32);
    for (p, messages) in files.iter().enumerate() {
        counts.set(p as u32, messages.len() as u32);
    }
    counts
}

/// The deliveries of these bytes, beside the messages that were loaded.
fn read_order(
    alloc: Global,
    loaded: &Loaded<Message>,
    bytes: &[u8],
) -> Result<Vec<Delivery>, Status>
    requires { IsLoadedForm SendsBytes loaded.now }
    ensures given { IfOk result
        (λ items. deliver_terms.given (loaded_shown loaded.now) bytes.now ≡ Ok items.items) }
    ensures spelled { IfOk result
        (λ items. deliver_terms.spells (loaded_shown loaded.now) bytes.now items.items) }
    ensures err { IfErr result (RefusesFurther Kind.messages
        (deliver_terms.given (loaded_shown loaded.now) bytes.now)) }
{
    let _known = loaded.book.accounts();
    let counts = counts_of(loaded.files.as_slice());
    match read_deliveries(alloc, &counts, bytes) {
        Ok(deliveries) => Ok(deliveries),
        Err(ReadOrderFault::Bad(bad)) => Err(Status::BadOrder {
            at: location_of(bytes, bad.line),
            why: bad.why,
        }),
        Err(ReadOrderFault::NoMemory) => Err(Status::NoMemory),
    }
}
