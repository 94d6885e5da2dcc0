//! The deliveries of messages to nodes.

ghost use Rattle.std.specs.Prelude.{◌≡◌, ◌≤◌, List, Ok, Err, All, IfErr, IfOk};
ghost use Rattle.at_files.specs.Limits.{most_messages};
ghost use Rattle.at_files.specs.Records.{file_records};
ghost use Rattle.at_files.specs.Deliveries.{Delivers, deliveries_of, delivery_of, delivery_to};

use crate::fields::number_at;
use crate::record::Record;
use crate::spelled::{BadRecord, ReadFault, RecordForm, read_items};
use at_base::Counts;
use std::alloc::Global;
use thiserror::Error;

/// The most deliveries of a file.
pub const DELIVERIES_MAX: u32 = 65_536;

/// The cause of the first fault of a file of deliveries.
#[derive(Clone, Copy, Debug, PartialEq, Eq, Error)]
pub enum OrderWhy {
    /// The file goes on after the most deliveries that it may have.
    #[error("too many deliveries")]
    TooManyDeliveries,
    /// There are not three fields.
    #[error("shape")]
    Shape,
    /// A field is no number.
    #[error("number")]
    Number,
    /// The node or the sender is no process of the book.
    #[error("unknown process")]
    UnknownProcess,
    /// The sender has no message of this number.
    #[error("unknown message")]
    UnknownMessage,
}

/// The first fault of a file of deliveries.
pub type BadOrder = BadRecord<OrderWhy>;

/// Why no deliveries came of a file.
pub type ReadOrderFault = ReadFault<OrderWhy>;

/// A message of a sender that is given to a node. Messages are numbered from 0.
#[derive(Clone, Copy, Debug, PartialEq, Eq)]
pub struct Delivery {
    pub node: u32,
    pub sender: u32,
    pub number: u32,
}

/// A delivery among processes that have so many messages each.
fn delivery_to(counts: &Counts, node: u64, sender: u64, number: u64) -> Result<Delivery, OrderWhy>
    ensures { result ≡ delivery_to counts.now node sender number }
{
    let processes = u64::from(counts.len());
    if node >= processes || sender >= processes {
        return Err(OrderWhy::UnknownProcess);
    }
    if number >= u64::from(counts.get(sender as u32)) {
        return Err(OrderWhy::UnknownMessage);
    }
    Ok(Delivery {
        node: node as u32,
        sender: sender as u32,
        number: number as u32,
    })
}

/// What a record of a file of deliveries has to be, where the processes have so many messages each.
#[derive(Drop)]
struct DeliveryForm<'a> {
    counts: &'a Counts,
}

impl<'a> RecordForm for DeliveryForm<'a> {
    type Item = Delivery;

    type Why = OrderWhy;

    ghost item = { λ form. delivery_of form.counts.now };

    fn item_of(&self, fields: &Record<'_>) -> Result<Delivery, OrderWhy> {
        if fields.len() != 3 {
            return Err(OrderWhy::Shape);
        }
        let node = number_at(fields, 0);
        let sender = number_at(fields, 1);
        let number = number_at(fields, 2);
        let (Some(node), Some(sender), Some(number)) = (node, sender, number) else {
            return Err(OrderWhy::Number);
        };
        delivery_to(self.counts, node, sender, number)
    }
}

/// Reads the file of deliveries. Entry p of `counts` is how many messages process p has, at most 256. All processes are numbers, in
/// books of both versions. A file without records is one without deliveries.
pub fn read_deliveries(
    alloc: Global,
    counts: &Counts,
    bytes: &[u8],
) -> Result<Vec<Delivery>, ReadOrderFault>
    requires { All (λ count. count ≤ most_messages) counts.now }
    ensures ok { IfOk result
        (λ deliveries. deliveries_of counts.now (file_records bytes.now) ≡ Ok deliveries.items) }
    ensures delivers { IfOk result
        (λ deliveries. Delivers counts.now (file_records bytes.now) deliveries.items) }
    ensures accepts { (deliveries : List Delivery)
        → Delivers counts.now (file_records bytes.now) deliveries
        → IfErr result (λ fault. fault ≡ ReadFault.NoMemory) }
    ensures bad { (b : BadRecord OrderWhy) → result ≡ Err (ReadFault.Bad b)
        → deliveries_of counts.now (file_records bytes.now) ≡ Err b }
{
    let _known = counts.len();
    let form = DeliveryForm { counts };
    read_items(
        alloc,
        &form,
        DELIVERIES_MAX,
        OrderWhy::TooManyDeliveries,
        bytes,
    )
}
