//! Nodes that messages are delivered to.

ghost use Rattle.std.specs.Prelude.{◌≡◌, ◌<◌, ◌++◌, [], ◌∷◌, length, replicate, All, List, Ok, IfOk, OnOk};
ghost use Rattle.at_commands.specs.Prelude.{singles_of, IsNode, starting_state, contents_of, IsDelivery, Delivery};
ghost use Rattle.at_commands.specs.Loading.{loaded_shown};
ghost use Rattle.at_commands.specs.Nodes.{AreNodesOf, AreSent, IsNodeOf, counts_of};

use crate::loading::Loaded;
use at_broadcast::{LogBook, Message, Node};
use at_files::Delivery;
use at_ledger::Book;
use std::alloc::{AllocError, Global};

/// A node for each process, to which nothing was delivered.
fn new_nodes(alloc: Global, book: &Book) -> Result<Vec<Node>, AllocError>
    ensures nodes { IfOk result
        (λ nodes. nodes.items ≡ replicate book.now.processes (starting_state (singles_of book.now))) }
    ensures steady { IfOk result (λ nodes. All IsNode nodes.items) }
{
    let logs = LogBook::of_singles(alloc, book)?;
    let mut nodes = Vec::new(alloc);
    for _process in 0..book.processes() {
        let node = Node::new(alloc, &logs)?;
        node.known();
        nodes.push(node)?;
    }
    Ok(nodes)
}

/// Delivers the message of one delivery to its node.
fn deliver_one(
    node: &mut Node,
    sent: &Loaded<Message>,
    delivery: &Delivery,
) -> Result<(), AllocError>
    requires count { length sent.now.files.items ≡ sent.now.book.processes }
    requires sent { All (AreSent sent.now.book) (contents_of sent.now.files.items) }
    requires delivery { IsDelivery (counts_of (loaded_shown sent.now)) delivery.now }
    requires book { node.old.book ≡ singles_of sent.now.book }
    ensures { (done : List Delivery)
        → IsNodeOf (loaded_shown sent.now) done delivery.now.node node.old
        → OnOk result
        (IsNodeOf (loaded_shown sent.now) (done ++ delivery.now ∷ []) delivery.now.node node.new) }
{
    let message = &sent.files[delivery.sender as usize][delivery.number as usize];
    let Ok(_) = node.deliver(delivery.sender, delivery.number, message) else {
        return Err(AllocError);
    };
    node.known();
    Ok(())
}

/// Delivers the messages of the deliveries, one after another.
fn deliver_all(
    nodes: &mut Vec<Node>,
    sent: &Loaded<Message>,
    deliveries: &[Delivery],
) -> Result<(), AllocError>
    requires count { length sent.now.files.items ≡ sent.now.book.processes }
    requires sent { All (AreSent sent.now.book) (contents_of sent.now.files.items) }
    requires deliveries { All (IsDelivery (counts_of (loaded_shown sent.now))) deliveries.now }
    requires each { length nodes.old.items ≡ sent.now.book.processes }
    requires fresh { AreNodesOf (loaded_shown sent.now) [] nodes.old.items }
    ensures count { OnOk result (length nodes.new.items ≡ sent.now.book.processes) }
    ensures nodes { OnOk result
        (AreNodesOf (loaded_shown sent.now) deliveries.now nodes.new.items) }
{
    for delivery in deliveries {
        deliver_one(&mut nodes[delivery.node as usize], sent, delivery)?;
    }
    Ok(())
}

/// The nodes of the processes after all deliveries, each with the message of its sender. A repeated delivery changes
/// nothing. Memory is taken in proportion to the product of processes and accounts, and for each delivery.
pub fn nodes_given(
    alloc: Global,
    sent: &Loaded<Message>,
    deliveries: &[Delivery],
) -> Result<Vec<Node>, AllocError>
    requires count { length sent.now.files.items ≡ sent.now.book.processes }
    requires sent { All (AreSent sent.now.book) (contents_of sent.now.files.items) }
    requires deliveries { All (IsDelivery (counts_of (loaded_shown sent.now))) deliveries.now }
    ensures count { IfOk result (λ nodes. length nodes.items ≡ sent.now.book.processes) }
    ensures nodes { IfOk result
        (λ nodes. AreNodesOf (loaded_shown sent.now) deliveries.now nodes.items) }
{
    let mut nodes = new_nodes(alloc, &sent.book)?;
    deliver_all(&mut nodes, sent, deliveries)?;
    Ok(nodes)
}
