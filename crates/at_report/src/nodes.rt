//! The output of nodes that messages were delivered to.

ghost use Rattle.std.specs.Prelude.{◌≡◌, ◌^◌, ◌<◌, ◌≤◌, ◌++◌, All, length, map, sum, IfOk, OnOk};
ghost use Rattle.at_report.specs.Prelude.{range_with_len, most_processes};
ghost use Rattle.at_report.specs.Lines.{line_text, lines_text, spaced};
ghost use Rattle.at_report.specs.Nodes.{node_balances, node_lines, nodes_text, validated_word, validated_words};

use crate::lines::{push_number, push_numbered};
use at_broadcast::Node;
use std::alloc::{AllocError, Global};

/// Adds how many messages of each log are validated, each after a space.
fn push_counts(out: &mut Vec<u8>, node: &Node) -> Result<(), AllocError>
    ensures { OnOk result
        (out.new.items ≡ out.old.items ++ spaced
        (map (validated_word node.now) (range_with_len 0 node.now.book.logs))) }
{
    for log in 0..node.logs() {
        push_number(out, u64::from(node.validated(log)))?;
    }
    Ok(())
}

/// Adds the line of what is validated.
fn push_validated(out: &mut Vec<u8>, node: &Node) -> Result<(), AllocError>
    ensures { OnOk result
        (out.new.items ≡ out.old.items ++ line_text (validated_words node.now)) }
{
    out.extend_from_slice(b"validated")?;
    push_counts(out, node)?;
    out.push(b'\n')?;
    Ok(())
}

/// Adds the number and the balance of each account.
fn push_balances(out: &mut Vec<u8>, node: &Node) -> Result<(), AllocError>
    ensures { OnOk result
        (out.new.items ≡ out.old.items ++ lines_text (node_balances node.now)) }
{
    for account in 0..node.accounts() {
        push_numbered(
            out,
            itoa::Buffer::new().format(account).as_bytes(),
            node.balance(account),
        )?;
    }
    Ok(())
}

/// The sum of a node's balances.
fn total_of(node: &Node) -> u64
    ensures { result ≡ sum node.now.balances }
{
    node.known();
    let mut total = 0;
    for account in 0..node.accounts() {
        total += node.balance(account);
    }
    total
}

/// Adds the lines of a node.
fn push_node(out: &mut Vec<u8>, number: u64, node: &Node) -> Result<(), AllocError>
    ensures { OnOk result
        (out.new.items ≡ out.old.items ++ lines_text (node_lines number node.now)) }
{
    push_numbered(out, b"node", number)?;
    push_validated(out, node)?;
    push_balances(out, node)?;
    push_numbered(out, b"total", total_of(node))
}

/// The output of nodes: of each its number, how many messages of each log are validated, and the balances there with
/// their total. Logs and accounts are numbers, in books of both versions. The text takes
/// some 30 bytes for each account of each node.
pub fn nodes_text(alloc: Global, nodes: &[Node]) -> Result<Vec<u8>, AllocError>
    ensures { IfOk result (λ text. text.items ≡ nodes_text nodes.now) }
{
    let mut out = Vec::new(alloc);
    let mut number = 0;
    for node in nodes {
        push_node(&mut out, number, node)?;
        number += 1;
    }
    Ok(out)
}
