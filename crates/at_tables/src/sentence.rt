//! A sentence about the payments of the files.

ghost use Rattle.std.specs.Prelude.{◌≡◌, ◌<◌, ◌++◌, List, All, IfOk, OnOk, flat_map, length};
ghost use Rattle.at_tables.specs.Prelude.{Call, IsPlayable, contents_of, AreNamesOf};
ghost use Rattle.at_tables.specs.Counting.{AreCounts};
ghost use Rattle.at_tables.specs.GroupKeys.{AreKnown, groups_in, group_terms};
ghost use Rattle.at_tables.specs.Sentence.{agreement_text, counted_text, payments_text, sentence_text};

use crate::counts::{Counts, count};
use crate::groups::{Group, groups};
use crate::kinds_table::push_names;
use at_files::Names;
use at_ledger::{Book, Call};
use std::alloc::{AllocError, Global};
use std::collections::BTreeSet;

/// Adds how many payments there are, and how many of each kind.
fn push_counted(
    out: &mut Vec<u8>,
    payments: u64,
    alone: u64,
    refused: u64,
    agreed: u64,
) -> Result<(), AllocError>
    ensures { OnOk result
        (out.new.items ≡ out.old.items ++ counted_text payments alone refused agreed) }
{
    at_base::push_number(out, payments)?;
    out.extend_from_slice(b" payments: ")?;
    at_base::push_number(out, alone)?;
    out.extend_from_slice(b" made without agreement, ")?;
    at_base::push_number(out, refused)?;
    out.extend_from_slice(b" refused because the process does not own the source, ")?;
    at_base::push_number(out, agreed)?;
    out.extend_from_slice(b" agreed on")?;
    Ok(())
}

/// The same of what was counted.
fn push_payments(out: &mut Vec<u8>, book: &Book, counts: &Counts) -> Result<(), AllocError>
    ensures { OnOk result ((files : List (List Call))
        → AreCounts book.now files (length files) counts.now
        → out.new.items ≡ out.old.items ++ payments_text book.now files) }
{
    let refused = u64::from(counts.refused);
    let alone = u64::from(counts.alone);
    let agreed = u64::from(counts.agreed);
    push_counted(out, refused + alone + agreed, alone, refused, agreed)?;
    Ok(())
}

/// Adds how many payments a set of owners has to agree on, and who they are.
fn push_agreement(out: &mut Vec<u8>, names: &Names, group: &Group) -> Result<(), AllocError>
    requires { All (λ owner. owner < length names.now.processes) group.now.owners.items }
    ensures { OnOk result
        (out.new.items ≡ out.old.items ++ agreement_text names.now (group_terms group.now)) }
{
    out.extend_from_slice(b"; ")?;
    at_base::push_number(out, group.payments.0)?;
    out.extend_from_slice(b" by the owners")?;
    push_names(out, names, group.owners.as_slice())?;
    Ok(())
}

/// Adds the same of each set of owners.
fn push_agreements(
    out: &mut Vec<u8>,
    names: &Names,
    mut groups: BTreeSet<Group>,
) -> Result<(), AllocError>
    requires { AreKnown (length names.now.processes) groups }
    ensures { OnOk result (out.new.items
        ≡ out.old.items ++ flat_map (agreement_text names.now) (groups_in groups)) }
{
    while let Some(group) = groups.pop_first() {
        push_agreement(out, names, &group)?;
    }
    Ok(())
}

/// A sentence that tells how many payments the files have, how many are made without agreement, and how many are agreed on, by which
/// owners. There is a file for each process, and nothing is run.
pub fn payments_sentence(
    alloc: Global,
    book: &Book,
    names: &Names,
    files: &[Vec<Call>],
) -> Result<Vec<u8>, AllocError>
    requires names { AreNamesOf book.now names.now }
    requires processes { length files.now ≡ book.now.processes }
    requires files { All (IsPlayable (length book.now.accounts)) (contents_of files.now) }
    ensures { IfOk result
        (λ text. text.items ≡ sentence_text book.now names.now (contents_of files.now)) }
{
    let counts = count(alloc, book, files)?;
    let groups = groups(alloc, book, &counts)?;
    let mut out = Vec::new(alloc);
    push_payments(&mut out, book, &counts)?;
    push_agreements(&mut out, names, groups)?;
    out.push(b'.')?;
    Ok(out)
}
