//! What is answered of what the words ask.

ghost use Rattle.std.specs.Prelude.{◌≡◌, ◌≢◌, ◌≤◌, None, option_map, IfSome};
ghost use Rattle.at_commands.specs.Commanding.{Does};
ghost use Rattle.at_commands.specs.Outcome.{found, outcome};
ghost use Rattle.at_commands.specs.Prelude.{Rose, SameFiles};
ghost use Rattle.at_commands.specs.Table.{Leaves, LeavesNoLedger, ReadsNothing, promised};
ghost use Rattle.at_commands.specs.Words.{IsWithinLimits, Wanted, asked_shown, form_shown, further_shown};

use crate::agreeing::answer_agree;
use crate::asked::Asked;
use crate::beside::{Beside, Further};
use crate::checking::Check;
use crate::commanding::answer_command;
use crate::delivering::Delivering;
use crate::making::answer_make;
use crate::over::Over;
use crate::picturing::Page;
use crate::replaying::{InTurns, ReplayReport};
use crate::running::answer_run;
use crate::tracing::Trace;
use crate::verifying::Verifying;
use crate::views::{Kinds, Needs, Orders, answer_costs, answer_ledger};
use crate::words::{Form, FormCommand, FurtherCommand, FurtherForm};
use at_io::{Shelf, Sink};
use at_object::Closed;
use at_report::{Status, UsageFault};
use at_workers::Gate;
use std::alloc::Global;
use std::marker::PhantomData;
use std::thread::Threads;

/// Does what the words of a command ask that reads a book and payments.
fn answer_form<R: Threads + Sync, F: Shelf, O: Sink, G: Gate + Sync>(
    rt: &R,
    alloc: Global,
    shelf: &mut F,
    out: &mut O,
    command: FormCommand,
    form: &Form<'_>,
    gate: &G,
    kept: &mut Option<Closed>,
) -> Status
    ensures { Does (promised (Wanted.Files command (form_shown form.now))).promise F.tells F.file
        F.faults O.tells O.taken O.faults shelf.old shelf.new out.old out.new kept.old kept.new
        result }
{
    let form = *form;
    match command {
        FormCommand::Run => answer_run(rt, alloc, shelf, out, &form, gate, kept),
        FormCommand::Check => answer_command(rt, alloc, shelf, out, &Check { form }, kept),
        FormCommand::Kinds => {
            answer_command(rt, alloc, shelf, out, &Over { form, own: Kinds }, kept)
        }
        FormCommand::Needs => {
            answer_command(rt, alloc, shelf, out, &Over { form, own: Needs }, kept)
        }
        FormCommand::Orders => {
            answer_command(rt, alloc, shelf, out, &Over { form, own: Orders }, kept)
        }
        FormCommand::Costs => answer_costs(rt, alloc, shelf, out, &form, gate, kept),
        FormCommand::Ledger => answer_ledger(rt, alloc, shelf, out, &form, gate, kept),
    }
}

/// The words of a command that reads one further file.
fn beside<'a, X: Further>(form: &FurtherForm<'a>) -> Beside<'a, X>
    ensures { result.form ≡ form.now }
{
    Beside {
        form: *form,
        of: PhantomData,
    }
}

/// Does what the words of a command ask that reads one further file.
fn answer_further<R: Threads + Sync, F: Shelf, O: Sink>(
    rt: &R,
    alloc: Global,
    shelf: &mut F,
    out: &mut O,
    command: FurtherCommand,
    form: &FurtherForm<'_>,
    kept: &mut Option<Closed>,
) -> Status
    ensures { Does (promised (Wanted.Further command (further_shown form.now))).promise F.tells F.file
        F.faults O.tells O.taken O.faults shelf.old shelf.new out.old out.new kept.old kept.new
        result }
{
    match command {
        FurtherCommand::Replay => {
            answer_command(
                rt,
                alloc,
                shelf,
                out,
                &beside::<InTurns<ReplayReport>>(form),
                kept,
            )
        }
        FurtherCommand::Trace => {
            answer_command(rt, alloc, shelf, out, &beside::<InTurns<Trace>>(form), kept)
        }
        FurtherCommand::Show => {
            answer_command(rt, alloc, shelf, out, &beside::<InTurns<Page>>(form), kept)
        }
        FurtherCommand::Verify => {
            answer_command(rt, alloc, shelf, out, &beside::<Verifying>(form), kept)
        }
        FurtherCommand::Deliver => {
            answer_command(rt, alloc, shelf, out, &beside::<Delivering>(form), kept)
        }
    }
}

/// Does what was asked.
fn answer_asked<R: Threads + Sync, F: Shelf, O: Sink, G: Gate + Sync>(
    rt: &R,
    alloc: Global,
    asked: &Asked<'_>,
    shelf: &mut F,
    out: &mut O,
    gate: &G,
    kept: &mut Option<Closed>,
) -> Status
    requires { IsWithinLimits (asked_shown asked.now) }
    ensures { Does (promised (asked_shown asked.now)).promise F.tells F.file F.faults O.tells O.taken
        O.faults shelf.old shelf.new out.old out.new kept.old kept.new result }
{
    match asked {
        Asked::Files { command, form } => {
            answer_form(rt, alloc, shelf, out, *command, form, gate, kept)
        }
        Asked::Further { command, form } => {
            answer_further(rt, alloc, shelf, out, *command, form, kept)
        }
        Asked::Make(making) => answer_make(rt, alloc, shelf, out, *making, gate, kept),
        Asked::Agree(values) => answer_agree(rt, alloc, shelf, out, values.as_slice(), kept),
    }
}

/// Does what was asked, and tells nobody of a refusal. Where nothing was, the words are refused.
pub fn answer<R: Threads + Sync, F: Shelf, O: Sink, G: Gate + Sync>(
    rt: &R,
    alloc: Global,
    asked: &Option<Asked<'_>>,
    shelf: &mut F,
    out: &mut O,
    gate: &G,
    kept: &mut Option<Closed>,
) -> Status
    requires kept { kept.old ≡ None }
    requires limits { IfSome asked.now (λ a. IsWithinLimits (asked_shown a)) }
    ensures files { SameFiles (F.tells shelf.old) (F.tells shelf.new) (F.file shelf.old)
        (F.file shelf.new) }
    ensures later { (F.faults shelf.old ≤ F.faults shelf.new)
        × (O.faults out.old ≤ O.faults out.new) }
    ensures as_told { O.tells out.new ≡ O.tells out.old }
    ensures unread { ReadsNothing (option_map asked_shown asked.now) → shelf.new ≡ shelf.old }
    ensures no_ledger { LeavesNoLedger (option_map asked_shown asked.now) → kept.new ≡ None }
    ensures answered { Leaves (option_map asked_shown asked.now)
        (found F.tells F.file F.faults shelf.old shelf.new)
        (outcome O.tells O.taken O.faults out.old out.new kept.new result) }
    ensures done_kept { result ≡ Status.Done
        → (F.faults shelf.new ≡ F.faults shelf.old) × (O.faults out.new ≡ O.faults out.old) }
    ensures write_fault { result ≡ Status.WriteFault
        → Rose (O.faults out.old) (O.faults out.new) × (F.faults shelf.new ≡ F.faults shelf.old) }
    ensures untouched { result ≢ Status.Done → result ≢ Status.WriteFault
        → (out.new ≡ out.old) × (kept.new ≡ None) }
{
    match asked {
        None => Status::Usage(UsageFault::Words),
        Some(asked) => answer_asked(rt, alloc, asked, shelf, out, gate, kept),
    }
}
