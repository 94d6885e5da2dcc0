//! A command as a value: what every command answers.

ghost use Rattle.std.specs.Prelude.{◌≡◌, IfOk, IfErr};
ghost use Rattle.at_commands.specs.Commands.{PrintsLoaded, Promise, RefusesMade, WasLoaded};
ghost use Rattle.at_commands.specs.Commanding.{CameToRefusal, Does, FailedToLoad, IsLawful, KeepsFiles, MakesText};
ghost use Rattle.at_commands.specs.Outcome.{found};

use crate::ending::{Printed, end_keeping};
use at_io::{Shelf, Sink};
use at_object::Closed;
use at_report::Status;
use std::alloc::Global;
use std::thread::Threads;

/// A command, by its words.
pub(crate) trait Command {
    /// What its files hold, as the program has it.
    type Loaded: Drop;

    // what its files hold
    ghost What: { Type 0 };

    ghost shown: { Self.Loaded → What };

    // what is so of it besides, and its text rests on
    ghost known: { Self.Loaded → Type 0 };

    ghost promise: { Self → Promise What };

    /// Reads its files.
    fn load<R: Threads + Sync, F: Shelf>(
        &self,
        rt: &R,
        alloc: Global,
        shelf: &mut F,
    ) -> Result<Self::Loaded, Status>
        ensures keeps { KeepsFiles F.tells F.file F.faults shelf.old shelf.new }
        ensures unread { (promise self.now).unread → shelf.new ≡ shelf.old }
        ensures known { IfOk result known }
        ensures loads { IfOk result (λ l. WasLoaded (promise self.now)
            (found F.tells F.file F.faults shelf.old shelf.new) (shown l)) }
        ensures err { IfErr result (FailedToLoad (promise self.now)
            (found F.tells F.file F.faults shelf.old shelf.new)) };

    /// Does nothing: what is promised keeps to the laws of promises.
    fn lawful(&self)
        ensures { IsLawful (promise self.now) };
}

/// A command whose text is made without a gate.
pub(crate) trait Telling: Command {
    /// Makes its text of what was loaded.
    fn text<R: Threads + Sync>(
        &self,
        rt: &R,
        alloc: Global,
        loaded: Self::Loaded,
    ) -> Result<Printed, Status>
        requires holds { (Self.promise self.now).holds (Self.shown loaded) }
        requires known { Self.known loaded }
        ensures prints { IfOk result (λ p. (Self.promise self.now).prints (Self.shown loaded)
            p.closed p.text) }
        ensures err { IfErr result (RefusesMade (Self.promise self.now) (Self.shown loaded)) };
}

/// What a command prints of its files, or why it prints nothing.
fn command_text<
    C: Command,
    T: FnOnce(C::Loaded) -> Result<Printed, Status>,
    R: Threads + Sync,
    F: Shelf,
>(rt: &R, alloc: Global, shelf: &mut F, asked: &C, text: T) -> Result<Printed, Status>
    requires may { (l : C.Loaded) → (C.promise asked.now).holds (C.shown l) → C.known l
        → T.pre text l }
    requires makes { (l : C.Loaded) (r : _) → T.post text l r
        → MakesText (C.promise asked.now) (C.shown l) r }
    ensures keeps { KeepsFiles F.tells F.file F.faults shelf.old shelf.new }
    ensures unread { (C.promise asked.now).unread → shelf.new ≡ shelf.old }
    ensures prints { IfOk result (λ p. PrintsLoaded (C.promise asked.now)
        (found F.tells F.file F.faults shelf.old shelf.new) p.closed p.text) }
    ensures err { IfErr result (CameToRefusal (C.promise asked.now)
        (found F.tells F.file F.faults shelf.old shelf.new)) }
    ensures lawful { IsLawful (C.promise asked.now) }
{
    asked.lawful();
    let loaded = match asked.load(rt, alloc, shelf) {
        Ok(loaded) => loaded,
        Err(refusal) => return Err(refusal),
    };
    text(loaded)
}

/// Does what the words of a command ask, whose text is made so of what it loads.
pub(crate) fn answer_by<
    C: Command,
    T: FnOnce(C::Loaded) -> Result<Printed, Status>,
    R: Threads + Sync,
    F: Shelf,
    O: Sink,
>(
    rt: &R,
    alloc: Global,
    shelf: &mut F,
    out: &mut O,
    asked: &C,
    text: T,
    kept: &mut Option<Closed>,
) -> Status
    requires may { (l : C.Loaded) → (C.promise asked.now).holds (C.shown l) → C.known l
        → T.pre text l }
    requires makes { (l : C.Loaded) (r : _) → T.post text l r
        → MakesText (C.promise asked.now) (C.shown l) r }
    ensures { Does (C.promise asked.now) F.tells F.file F.faults O.tells O.taken O.faults shelf.old
        shelf.new out.old out.new kept.old kept.new result }
{
    let made = command_text(rt, alloc, shelf, asked, text);
    end_keeping(made, out, kept)
}

/// Does what the words of a command ask.
pub(crate) fn answer_command<C: Telling, R: Threads + Sync, F: Shelf, O: Sink>(
    rt: &R,
    alloc: Global,
    shelf: &mut F,
    out: &mut O,
    asked: &C,
    kept: &mut Option<Closed>,
) -> Status
    ensures { Does (C.promise asked.now) F.tells F.file F.faults O.tells O.taken O.faults shelf.old
        shelf.new out.old out.new kept.old kept.new result }
{
    let text = |loaded: C::Loaded| -> Result<Printed, Status>
        requires holds { (C.promise asked.now).holds (C.shown loaded) }
        requires known { C.known loaded }
        ensures { MakesText (C.promise asked.entry.now) (C.shown loaded) result }
    { asked.text(rt, alloc, loaded) };
    answer_by(rt, alloc, shelf, out, asked, text, kept)
}
