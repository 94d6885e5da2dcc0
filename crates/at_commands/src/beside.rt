//! Commands that read a book, the files of the processes, and one further file after these.

ghost use Rattle.std.specs.Prelude.{◌≡◌, ◌⊎◌, ⊤, Ok, IfOk, IfErr};
ghost use Rattle.at_commands.specs.Commands.{IsOwnOrMemory};
ghost use Rattle.at_commands.specs.Forms.{FurtherOf, FurtherTerms, IsFurther, further_promise};
ghost use Rattle.at_commands.specs.Commanding.{AreRead, IsLoadedForm, RefusesFurther};
ghost use Rattle.at_commands.specs.Loading.{loaded_shown};
ghost use Rattle.at_commands.specs.Words.{further_shown};

use crate::commanding::{Command, Telling};
use crate::ending::Printed;
use crate::file_forms::FileForm;
use crate::loading::{Loaded, fetch_file, load_all};
use crate::words::FurtherForm;
use at_io::Shelf;
use at_report::Status;
use std::alloc::Global;
use std::marker::PhantomData;
use std::thread::Threads;

/// What is a command's own that reads a further file.
pub(crate) trait Further {
    /// What the files of the processes are read as.
    type Files: FileForm;

    /// What the further file has many of.
    type Item: Drop;

    ghost terms: { FurtherTerms Self.Files.Item Self.Item };

    /// What the further file holds beside what was loaded, from its bytes.
    fn read(
        alloc: Global,
        loaded: &Loaded<<Self::Files as FileForm>::Item>,
        bytes: Vec<u8>,
    ) -> Result<Vec<Self::Item>, Status>
        requires { IsLoadedForm Self.Files.spells loaded.now }
        ensures given { IfOk result
            (λ items. terms.given (loaded_shown loaded.now) bytes.items ≡ Ok items.items) }
        ensures spelled { IfOk result
            (λ items. terms.spells (loaded_shown loaded.now) bytes.items items.items) }
        ensures err { IfErr result (RefusesFurther Self.Files.kind
            (terms.given (loaded_shown loaded.now) bytes.items)) };

    /// The text of what was loaded and of the further file.
    fn text(
        alloc: Global,
        loaded: Loaded<<Self::Files as FileForm>::Item>,
        further: Vec<Self::Item>,
    ) -> Result<Printed, Status>
        requires loaded { IsLoadedForm Self.Files.spells loaded }
        requires further { IsFurther (terms.spells (loaded_shown loaded)) further.items }
        ensures prints { IfOk result (λ p. terms.prints
            (record { what = loaded_shown loaded; further = further.items }) p.closed p.text) }
        ensures err { IfErr result (IsOwnOrMemory (terms.refuses
            (record { what = loaded_shown loaded; further = further.items }))) };

    /// Does nothing: what the files spell is read of them.
    fn lawful()
        ensures { AreRead Self.Files.given Self.Files.spells terms };
}

/// Such a command, by its words.
#[derive(Drop)]
pub(crate) struct Beside<'a, X: Further> {
    pub form: FurtherForm<'a>,
    pub of: PhantomData<X>,
}

impl<X: Further> Command for Beside<'_, X> {
    type Loaded = (Loaded<<X::Files as FileForm>::Item>, Vec<X::Item>);

    ghost What = { FurtherOf X.Files.Item X.Item };

    ghost shown = { λ l. record { what = loaded_shown l.0; further = l.1.items } };

    ghost known = { λ l. ⊤ };

    ghost promise = { λ s. further_promise X.Files.given X.Files.spells X.Files.kind X.terms
        (further_shown s.form) };

    fn load<R: Threads + Sync, F: Shelf>(
        &self,
        _rt: &R,
        alloc: Global,
        shelf: &mut F,
    ) -> Result<(Loaded<<X::Files as FileForm>::Item>, Vec<X::Item>), Status> {
        let form = &self.form;
        let loaded = match load_all::<F, X::Files>(alloc, shelf, form.book, form.files) {
            Ok(loaded) => loaded,
            Err(refusal) => return Err(refusal),
        };
        let number = loaded.book.processes() + 1;
        let bytes = match fetch_file(alloc, shelf, form.further, number) {
            Ok(bytes) => bytes,
            Err(refusal) => return Err(refusal),
        };
        match X::read(alloc, &loaded, bytes) {
            Ok(further) => Ok((loaded, further)),
            Err(refusal) => Err(refusal),
        }
    }

    fn lawful(&self) {
        X::lawful();
    }
}

impl<X: Further> Telling for Beside<'_, X> {
    fn text<R: Threads + Sync>(
        &self,
        _rt: &R,
        alloc: Global,
        loaded: (Loaded<<X::Files as FileForm>::Item>, Vec<X::Item>),
    ) -> Result<Printed, Status> {
        let (loaded, further) = loaded;
        X::text(alloc, loaded, further)
    }
}
