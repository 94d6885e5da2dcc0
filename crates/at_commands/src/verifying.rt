//! What `verify` says of a report.

ghost use Rattle.std.specs.Prelude.{◌≡◌, ◌⊎◌, IfOk, IfErr};
ghost use Rattle.at_commands.specs.Claims.{RefusesClaim, verify_terms};
ghost use Rattle.at_commands.specs.Commands.{IsOwnOrMemory};
ghost use Rattle.at_commands.specs.Forms.{IsFurther};
ghost use Rattle.at_commands.specs.Commanding.{IsLoadedForm};
ghost use Rattle.at_commands.specs.Loading.{PaysBytes, loaded_shown};

use crate::beside::Further;
use crate::ending::Printed;
use crate::file_forms::Payments;
use crate::loading::Loaded;
use at_files::count_calls;
use at_ledger::Call;
use at_report::{Status, verified_text};
use at_verify::{Verdict, verify};
use std::alloc::Global;

/// `verify`: its further file is a report.
pub(crate) struct Verifying;

impl Further for Verifying {
    type Files = Payments;

    type Item = u8;

    ghost terms = { verify_terms };

    fn read(_alloc: Global, _loaded: &Loaded<Call>, bytes: Vec<u8>) -> Result<Vec<u8>, Status> {
        Ok(bytes)
    }

    fn text(alloc: Global, loaded: Loaded<Call>, further: Vec<u8>) -> Result<Printed, Status>
        requires loaded { IsLoadedForm PaysBytes loaded }
        requires further { IsFurther (verify_terms.spells (loaded_shown loaded)) further.items }
        ensures prints { IfOk result (λ p. verify_terms.prints
            (record { what = loaded_shown loaded; further = further.items }) p.closed p.text) }
        ensures err { IfErr result (IsOwnOrMemory (verify_terms.refuses
            (record { what = loaded_shown loaded; further = further.items }))) }
    {
        let Loaded { book, names, files } = loaded;
        let _known = book.accounts();
        let files = files.as_slice();
        match verify(alloc, &book, &names, files, further.as_slice())? {
            Verdict::No { line, expected } => Err(Status::NotLegal { line, expected }),
            Verdict::Yes => Printed::of(alloc, verified_text(alloc, count_calls(files))?, None),
        }
    }

    fn lawful() {}
}
