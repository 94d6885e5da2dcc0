ghost use Rattle.std.specs.Prelude.{◌≡◌};

use crate::faults::raised;
use crate::shelf::{ReadFailed, Shelf};
use std::fs;
use std::io::Read;
use std::marker::Model;
use std::rt::Files;

/// The real files, by their path. It tells nothing of what they hold, and a file that is missing
/// or cannot be read is a fault, as a folder is.
#[derive(Drop)]
pub struct DirShelf<'a, R: Files> {
    rt: &'a R,
    file: Option<R::File>,
    faults: u64,
}

impl<'a, R: Files> Model for DirShelf<'a, R> {
    ghost use Rattle.std.specs.Prelude.{ℕ};

    ghost Value = { ℕ };

    ghost view = { λ s. s.faults };
}

impl<'a, R: Files> DirShelf<'a, R> {
    /// The files of this runtime, with no fault counted.
    pub fn new(rt: &'a R) -> DirShelf<'a, R>
        ensures { result ≡ 0 }
    {
        DirShelf {
            rt,
            file: None,
            faults: 0,
        }
    }
}

impl<'a, R: Files> Shelf for DirShelf<'a, R> {
    ghost use Rattle.std.specs.Prelude.{false, None, []};

    ghost tells = { λ _. false };

    ghost file = { λ _ _. None };

    ghost rest = { λ _. [] };

    ghost faults = { λ s. s };

    fn choose(&mut self, name: &str) -> Result<(), ReadFailed> {
        match fs::open(self.rt, name) {
            Ok(file) => {
                self.file = Some(file);
                Ok(())
            }
            Err(_) => {
                self.file = None;
                self.faults = raised(self.faults);
                Err(ReadFailed)
            }
        }
    }

    fn read(&mut self, buf: &mut [u8]) -> Result<usize, ReadFailed> {
        let Some(file) = &mut self.file else {
            return Ok(0);
        };
        match file.read(buf) {
            Ok(count) => Ok(count),
            Err(_) => {
                self.faults = raised(self.faults);
                Err(ReadFailed)
            }
        }
    }
}
