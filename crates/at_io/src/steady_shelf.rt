ghost use Rattle.std.specs.Prelude.{◌≡◌, [], map};
ghost use Rattle.at_io.specs.HeldFiles.{named_file};

use crate::held_files::HeldFiles;
use crate::shelf::{ReadFailed, Shelf};
use std::marker::Model;

/// A shelf in memory that never fails. It tells its files and holds every name: one that was not
/// handed in is an empty file.
#[derive(Drop)]
pub struct SteadyShelf {
    held: HeldFiles,
}

impl Model for SteadyShelf {
    ghost use Rattle.at_io.specs.HeldFiles.{Held};

    ghost Value = { Held };

    ghost view = { λ s. s.held };
}

impl SteadyShelf {
    /// A shelf of these files, by name.
    pub fn new(files: Vec<(String, Vec<u8>)>) -> SteadyShelf
        ensures files { result.files ≡ map named_file files.items }
        ensures none_chosen { result.rest ≡ [] }
    {
        SteadyShelf {
            held: HeldFiles::new(files),
        }
    }
}

impl Shelf for SteadyShelf {
    ghost use Rattle.std.specs.Prelude.{true, Some, [], unwrap_or};
    ghost use Rattle.at_io.specs.HeldFiles.{file_of};

    ghost tells = { λ _. true };

    ghost file = { λ s name. Some (unwrap_or (file_of s.files name) []) };

    ghost rest = { λ s. s.rest };

    ghost faults = { λ _. 0 };

    fn choose(&mut self, name: &str) -> Result<(), ReadFailed> {
        self.held.choose(name);
        Ok(())
    }

    fn read(&mut self, buf: &mut [u8]) -> Result<usize, ReadFailed> {
        Ok(self.held.read(buf, usize::MAX))
    }
}
