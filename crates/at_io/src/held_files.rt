ghost use Rattle.std.specs.Prelude.{◌≡◌, ◌+◌, ◌^◌, ◌<◌, min, map, length, take, drop, [], position, bytes_eq, string_bytes, is_some, unwrap_or};
ghost use Rattle.at_io.specs.HeldFiles.{named_file, file_of, unread};

use std::marker::Model;

/// Files by name, of which one is read.
#[derive(Drop)]
pub struct HeldFiles {
    files: Vec<(String, Vec<u8>)>,
    chosen: Option<usize>,
    at: usize,
}

impl Model for HeldFiles {
    ghost use Rattle.std.specs.Prelude.{map};
    ghost use Rattle.at_io.specs.HeldFiles.{Held, named_file, unread};

    ghost Value = { Held };

    ghost view = { λ h.
        record {
          files = map named_file h.files.items;
          rest = unread h.files.items h.chosen h.at;
        } };
}

impl HeldFiles {
    /// These files, with none chosen.
    pub fn new(files: Vec<(String, Vec<u8>)>) -> HeldFiles
        ensures files { result.files ≡ map named_file files.items }
        ensures none_chosen { result.rest ≡ [] }
    {
        HeldFiles {
            files,
            chosen: None,
            at: 0,
        }
    }

    /// Chooses the first file of a name, or none, and answers whether there is one.
    pub fn choose(&mut self, name: &str) -> bool
        ensures found { result ≡ is_some (file_of self.old.files name.now) }
        ensures files { self.new.files ≡ self.old.files }
        ensures rest { self.new.rest ≡ unwrap_or (file_of self.old.files name.now) [] }
    {
        self.chosen = position_of(self.files.as_slice(), name);
        self.at = 0;
        self.chosen.is_some()
    }

    /// Chooses no file.
    pub fn close(&mut self)
        ensures files { self.new.files ≡ self.old.files }
        ensures rest { self.new.rest ≡ [] }
    {
        self.chosen = None;
    }

    /// Reads at most so many of the next bytes into the start of `buf`, and answers how many.
    pub fn read(&mut self, buf: &mut [u8], most: usize) -> usize
        ensures count { result ≡ min most (min (length buf.old) (length self.old.rest)) }
        ensures bytes { take result buf.new ≡ take result self.old.rest }
        ensures files { self.new.files ≡ self.old.files }
        ensures rest { self.new.rest ≡ drop result self.old.rest }
    {
        let count = copy_prefix(
            rest_of(self.files.as_slice(), self.chosen, self.at),
            buf,
            most,
        );
        self.at += count;
        count
    }
}

/// What is unread, from an offset on, of the file at a position.
fn rest_of(files: &[(String, Vec<u8>)], position: Option<usize>, at: usize) -> &[u8]
    ensures value { result.now ≡ unread files.now position at }
    ensures fits { at + length result.now < 2 ^ 64 }
{
    let Some(position) = position else {
        return &[];
    };
    let Some(file) = files.get(position) else {
        return &[];
    };
    file.1.get(at..).unwrap_or(&[])
}

/// The position of the first file of a name.
fn position_of(files: &[(String, Vec<u8>)], name: &str) -> Option<usize>
    ensures { result ≡ position (λ file. bytes_eq (string_bytes file.0) name.now) files.now }
{
    files.iter().position(|file| file.0.as_str() == name)
}

/// Copies a prefix of `from` to the start of `to`, at most so many bytes, and answers how many.
fn copy_prefix(from: &[u8], to: &mut [u8], most: usize) -> usize
    ensures count { result ≡ min most (min (length to.old) (length from.now)) }
    ensures bytes { take result to.new ≡ take result from.now }
{
    let count = most.min(to.len().min(from.len()));
    to[..count].copy_from_slice(&from[..count]);
    count
}
