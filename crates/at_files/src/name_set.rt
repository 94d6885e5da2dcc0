//! Names that are told apart, each with its position.

ghost use Rattle.std.specs.Prelude.{◌≡◌, ◌≤◌, ◌<◌, ◌++◌, [], ◌∷◌, bytes_eq, length, nat_le, not, if◌then◌else◌, slice_index, slice_index_or, IfNone, IfOk, IfSome};
ghost use Rattle.at_files.specs.Limits.{most_name_bytes};
ghost use Rattle.at_files.specs.Prelude.{is_ascii_lowercase, IsDistinct, list_all};
ghost use Rattle.at_files.specs.Names.{has_name, is_name, is_name_byte, position_of};

use arrayvec::ArrayVec;
use indexmap::IndexSet;
use std::alloc::{AllocError, Global};
use std::marker::Model;

/// The most bytes of a name.
pub(crate) const NAME_MAX: usize = 16;

/// One name.
type Name = ArrayVec<u8, NAME_MAX>;

/// Names in order, no two of which are the same. A name is looked up by its hash.
pub(crate) struct NameSet {
    names: IndexSet<Name>,
}

// written out, so that each end of a function that owns one calls it, and doesn't drop the fields there
impl Drop for NameSet {
    fn drop(self) {
        let NameSet { names: _ } = self;
    }
}

impl Model for NameSet {
    ghost use Rattle.std.specs.Prelude.{ℕ, List, map};
    ghost use Rattle.at_files.specs.NameSet.{IsNameSet};

    ghost Value = { List (List ℕ) };

    ghost view = { λ s. map (λ name. name.items) s.names.keys };

    ghost invariant = { λ s. IsNameSet (map (λ name. name.items) s.names.keys) };
}

impl NameSet {
    /// No name.
    pub(crate) fn new(alloc: Global) -> NameSet
        ensures { result ≡ [] }
    {
        NameSet {
            names: IndexSet::new(alloc),
        }
    }

    /// How many names there are.
    pub(crate) fn len(&self) -> usize
        ensures count { result ≡ length self.now }
        ensures distinct { IsDistinct bytes_eq self.now }
    {
        self.names.len()
    }

    /// The name at a position.
    pub(crate) fn name(&self, position: usize) -> &[u8]
        requires { position < length self.now }
        ensures { result.now ≡ slice_index_or self.now position [] }
    {
        self.names.as_slice()[position].as_slice()
    }

    /// The position of a name, if it is there.
    pub(crate) fn position(&self, text: &[u8]) -> Option<usize>
        ensures position { result ≡ position_of self.now text.now }
        ensures within { IfSome result (λ position. position < length self.now) }
    {
        match held(text) {
            Some(name) => self.names.get_index_of(&name),
            None => None,
        }
    }

    /// Adds a name after the others, and answers `true`, unless it is there.
    pub(crate) fn add(&mut self, text: &[u8]) -> Result<bool, AllocError>
        requires { length text.now ≤ most_name_bytes }
        ensures added { IfOk result (λ added. added ≡ not (has_name self.old text.now)) }
        ensures names { IfOk result
            (λ added. self.new ≡ (if added then self.old ++ text.now ∷ [] else self.old)) }
    {
        let Some(name) = held(text) else {
            unreachable!()
        };
        let Ok(added) = self.names.insert(name) else {
            return Err(AllocError);
        };
        Ok(added)
    }
}

/// A text that is no longer than a name.
fn held(text: &[u8]) -> Option<Name>
    ensures some { IfSome result (λ name. name.items ≡ text.now) }
    ensures none { IfNone result (most_name_bytes < length text.now) }
{
    let mut name = ArrayVec::new();
    match name.try_extend_from_slice(text) {
        Ok(()) => Some(name),
        Err(_) => None,
    }
}

/// Whether a name may have the byte.
fn is_name_byte(byte: u8) -> bool
    ensures { result ≡ is_name_byte byte }
{
    byte.is_ascii_lowercase() || byte.is_ascii_digit() || byte == b'-'
}

/// Whether the first byte is a small letter.
fn begins_with_letter(text: &[u8]) -> bool
    ensures { result ≡ is_ascii_lowercase (slice_index text.now 0) }
{
    !text.is_empty() && text[0].is_ascii_lowercase()
}

/// Whether a name may have each of the bytes.
fn has_name_bytes(text: &[u8]) -> bool
    ensures { result ≡ list_all is_name_byte text.now }
{
    text.iter().all(|byte| is_name_byte(*byte))
}

/// Whether the text is no longer than a name.
fn has_name_length(text: &[u8]) -> bool
    ensures { result ≡ nat_le (length text.now) most_name_bytes }
{
    text.len() <= NAME_MAX
}

/// Whether the text has the form of a name.
pub(crate) fn is_name(text: &[u8]) -> bool
    ensures { result ≡ is_name text.now }
{
    has_name_length(text) && has_name_bytes(text) && begins_with_letter(text)
}
