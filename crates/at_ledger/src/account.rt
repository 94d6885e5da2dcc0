//! One account of a checked book.

ghost use Rattle.std.specs.Prelude.{◌≡◌, ◌<◌, ◌≤◌, length, slice_index, IfSome};
ghost use Rattle.at_ledger.specs.Limits.{most_owners, most_request_room, most_rounds};

use crate::draft::{OWNERS_MAX, REQUEST_ROOM_MAX, ROUNDS_MAX};
use arrayvec::ArrayVec;
use std::marker::Model;

/// What an account opens with, and its owners from the lowest process up.
#[derive(Drop)]
pub(crate) struct Account {
    pub(crate) opening: u64,
    pub(crate) owners: ArrayVec<u32, OWNERS_MAX>,
}

impl Model for Account {
    ghost use Rattle.at_ledger.specs.Account.{AccountTerms};

    ghost Value = { AccountTerms };

    ghost view = { λ a. record { opening = a.opening; owners = a.owners.items } };
}

impl Account {
    ghost use Rattle.at_ledger.specs.Account.{is_shared, is_single, rounds_room, rounds_room_of, slot_in, slots_of};

    pub(crate) fn is_single(&self) -> bool
        ensures { result ≡ is_single self.now }
    {
        self.owners.len() == 1
    }

    pub(crate) fn is_shared(&self) -> bool
        ensures { result ≡ is_shared self.now }
    {
        2 <= self.owners.len()
    }

    pub(crate) fn owner_count(&self) -> u32
        ensures count { result ≡ length self.now.owners }
        ensures few { length self.now.owners ≤ most_owners }
    {
        self.owners.len() as u32
    }

    pub(crate) fn slot_count(&self) -> u32
        ensures count { result ≡ slots_of self.now }
        ensures few { result ≤ most_owners }
    {
        if self.is_shared() {
            self.owner_count()
        } else {
            0
        }
    }

    pub(crate) fn slot_in(&self, process: u32) -> Option<u32>
        ensures slot { result ≡ slot_in self.now process }
        ensures within { IfSome result (λ slot. slot < length self.now.owners) }
        ensures owner { IfSome result (λ slot. slice_index self.now.owners slot ≡ process) }
    {
        let owners = self.owners.as_slice();
        let slot = owners.iter().position(|owner| *owner == process)?;
        Some(slot as u32)
    }

    pub(crate) fn rounds_room(&self, request_room: u32) -> u32
        requires { request_room ≤ most_request_room }
        ensures room { result ≡ rounds_room request_room self.now }
        ensures few { result ≤ most_rounds }
    {
        if self.is_shared() {
            self.owner_count() * request_room
        } else {
            0
        }
    }

    /// The rounds of the account that the log of the process has room for.
    pub(crate) fn rounds_of(&self, process: u32, request_room: u32) -> u32
        requires { request_room ≤ most_request_room }
        ensures { result ≡ rounds_room_of request_room process self.now }
    {
        if self.slot_in(process).is_some() {
            self.rounds_room(request_room)
        } else {
            0
        }
    }

    /// The same account with another opening.
    pub(crate) fn opening_with(&self, opening: u64) -> Account
        ensures { result ≡ record self.now { opening = opening } }
    {
        Account {
            opening,
            ..self.copy()
        }
    }

    pub(crate) fn copy(&self) -> Account
        ensures { result ≡ self.now }
    {
        let mut owners = ArrayVec::new();
        owners
            .try_extend_from_slice(self.owners.as_slice())
            .unwrap();
        Account {
            opening: self.opening,
            owners,
        }
    }
}
