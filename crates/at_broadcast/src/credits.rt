//! What the validated messages of one sender brought to one account.

ghost use Rattle.std.specs.Prelude.{◌≡◌, ◌+◌, ◌-◌, ◌*◌, ◌^◌, ◌<◌, ◌≤◌, ◌++◌, [], ◌∷◌, length, sum_by, All, OnOk, OnErr};
ghost use Rattle.at_broadcast.specs.Credits.{amount_since, credit_after};

use std::alloc::{AllocError, Global};
use std::marker::Model;

/// The amount that the message of a number brought, and what all before it had brought together.
#[derive(Clone, Copy, Drop)]
pub(crate) struct Credit {
    pub(crate) number: u32,
    pub(crate) amount: u64,
    pub(crate) before: u128,
}

/// The credits in the order of their numbers, with their sum. There is room for so many more, which takes no memory then.
#[derive(Drop)]
pub(crate) struct Credits {
    list: Vec<Credit>,
    total: u128,
    room: u32,
}

impl Model for Credits {
    ghost use Rattle.std.specs.Prelude.{◌+◌, ◌≤◌, length};
    ghost use Rattle.at_broadcast.specs.Prelude.{vec_capacity};
    ghost use Rattle.at_broadcast.specs.Credits.{CreditList, AreCredits};

    ghost Value = { CreditList };

    ghost view = { λ c. record { list = c.list.items; room = c.room } };

    ghost invariant = { λ c. AreCredits c.list.items c.total
        × (length c.list.items + c.room ≤ vec_capacity c.list) };
}

impl Credits {
    /// No credit, and no room.
    pub(crate) fn new(alloc: Global) -> Credits
        ensures { result ≡ record { list = []; room = 0 } }
    {
        Credits {
            list: Vec::new(alloc),
            total: 0,
            room: 0,
        }
    }

    /// Makes room for one more credit.
    pub(crate) fn make_room(&mut self) -> Result<(), AllocError>
        ensures ok { OnOk result (self.new ≡ record self.old { room = self.old.room + 1 }) }
        ensures err { OnErr result (self.new ≡ self.old) }
    {
        let Some(room) = self.room.checked_add(1) else {
            return Err(AllocError);
        };
        self.list.reserve(room as usize)?;
        self.room = room;
        Ok(())
    }

    /// Adds a credit, whose number no other's is above, and uses room for one.
    pub(crate) fn push(&mut self, number: u32, amount: u64)
        requires room { 0 < self.old.room }
        requires later { All (λ c. c.number ≤ number) self.old.list }
        requires few { length self.old.list < 2 ^ 40 }
        ensures { self.new ≡ record {
          list = self.old.list ++ credit_after self.old.list number amount ∷ [];
          room =
              self.old.room - 1;
        } }
    {
        self.list.push_reserved(Credit {
            number,
            amount,
            before: self.total,
        });
        self.total += u128::from(amount);
        self.room -= 1;
    }

    /// What came by messages of this number and above. Time grows with the logarithm of the credits.
    pub(crate) fn since(&self, number: u32) -> u128
        ensures sum { result ≡ amount_since number self.now.list }
        ensures small { result ≤ length self.now.list * 2 ^ 64 }
    {
        let first = self.list.partition_point(|credit| credit.number < number);
        match self.list.get(first) {
            Some(credit) => self.total - credit.before,
            None => 0,
        }
    }
}
