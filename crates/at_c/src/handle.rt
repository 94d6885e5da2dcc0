//! Handles: what a program in C holds.

ghost use Rattle.std.specs.Prelude.{◌≡◌, None, Option, Some};
ghost use Rattle.at_c.specs.Prelude.{option_map};
ghost use Rattle.at_c.specs.declared.held.Held.{Held};

use crate::held::Held;
use crate::loose::Loose;
use std::alloc::Global;
use std::marker::Model;
use std::mem::replace;
use std::ptr::null_mut;

/// A pointer that C holds, and that the library alone follows. It is null where the handle holds nothing.
#[repr(C)]
#[derive(Drop)]
pub struct Handle {
    at: *mut u8,
    alloc: Global,
    pub ghost held: { Option Held },
}

impl Model for Handle {
    ghost use Rattle.at_c.specs.Handles.{owns_held};
    ghost use Rattle.at_c.specs.contracts.held.Held.{the_row};

    ghost also_owns = { λ h. owns_held the_row h.alloc h.at h.held };
}

// Right here: the pointer is that of a box which the handle alone owns, or null.
unsafe impl Send for Handle {}

impl Handle {
    /// A handle that holds nothing.
    fn closed(alloc: Global) -> Handle
        ensures { result.held ≡ None }
    {
        Handle {
            at: null_mut(),
            alloc,
        }
    }

    /// A handle of what stands behind the pointer.
    fn of(held: Loose<Held, Global>) -> Handle
        ensures { result.held ≡ Some held.value }
    {
        let Loose { at, alloc } = held;
        Handle {
            at: at as *mut u8,
            alloc,
        }
    }

    /// The pointer to what the handle holds.
    fn into_loose(self) -> Option<Loose<Held, Global>>
        ensures { option_map (λ l. l.value) result ≡ self.held }
    {
        let Handle { at, alloc } = self;
        if at.is_null() {
            None
        } else {
            Some(Loose {
                at: at as *mut Held,
                alloc,
            })
        }
    }

    /// What the handle holds. The handle is left with nothing.
    pub(crate) fn take(&mut self, alloc: Global) -> Option<Box<Held>>
        ensures taken { option_map (λ b. b.value) result ≡ self.old.held }
        ensures left { self.new.held ≡ None }
    {
        match replace(self, Handle::closed(alloc)).into_loose() {
            Some(held) => Some(held.into_box()),
            None => None,
        }
    }

    /// Leaves the handle with this. What it held before is forgotten, so that it is to hold nothing.
    pub(crate) fn put(&mut self, held: Box<Held>)
        ensures { self.new.held ≡ Some held.value }
    {
        *self = Handle::of(Loose::of(held));
    }
}
