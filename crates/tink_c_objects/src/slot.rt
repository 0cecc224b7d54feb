//! A pointer that C holds, and what it owns.

ghost use Rattle.std.specs.Prelude.{◌≡◌, None, Some, IsSome};
ghost use Rattle.std.specs.declared.option.Option.{Option};
ghost use Rattle.tink_c_objects.specs.declared.object.Object.{Object};
ghost use Rattle.tink_c_objects.specs.Owned.{held_coded, slot_owns};

use crate::loose::Loose;
use crate::object::Object;
use std::alloc::Global;
use std::marker::Model;
use std::ptr::null_mut;

/// A pointer to an object on the heap, which it owns, or any pointer, which owns nothing. It is not `Drop`: `release` and
/// `discard` alone end it.
#[repr(C)]
pub struct Slot {
    at: *mut u8,
    pub(crate) ghost held: { Option Object } by { held_coded },
}

impl Model for Slot {
    ghost also_owns = { λ s. slot_owns s.at s.held };
}

impl Slot {
    /// One that owns nothing.
    pub(crate) fn none() -> Slot
        ensures { result.held ≡ None }
    {
        Slot { at: null_mut() }
    }

    /// One that owns the object of a box.
    pub(crate) fn hold(loose: Loose<Object, Global>) -> Slot
        ensures { result.held ≡ Some loose.value }
    {
        let Loose { at, alloc: _ } = loose;
        Slot { at: at as *mut u8 }
    }

    /// Ends one that owns nothing.
    pub(crate) fn discard(self)
        requires { self.held ≡ None }
    {
        let Slot { at: _ } = self;
    }

    /// The box of the object.
    pub(crate) fn release(self, alloc: Global) -> Loose<Object, Global>
        requires { IsSome self.held }
        ensures { self.held ≡ Some result.value }
    {
        let Slot { at } = self;
        Loose {
            at: at as *mut Object,
            alloc,
        }
    }
}
