//! An object that C holds.

ghost use Rattle.std.specs.Prelude.{◌≡◌, None, Some, is_some};
ghost use Rattle.tink_c_objects.specs.Owned.{IsTakenFrom};

use crate::loose::Loose;
use crate::object::Object;
use crate::slot::Slot;
use std::alloc::Global;
use std::mem::replace;

/// An object that C holds, or none. It is not `Drop`, so that no function can forget to free what it owns.
#[repr(C)]
pub struct Owner {
    pub(crate) slot: Slot,
    full: bool,
    ghost agrees: { full ≡ is_some slot.held },
}

impl Owner {
    /// One that owns no object.
    pub fn none() -> Owner
        ensures { result.slot.held ≡ None }
    {
        Owner {
            slot: Slot::none(),
            full: false,
        }
    }

    /// Takes the object out. If there is none, there is none behind it either.
    pub fn take(&mut self, alloc: Global) -> Option<Box<Object>>
        ensures taken { IsTakenFrom self.old.slot.held result }
        ensures empty { self.new.slot.held ≡ None }
    {
        replace(self, Owner::none()).into_box(alloc)
    }

    /// Puts an object in. The one that was there is freed.
    pub fn put(&mut self, alloc: Global, object: Box<Object>)
        ensures { self.new.slot.held ≡ Some object.value }
    {
        drop(replace(self, Owner::of(object)).into_box(alloc));
    }

    /// Frees the object that was there.
    pub fn free(&mut self, alloc: Global)
        ensures { self.new.slot.held ≡ None }
    {
        drop(self.take(alloc));
    }

    // One that owns an object.
    fn of(object: Box<Object>) -> Owner
        ensures { result.slot.held ≡ Some object.value }
    {
        Owner {
            slot: Slot::hold(Loose::of(object)),
            full: true,
        }
    }

    // The object.
    fn into_box(self, alloc: Global) -> Option<Box<Object>>
        ensures { IsTakenFrom self.slot.held result }
    {
        let Owner { slot, full } = self;
        if full {
            return Some(slot.release(alloc).into_box());
        }
        slot.discard();
        None
    }
}
