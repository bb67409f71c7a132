//! A nullable pointer that owns a box.

ghost use Rattle.std.specs.Prelude.{◌≡◌, Some, None, IsSome};
ghost use Rattle.vp8_c.specs.Slot.{MaybeHandleValue, slot_owns, coded_held};

use crate::handle_value::HandleValue;
use crate::raw_box::RawBox;
use std::alloc::Global;
use std::marker::Model;
use std::ptr;

/// An owning pointer to a handle's value, or null; `void *` in C. A slot that owns a value can't be dropped: the value
/// must be taken out first.
#[repr(C)]
pub struct Slot {
    at: *mut u8,
    pub ghost held: { MaybeHandleValue } by { coded_held },
}

impl Model for Slot {
    ghost also_owns = { λ s. slot_owns s.at s.held };
}

impl Slot {
    /// Returns a null slot.
    pub fn empty() -> Slot
        ensures { result.held ≡ None }
    {
        Slot {
            at: ptr::null_mut(),
        }
    }

    /// Creates a slot from the parts of a box.
    pub fn of_parts(parts: RawBox<HandleValue, Global>) -> Slot
        ensures { result.held ≡ Some parts.value }
    {
        let RawBox { ptr, alloc: _ } = parts;
        Slot { at: ptr as *mut u8 }
    }

    /// Takes the parts of the box out of the slot.
    pub fn into_parts(self, alloc: Global) -> RawBox<HandleValue, Global>
        requires { IsSome self.held }
        ensures { Some result.value ≡ self.held }
    {
        let Slot { at } = self;
        RawBox {
            ptr: at as *mut HandleValue,
            alloc,
        }
    }

    /// Consumes a null slot.
    pub fn forget(self)
        requires { self.held ≡ None }
    {
        let Slot { at: _ } = self;
    }
}
