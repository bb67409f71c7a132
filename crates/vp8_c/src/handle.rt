//! Handles in C's memory layout.

ghost use Rattle.std.specs.Prelude.{◌≡◌, ◌⊎◌, Some, None, option_map, is_some, if◌then◌else◌};

use crate::handle_value::HandleValue;
use crate::raw_box::RawBox;
use crate::slot::Slot;
use crate::status::{MEMORY, OK};
use std::alloc::Global;
use std::mem;

/// A handle in the caller's memory. It is closed if both fields are 0.
#[repr(C)]
pub struct Handle {
    in_use: u32,
    slot: Slot,
    ghost told: { in_use ≡ (if is_some slot.held then 1 else 0) },
}

impl Handle {
    ghost use Rattle.vp8_c.specs.Handle.{handle_value_in};

    /// Returns whether the handle is open.
    pub fn is_open(&self) -> bool
        ensures { result ≡ is_some (handle_value_in self.now) }
    {
        self.in_use != 0
    }

    /// Takes the value out of the handle, which is closed then.
    pub fn take(&mut self, alloc: Global) -> Option<Box<HandleValue, Global>>
        ensures taken { option_map (λ b. b.value) result ≡ handle_value_in self.old }
        ensures closed { handle_value_in self.new ≡ None }
    {
        let closed = Handle {
            in_use: 0,
            slot: Slot::empty(),
        };
        let Handle { in_use, slot } = mem::replace(self, closed);
        if in_use == 0 {
            slot.forget();
            return None;
        }
        Some(slot.into_parts(alloc).into_box())
    }

    /// Puts a value into a closed handle.
    pub fn put(&mut self, held: Box<HandleValue, Global>)
        requires { handle_value_in self.old ≡ None }
        ensures { handle_value_in self.new ≡ Some held.value }
    {
        let open = Handle {
            in_use: 1,
            slot: Slot::of_parts(RawBox::of(held)),
        };
        let Handle { in_use: _, slot } = mem::replace(self, open);
        slot.forget();
    }

    /// Puts a value into a closed handle, in memory of its own.
    ///
    /// Status: `MEMORY`.
    pub fn open(&mut self, alloc: Global, value: HandleValue) -> u32
        requires { handle_value_in self.old ≡ None }
        ensures answer { (result ≡ OK) ⊎ (result ≡ MEMORY) }
        ensures opened { result ≡ OK → handle_value_in self.new ≡ Some value }
        ensures refused { result ≡ MEMORY → handle_value_in self.new ≡ None }
    {
        match Box::new(alloc, value) {
            Ok(held) => {
                self.put(held);
                OK
            }
            Err(_) => MEMORY,
        }
    }
}

#[cfg(test)]
impl Handle {
    ghost use Rattle.vp8_c.specs.Handle.{handle_value_in};

    /// Returns a closed handle, as C's `VP8_INIT`.
    pub fn closed() -> Handle
        ensures { handle_value_in result ≡ None }
    {
        Handle {
            in_use: 0,
            slot: Slot::empty(),
        }
    }

    /// Consumes a closed handle.
    pub fn forget(self)
        requires { handle_value_in self ≡ None }
    {
        let Handle { in_use: _, slot } = self;
        slot.forget();
    }
}
