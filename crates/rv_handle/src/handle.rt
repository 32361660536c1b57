//! A box that the page keeps between calls, by its pointer.
ghost use Rattle.std.specs.Prelude.{◌≡◌, Option, Some};
ghost use Rattle.rv_handle.specs.declared.state.State.{State};
ghost use Rattle.rv_handle.specs.Support.Owned.{handle_owns, made_coded, made_owns, state_coded};

mod lending;
mod parts;

use crate::state::State;
use parts::Parts;
use std::alloc::Global;
use std::marker::Model;

/// A state that the page keeps.
#[repr(C)]
pub struct Handle {
    ptr: *mut u8,
    alloc: Global,
    pub ghost value: { State } by { state_coded },
}

impl Model for Handle {
    ghost also_owns = { λ h. handle_owns h.alloc h.ptr h.value };
}

/// Where the page has a handle made: none yet, or a handle with its state.
#[repr(C)]
#[derive(Drop)]
pub struct NewHandle {
    ptr: *mut u8,
    alloc: Global,
    pub ghost value: { Option State } by { made_coded },
}

impl Model for NewHandle {
    ghost also_owns = { λ h. made_owns h.alloc h.ptr h.value };
}

impl NewHandle {
    /// Returns the handle of the parts of a box.
    fn of_parts(parts: Parts<State, Global>) -> NewHandle
        ensures { result.value ≡ Some parts.value }
    {
        let Parts { ptr, alloc } = parts;
        NewHandle {
            ptr: ptr as *mut u8,
            alloc,
        }
    }

    /// Returns a box as a handle.
    pub fn of(b: Box<State>) -> NewHandle
        ensures { result.value ≡ Some b.value }
    {
        NewHandle::of_parts(Parts::of(b))
    }
}
