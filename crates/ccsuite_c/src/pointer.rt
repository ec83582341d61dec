ghost use Rattle.std.specs.Prelude.{◌≡◌, None, Some, IsSome, Option};
ghost use Rattle.ccsuite_c.specs.States.{WasFed};
ghost use Rattle.ccsuite_c.specs.declared.state.State.{State as StateOf};

use crate::loose::Loose;
use crate::state::State;
use std::alloc::Global;
use std::marker::Model;

#[repr(C)]
#[derive(Drop)]
pub struct Opaque {
    byte: u8,
}

/// The pointer that C holds: null, or to the one state that it owns, which was fed what the calls fed it.
#[repr(C)]
#[derive(Drop)]
pub struct Pointer {
    at: *mut Opaque,
    pub ghost value: { Option StateOf },
}

impl Model for Pointer {
    ghost use Rattle.ccsuite_c.specs.Held.{held};

    ghost also_owns = { λ p. held p.at p.value };
}

impl Pointer {
    pub(crate) fn closed() -> Pointer
        ensures { result.value ≡ None }
    {
        Pointer {
            at: std::ptr::null_mut(),
        }
    }

    pub(crate) fn of_loose(loose: Loose<State, Global>) -> Pointer
        requires { WasFed loose.value }
        ensures { result.value ≡ Some loose.value }
    {
        let Loose { at, alloc: _ } = loose;
        Pointer {
            at: at as *mut Opaque,
        }
    }

    pub(crate) fn into_loose(self, alloc: Global) -> Loose<State, Global>
        requires { IsSome self.value }
        ensures held { self.value ≡ Some result.value }
        ensures fed { WasFed result.value }
    {
        let Pointer { at } = self;
        Loose {
            at: at as *mut State,
            alloc,
        }
    }
}

// What it owns may be freed on any thread.
unsafe impl Send for Pointer {}
