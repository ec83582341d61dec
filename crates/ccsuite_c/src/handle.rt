ghost use Rattle.std.specs.Prelude.{◌≡◌, None, Some, IfSome, MatchOption, is_some};
ghost use Rattle.ccsuite_c.specs.States.{WasFed};

use crate::loose::Loose;
use crate::pointer::Pointer;
use crate::state::State;
use std::alloc::Global;
use std::mem;

/// What C holds of a builder, a receiver or a verifier. All zeros is a closed one.
#[repr(C)]
#[derive(Drop)]
pub struct Handle {
    live: bool,
    pointer: Pointer,
    ghost is_live: { live ≡ is_some pointer.value },
}

impl Handle {
    ghost use Rattle.ccsuite_c.specs.Handles.{state_in};

    /// A closed one, as all zeros are.
    pub(crate) fn closed() -> Handle
        ensures { state_in result ≡ None }
    {
        Handle {
            live: false,
            pointer: Pointer::closed(),
        }
    }

    /// Takes what it holds, and leaves it closed.
    pub(crate) fn take(&mut self, alloc: Global) -> Option<Box<State>>
        ensures taken { MatchOption result (state_in self.old ≡ None)
            (λ state. state_in self.old ≡ Some state.value) }
        ensures fed { IfSome result (λ state. WasFed state.value) }
        ensures gone { state_in self.new ≡ None }
    {
        let Handle { live, pointer } = mem::replace(self, Handle::closed());
        if live {
            Some(pointer.into_loose(alloc).into_box())
        } else {
            None
        }
    }

    /// An open one.
    pub(crate) fn of(state: Box<State>) -> Handle
        requires { WasFed state.value }
        ensures { state_in result ≡ Some state.value }
    {
        Handle {
            live: true,
            pointer: Pointer::of_loose(Loose::of(state)),
        }
    }
}
