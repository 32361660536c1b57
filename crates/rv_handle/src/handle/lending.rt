//! The state that a handle lends.
ghost use Rattle.std.specs.Prelude.{◌≡◌};
ghost use types.Logic.{sem};
ghost use Rattle.rv_handle.specs.Support.Lending.{state_follows};

use super::Handle;
use crate::state::State;

impl Handle {
    /// Lends the state.
    pub fn state(&mut self) -> &mut State
        ensures* writes_back { sem 𝓛 (state_follows self.entry result) }
        ensures value { result.now ≡ self.old.value }
    {
        unsafe { &mut *(self.ptr as *mut State) }
    }
}
