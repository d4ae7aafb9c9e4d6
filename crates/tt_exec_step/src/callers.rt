//! Open calls. Apple TrueType Reference Manual, "Instruction set" (defining and using functions).

ghost use Rattle.std.specs.Prelude.{◌≡◌, ◌<◌, ◌≤◌, ◌==◌, [], ◌∷◌, length, MatchOption};
ghost use Rattle.tt_core.specs.Limits.{call_limit};
ghost use Rattle.tt_exec_step.specs.Views.{frame_of};

use crate::program::CallFrame;
use smallvec::SmallVec;
use std::alloc::Global;
use std::marker::Model;
use tt_core::CALL_LIMIT;

/// The frames that wait for the innermost call, with room for the limit of calls. A clause sees them as a list, the
/// innermost first.
#[derive(Drop)]
pub struct Callers<'a> {
    frames: SmallVec<CallFrame<'a>, CALL_LIMIT>,
}

impl<'a> Model for Callers<'a> {
    ghost use Rattle.std.specs.Prelude.{◌≡◌, ◌≤◌, List, length, map, reverse};
    ghost use Rattle.tt_core.specs.Limits.{call_limit};
    ghost use Rattle.tt_exec_step.specs.MachineState.{CallFrame};
    ghost use Rattle.tt_exec_step.specs.Views.{frame_of};

    ghost Value = { List CallFrame };

    ghost view = { λ c. reverse (map frame_of c.frames.items) };

    ghost invariant = { λ c. (length c.frames.items ≤ call_limit) × (c.frames.capacity ≡ call_limit) };
}

impl<'a> Callers<'a> {
    /// No open call.
    pub fn new(alloc: Global) -> Callers<'a>
        ensures { result ≡ [] }
    {
        Callers {
            frames: SmallVec::new(alloc),
        }
    }

    pub(crate) fn clear(&mut self)
        ensures { self.new ≡ [] }
    {
        self.frames.clear();
    }

    /// The count of waiting frames.
    pub(crate) fn len(&self) -> usize
        ensures exact { result ≡ length self.now }
        ensures limit { result ≤ call_limit }
    {
        self.frames.len()
    }

    /// Takes the innermost frame.
    pub(crate) fn pop(&mut self) -> Option<CallFrame<'a>>
        ensures { MatchOption result (self.old ≡ []) (λ f. self.old ≡ frame_of f ∷ self.new) }
    {
        self.frames.pop()
    }

    /// Adds a frame. There has to be room.
    pub(crate) fn push(&mut self, frame: CallFrame<'a>)
        requires { length self.old < call_limit }
        ensures { self.new ≡ frame_of frame.entry ∷ self.old }
    {
        self.frames.push_reserved(frame);
    }
}
