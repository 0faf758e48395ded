//! Where a run is.

ghost use Rattle.std.specs.Prelude.{◌≡◌};
ghost use Rattle.je_machine.specs.Machine.{state_at};

use crate::frame::Frame;
use je_heap::Outside;
use std::marker::Model;

/// The index of the next instruction, the frame, and the outside. Contracts see it as the
/// definition's `State`.
#[derive(Debug, Drop)]
pub struct State {
    place: usize,
    frame: Frame,
    outside: Outside,
}

impl Model for State {
    ghost use Rattle.je_machine.specs.Machine as machine;

    ghost Value = { machine.State };

    ghost use Rattle.je_vm.specs.FrameCode.{state_code};

    ghost coded = { state_code };

    ghost view = { λ s. record { place = s.place; frame = s.frame; outside = s.outside } };
}

impl State {
    /// The state at an instruction, with this frame and this outside.
    pub fn of(place: usize, frame: Frame, outside: Outside) -> State
        ensures { result ≡ state_at place frame outside }
    {
        State {
            place,
            frame,
            outside,
        }
    }

    /// The index of the next instruction.
    pub fn place(&self) -> usize
        ensures { result ≡ self.now.place }
    {
        self.place
    }

    /// The index of the next instruction, the frame, and the outside.
    pub fn into_parts(self) -> (usize, Frame, Outside)
        ensures { self ≡ state_at result.0 result.1 result.2 }
    {
        (self.place, self.frame, self.outside)
    }
}
