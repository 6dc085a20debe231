// A table as one value, of which it is known that it is well formed.
ghost use Rattle.std.specs.Prelude.{◌≡◌, ◌≤◌};
ghost use Rattle.table.specs.Table.{WellFormed};
ghost use Rattle.table.specs.Table as of;

use crate::asked::Rows;
use table::{Table, next_state};

#[derive(Clone, Copy, Debug, PartialEq, Eq)]
pub struct Known<'a> {
    pub value: &'a Table,
    ghost well: { WellFormed value.now },
}

impl<'a> Rows for Known<'a> {
    ghost table = { λ t. t.value.now };

    ghost well = { λ t. t.well };

    fn bound(&self) -> u32 {
        self.value.bound
    }

    fn timers(&self) -> u32 {
        self.value.timers
    }

    fn next(&self, state: u32, input: u32) -> u32 {
        next_state(&self.value.next, self.value.inputs, state, input)
    }

    fn hold(&self, state: u32) -> u32 {
        self.value.hold[state as usize]
    }

    fn delayed(&self, state: u32) -> u32 {
        self.value.delayed[state as usize]
    }

    fn length(&self, timer: u32) -> u32 {
        self.value.timing[2 * (timer as usize)]
    }

    fn region(&self, timer: u32) -> u32 {
        self.value.timing[2 * (timer as usize) + 1]
    }

    fn set(&self, timer: u32, state: u32) -> u32 {
        self.value.sets[(state * self.value.timers + timer) as usize]
    }
}
