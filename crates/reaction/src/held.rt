// A table that passed its check, and where its entries stand.
ghost use Rattle.std.specs.Prelude.{◌≡◌, ◌<◌};
ghost use Rattle.table.specs.Table.{next_of};
ghost use Rattle.table.specs.Check.{table_in};
ghost use Rattle.rows.specs.Layouts.{LaidOut};
ghost use Rattle.reaction.specs.Walks.{weight_in};

use super::weight;
use rows::{Layout, delayed_in, hold_in, next_in};
use sets::meet;
use table::checked::Checked;

// No more is derived, since nothing compares or prints one: no plainer.
#[derive(Clone, Copy)]
pub struct Held<'a> {
    pub table: Checked<'a>,
    pub layout: Layout,
    ghost laid: { LaidOut table.bytes.now layout },
}

impl<'a> Held<'a> {
    pub fn next(&self, state: u32, input: u32) -> u32
        requires { (state < (table_in self.now.table.bytes.now).states) × (input < (table_in self.now.table.bytes.now).inputs) }
        ensures { result ≡ next_of (table_in self.now.table.bytes.now) state input }
    {
        next_in(
            self.table.bytes,
            self.layout.next,
            self.layout.inputs,
            state,
            input,
        )
    }

    // The weight of a state, from its hold and its delayed set: a table with timers has neither.
    pub fn state_weight(&self, inputs: u32, state: u32) -> u32
        requires { (state < (table_in self.now.table.bytes.now).states) × ((table_in self.now.table.bytes.now).timers ≡ 0) }
        ensures { result ≡ weight_in (table_in self.now.table.bytes.now) inputs state }
    {
        let hold = hold_in(self.table.bytes, self.layout.hold, state);
        let set = delayed_in(self.table.bytes, self.layout.delayed, state);
        weight(hold, self.layout.bound, meet(inputs, set))
    }
}
