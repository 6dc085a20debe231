// What a step asks of a table, wherever it stands: in bytes that passed, or in one value.
ghost use Rattle.std.specs.Prelude.{◌≡◌, ◌<◌};
ghost use Rattle.table.specs.declared.Table.{Table};
ghost use Rattle.table.specs.Table as of;
ghost use Rattle.table.specs.Check.{table_in};

use super::{bound_of, delayed_of, hold_of, length_of, next_of, region_of, set_of, timers_of};
use table::checked::Checked;

pub trait Rows {
    ghost table: { Self → Table };

    fn bound(&self) -> u32
        ensures { result ≡ (table self.now).bound };

    fn timers(&self) -> u32
        ensures { result ≡ (table self.now).timers };

    fn next(&self, state: u32, input: u32) -> u32
        requires { (state < (table self.now).states) × (input < (table self.now).inputs) }
        ensures { result ≡ of.next_of (table self.now) state input };

    fn hold(&self, state: u32) -> u32
        requires { (state < (table self.now).states) × ((table self.now).timers ≡ 0) }
        ensures { result ≡ of.hold_of (table self.now) state };

    fn delayed(&self, state: u32) -> u32
        requires { (state < (table self.now).states) × ((table self.now).timers ≡ 0) }
        ensures { result ≡ of.delayed_of (table self.now) state };

    // 0 for a timer that the table has not got, as its region.
    fn length(&self, timer: u32) -> u32
        requires { timer < 4 }
        ensures { result ≡ of.length_of (table self.now) timer };

    fn region(&self, timer: u32) -> u32
        requires { timer < 4 }
        ensures { result ≡ of.region_of (table self.now) timer };

    fn set(&self, timer: u32, state: u32) -> u32
        requires { (timer < (table self.now).timers) × (state < (table self.now).states) }
        ensures { result ≡ of.timer_set_of (table self.now) timer state };

    ghost well: { (rows : Self) → of.WellFormed (table rows) };
}

impl<'a> Rows for Checked<'a> {
    ghost use Rattle.table.proofs.WellFormed.{well_formed};

    ghost table = { λ t. table_in t.bytes.now };

    ghost well = { λ t. well_formed t.bytes.now t.passes };

    fn bound(&self) -> u32 {
        bound_of(self.bytes)
    }

    fn timers(&self) -> u32 {
        timers_of(self.bytes)
    }

    fn next(&self, state: u32, input: u32) -> u32 {
        next_of(self.bytes, state, input)
    }

    fn hold(&self, state: u32) -> u32 {
        hold_of(self.bytes, state)
    }

    fn delayed(&self, state: u32) -> u32 {
        delayed_of(self.bytes, state)
    }

    fn length(&self, timer: u32) -> u32 {
        if timers_of(self.bytes) <= timer {
            return 0;
        }
        length_of(self.bytes, timer)
    }

    fn region(&self, timer: u32) -> u32 {
        if timers_of(self.bytes) <= timer {
            return 0;
        }
        region_of(self.bytes, timer)
    }

    fn set(&self, timer: u32, state: u32) -> u32 {
        set_of(self.bytes, timers_of(self.bytes), timer, state)
    }
}
