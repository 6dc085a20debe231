// The converter: reads a table by the rules that it was made under, and writes the same table with the delayed sets emptied that do
// nothing, as the table check now demands.
#![tactic(auto)]

ghost use Rattle.std.specs.Prelude.{◌≡◌, ◌+◌, ◌*◌, ◌≤◌, length, Err};
ghost use Rattle.wire.specs.Encode.{placed_in};
ghost use Rattle.wire.specs.Made.{answer_in, buffer_in};
ghost use Rattle.table.specs.Entries.{values, total};
ghost use Rattle.table.specs.Encode.{words};
ghost use Rattle.convert.specs.Convert.{new_set, change, by_state, made_of};

use copies::copy;
use table::{counts_in, places_of};
use wire::{Refused, number32, put_number32};

#[derive(Clone, Copy, Debug, PartialEq, Eq)]
pub enum Refusal {
    Table(table::Refusal),
    BufferTooShort,
}

impl Refused for Refusal {
    ghost use Rattle.convert.specs.Answer.{convert_refusal, convert_ruled};

    ghost refused = { convert_refusal };

    ghost ruled = { convert_ruled };

    fn number(self) -> u32 {
        match self {
            Refusal::Table(refusal) => refusal.number(),
            Refusal::BufferTooShort => 30,
        }
    }

    fn place(self) -> usize {
        match self {
            Refusal::Table(refusal) => refusal.place(),
            Refusal::BufferTooShort => 0,
        }
    }
}

// A state's delayed set from now on.
fn new_set(hold: u32, set: u32) -> u32
    ensures { result ≡ new_set hold set }
{
    if hold == 0 { 0 } else { set }
}

// 1 where that is a change, else 0.
fn change_of(hold: u32, set: u32) -> u32
    ensures { (result ≡ change hold set) × (result ≤ 1) }
{
    if (hold == 0) & (set != 0) { 1 } else { 0 }
}

// The delayed sets from now on, of n states, in the field at `sets`; and how many of them changed.
fn write_sets(old: &[u8], holds: usize, sets: usize, n: usize, out: &mut [u8]) -> u32
    requires { (holds + 3 + 4 * n ≤ sets) × (sets + 3 + 4 * n ≤ length old.now) × (length old.now ≤ length out.old) × (n ≤ 32) }
    ensures is { result ≡ total (by_state change old.now holds sets) n }
    ensures holds { out.new ≡ placed_in out.old (sets + 3) (words (values (by_state new_set old.now holds sets) n)) }
{
    let mut changed = 0;
    for k in 0..n {
        let hold = number32(old, holds + 3 + 4 * k);
        let set = number32(old, sets + 3 + 4 * k);
        put_number32(out, sets + 3 + 4 * k, new_set(hold, set));
        changed += change_of(hold, set);
    }
    changed
}

// How many states were changed, or what is turned down. 30 comes last; only then the new table goes into the buffer.
pub fn convert(old: &[u8], out: &mut [u8]) -> Result<u32, Refusal>
    ensures is { result ≡ answer_in (Err Refusal.BufferTooShort) (made_of old.now) (length out.old) }
    ensures holds { out.new ≡ buffer_in (made_of old.now) out.old }
{
    let passed = table::check_by(old, true);
    let Ok(()) = passed else {
        return Err(Refusal::Table(passed.unwrap_err()));
    };
    if out.len() < old.len() {
        return Err(Refusal::BufferTooShort);
    }
    copy(old, out);
    let c = counts_in(old);
    let p = places_of(c);
    Ok(write_sets(old, p.hold, p.delayed, usize::from(c.states), out))
}
