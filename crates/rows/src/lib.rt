// What the machine and the calculators ask of a table, read where it stands in bytes that passed: no table is made of them. That they passed
// is a clause here: what is promised to who has bytes alone stays so. `Checked`, whose type says it, answers by these functions (asked.rt).
#![tactic(auto)]

ghost use Rattle.std.specs.Prelude.{◌≡◌, ◌+◌, ◌*◌, ◌<◌, ◌≤◌, length, get_or, Ok};
ghost use Rattle.table.specs.Table.{output_of, next_of, hold_of, delayed_of, length_of, region_of, timer_set_of};
ghost use Rattle.table.specs.Check.{table_answer, table_in, counts_in, hold_field, delayed_field};
ghost use Rattle.rows.specs.Layouts.{NextRows, LaidOut};

pub mod asked;
pub mod known;

use table::{counts_in, place_in_rows, places_of};
use wire::{number16, number32, wide};

// The numbers of a table, and where the entries of its fields start: for who asks for many of them. With timers it has no holds.
#[derive(Clone, Copy, Debug, PartialEq, Eq)]
pub struct Layout {
    pub states: u32,
    pub inputs: u32,
    pub bound: u32,
    pub timers: u32,
    pub next: usize,
    pub hold: usize,
    pub delayed: usize,
}

pub fn states_of(s: &[u8]) -> u32
    requires { table_answer s.now ≡ Ok tt }
    ensures { result ≡ (table_in s.now).states }
{
    wide(counts_in(s).states)
}

pub fn initial_of(s: &[u8]) -> u32
    requires { table_answer s.now ≡ Ok tt }
    ensures { result ≡ (table_in s.now).initial }
{
    wide(counts_in(s).initial)
}

pub fn bound_of(s: &[u8]) -> u32
    requires { table_answer s.now ≡ Ok tt }
    ensures { result ≡ (table_in s.now).bound }
{
    number32(s, 10)
}

pub fn output_of(s: &[u8], state: u32) -> u32
    requires { (table_answer s.now ≡ Ok tt) × (state < (table_in s.now).states) }
    ensures { result ≡ output_of (table_in s.now) state }
{
    let at = 17 + (state as usize);
    wide(s[at])
}

// In rows that start at `from`.
pub fn next_in(s: &[u8], from: usize, width: u32, state: u32, input: u32) -> u32
    requires { NextRows s.now from width × (state < (table_in s.now).states) × (input < width) }
    ensures { result ≡ next_of (table_in s.now) state input }
{
    let at = from + place_in_rows(width, state, input);
    wide(s[at])
}

pub fn next_of(s: &[u8], state: u32, input: u32) -> u32
    requires { (table_answer s.now ≡ Ok tt) × (state < (table_in s.now).states) × (input < (table_in s.now).inputs) }
    ensures { result ≡ next_of (table_in s.now) state input }
{
    let c = counts_in(s);
    next_in(s, 20 + usize::from(c.states), wide(c.inputs), state, input)
}

// Where the fifth field starts: holds, or timers.
fn fifth_field(s: &[u8]) -> usize
    requires { table_answer s.now ≡ Ok tt }
    ensures { (result ≡ hold_field (counts_in s.now)) × (result + 3 ≤ length s.now) }
{
    let p = places_of(counts_in(s));
    p.hold
}

// How many timers there are, where the fifth field starts at `at`.
fn timers_at(s: &[u8], at: usize) -> u32
    requires { (table_answer s.now ≡ Ok tt) × (at ≡ hold_field (counts_in s.now)) }
    ensures { result ≡ (table_in s.now).timers }
{
    if s[at] == 0x07 {
        return number16(s, at + 1) / 8;
    }
    0
}

pub fn timers_of(s: &[u8]) -> u32
    requires { table_answer s.now ≡ Ok tt }
    ensures { result ≡ (table_in s.now).timers }
{
    timers_at(s, fifth_field(s))
}

pub fn layout_of(s: &[u8]) -> Layout
    requires { table_answer s.now ≡ Ok tt }
    ensures { LaidOut s.now result }
{
    let c = counts_in(s);
    let p = places_of(c);
    Layout {
        states: wide(c.states),
        inputs: wide(c.inputs),
        bound: number32(s, 10),
        timers: timers_at(s, p.hold),
        next: p.next + 3,
        hold: p.hold + 3,
        delayed: p.delayed + 3,
    }
}

// The hold of a state, and the inputs that it delays, in a table without timers; in fields whose entries start at `from`.
pub fn hold_in(s: &[u8], from: usize, state: u32) -> u32
    requires { (table_answer s.now ≡ Ok tt) × (state < (table_in s.now).states) × ((table_in s.now).timers ≡ 0) × (from ≡ hold_field (counts_in s.now) + 3) }
    ensures { result ≡ hold_of (table_in s.now) state }
{
    number32(s, from + 4 * (state as usize))
}

pub fn delayed_in(s: &[u8], from: usize, state: u32) -> u32
    requires { (table_answer s.now ≡ Ok tt) × (state < (table_in s.now).states) × ((table_in s.now).timers ≡ 0) × (from ≡ delayed_field (counts_in s.now) + 3) }
    ensures { result ≡ delayed_of (table_in s.now) state }
{
    number32(s, from + 4 * (state as usize))
}

pub fn hold_of(s: &[u8], state: u32) -> u32
    requires { (table_answer s.now ≡ Ok tt) × (state < (table_in s.now).states) × ((table_in s.now).timers ≡ 0) }
    ensures { result ≡ hold_of (table_in s.now) state }
{
    hold_in(s, fifth_field(s) + 3, state)
}

pub fn delayed_of(s: &[u8], state: u32) -> u32
    requires { (table_answer s.now ≡ Ok tt) × (state < (table_in s.now).states) × ((table_in s.now).timers ≡ 0) }
    ensures { result ≡ delayed_of (table_in s.now) state }
{
    let states = usize::from(counts_in(s).states);
    delayed_in(s, fifth_field(s) + 6 + 4 * states, state)
}

// One of the numbers that field 07 has for the timers.
fn timing_of(s: &[u8], k: usize) -> u32
    requires { (table_answer s.now ≡ Ok tt) × (k < 2 * (table_in s.now).timers) }
    ensures { result ≡ get_or (table_in s.now).timing k 0 }
{
    number32(s, fifth_field(s) + 3 + 4 * k)
}

// Of a timer the length, the region, and the inputs that it delays in a state.
pub fn length_of(s: &[u8], timer: u32) -> u32
    requires { (table_answer s.now ≡ Ok tt) × (timer < (table_in s.now).timers) }
    ensures { result ≡ length_of (table_in s.now) timer }
{
    timing_of(s, 2 * (timer as usize))
}

pub fn region_of(s: &[u8], timer: u32) -> u32
    requires { (table_answer s.now ≡ Ok tt) × (timer < (table_in s.now).timers) }
    ensures { result ≡ region_of (table_in s.now) timer }
{
    timing_of(s, 2 * (timer as usize) + 1)
}

pub fn set_of(s: &[u8], timers: u32, timer: u32, state: u32) -> u32
    requires { (table_answer s.now ≡ Ok tt) × (timers ≡ (table_in s.now).timers) × (timer < timers) × (state < (table_in s.now).states) }
    ensures { result ≡ timer_set_of (table_in s.now) timer state }
{
    let row = state * timers + timer;
    number32(
        s,
        fifth_field(s) + 6 + 8 * (timers as usize) + 4 * (row as usize),
    )
}
