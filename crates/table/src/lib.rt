// The table check and the table. The check looks at any bytes, field by field in file order. From bytes
// that passed the automaton's table is read as one value; everything above has tables only in this form.
#![tactic(auto)]

ghost use Rattle.std.specs.Prelude.{◌≡◌, ◌+◌, ◌*◌, ◌<◌, ◌≤◌, length, get_or, Ok, if◌then◌else◌};
ghost use Rattle.wire.specs.Choice.{◌=?◌};
ghost use Rattle.wire.specs.Field.{field_at};
ghost use Rattle.table.specs.declared.Counts as declared;
ghost use Rattle.table.specs.Answer.{◌or_else◌};
ghost use Rattle.table.specs.Entries.{zeros};
ghost use Rattle.table.specs.Inner.{PlacesOf};
ghost use Rattle.table.specs.Check.{counts_in, counts_in_range};
ghost use Rattle.table.specs.Check.{counts_answer, bound_answer, holds_answer, timer_sets_answer, timers_answer, tagged, timing_answer};
ghost use Rattle.table.specs.Check.{hold_field, entries_answer, answer_by, table_answer, timers_in, table_in};

use sets::set_limit;
use wire::{Field, Refused, number16, number32, wide};

mod arrays;
pub mod checked;
mod fields;

use arrays::{fill_bytes, fill_words};
use fields::{check_bytes, check_sets, check_timers, check_words, expect_field};

// The largest cycle bound E, and the longest hold.
pub const LARGEST_BOUND: u32 = 60000;

pub const LONGEST_HOLD: u32 = 3600000;

pub const MOST_TIMERS: usize = 4;

// A hold that is allowed is below this. By `as`, since a constant calls no `from`.
const HOLD_LIMIT: u64 = LONGEST_HOLD as u64 + 1;

// Rows of next states have `inputs` entries each: next(q, i) stands at q * inputs + i. Entries that the counts leave unused are 0.
#[derive(Clone, Copy, Debug, PartialEq, Eq)]
pub struct Table {
    pub states: u32,
    pub inputs: u32,
    pub outputs: u32,
    pub initial: u32,
    pub bound: u32,
    // 0 in a table with holds; in one with timers all holds and delayed sets are 0.
    pub timers: u32,
    pub output: [u8; 32],
    pub next: [u8; 1024],
    pub hold: [u32; 32],
    pub delayed: [u32; 32],
    // Of timer k the length at 2 * k, and then the region: flat, as every array of a table is (docs/RULES.md, section 17).
    pub timing: [u32; 8],
    // Rows by state: the inputs that timer k delays in state q stand at q * timers + k.
    pub sets: [u32; 128],
}

// Each refusal holds its place.
#[derive(Clone, Copy, Debug, PartialEq, Eq)]
pub enum Refusal {
    RunsOut(usize),
    WrongTagOrLength(usize),
    CountOutOfRange(usize),
    BoundOutOfRange(usize),
    EntryOutOfRange(usize),
    HoldTooLong(usize),
    UnknownInputDelayed(usize),
    IdleSet(usize),
    UnknownMember(usize),
    TimerOutOfRange(usize),
    BytesAfter(usize),
}

// What field 01 says, in any bytes: `counts_in` does not ask whether it is in range, so that this is a clause where it is needed, and no ghost
// field.
#[derive(Clone, Copy, Debug, PartialEq, Eq)]
pub struct Counts {
    pub states: u8,
    pub inputs: u8,
    pub outputs: u8,
    pub initial: u8,
}

// How many next states field 04 has, where fields 04, 05 and 06 start, and where the table ends.
#[derive(Clone, Copy, Debug, PartialEq, Eq)]
pub struct Places {
    pub pairs: usize,
    pub next: usize,
    pub hold: usize,
    pub delayed: usize,
    pub end: usize,
}

impl Refused for Refusal {
    ghost use Rattle.table.specs.Answer.{table_refusal, table_ruled};

    ghost refused = { table_refusal };

    ghost ruled = { table_ruled };

    fn number(self) -> u32 {
        match self {
            Refusal::RunsOut(_) => 1,
            Refusal::WrongTagOrLength(_) => 2,
            Refusal::CountOutOfRange(_) => 3,
            Refusal::BoundOutOfRange(_) => 4,
            Refusal::EntryOutOfRange(_) => 5,
            Refusal::HoldTooLong(_) => 6,
            Refusal::UnknownInputDelayed(_) => 7,
            Refusal::IdleSet(_) => 11,
            Refusal::UnknownMember(_) => 12,
            Refusal::TimerOutOfRange(_) => 13,
            Refusal::BytesAfter(_) => 8,
        }
    }

    fn place(self) -> usize {
        match self {
            Refusal::RunsOut(at)
            | Refusal::WrongTagOrLength(at)
            | Refusal::CountOutOfRange(at)
            | Refusal::BoundOutOfRange(at)
            | Refusal::EntryOutOfRange(at)
            | Refusal::HoldTooLong(at)
            | Refusal::UnknownInputDelayed(at)
            | Refusal::IdleSet(at)
            | Refusal::UnknownMember(at)
            | Refusal::TimerOutOfRange(at)
            | Refusal::BytesAfter(at) => at,
        }
    }
}

// A test that fails turns the table down.
fn or_else(test: bool, refusal: Refusal) -> Result<(), Refusal>
    ensures { result ≡ test or_else refusal }
{
    if test { Ok(()) } else { Err(refusal) }
}

pub fn counts_in(s: &[u8]) -> Counts
    requires { 7 ≤ length s.now }
    ensures { result ≡ counts_in s.now }
{
    Counts {
        states: s[3],
        inputs: s[4],
        outputs: s[5],
        initial: s[6],
    }
}

// All the tests are made: none is worth a branch of its own.
fn counts_in_range(c: Counts) -> bool
    ensures { result ≡ counts_in_range c }
{
    ((1 <= c.states) & (c.states <= 32))
        & ((1 <= c.inputs) & (c.inputs <= 32))
        & ((1 <= c.outputs) & (c.outputs <= 32))
        & (c.initial < c.states)
}

// Field 01.
#[tactic(auto, using(crate::proofs::Answers::passed_up, crate::proofs::Answers::past, crate::proofs::Answers::let_pass, crate::proofs::Rows::field_stands), unfolding(crate::specs::Check::counts_answer))]
fn check_counts(s: &[u8]) -> Result<(), Refusal>
    ensures { result ≡ counts_answer s.now }
{
    expect_field(s, 0, 0x01, 4)?;
    or_else(counts_in_range(counts_in(s)), Refusal::CountOutOfRange(0))
}

// Field 02.
#[tactic(auto, using(crate::proofs::Answers::passed_up, crate::proofs::Answers::past, crate::proofs::Answers::let_pass, crate::proofs::Rows::field_stands), unfolding(crate::specs::Check::bound_answer))]
fn check_bound(s: &[u8]) -> Result<(), Refusal>
    requires { 7 ≤ length s.now }
    ensures { result ≡ bound_answer s.now }
{
    expect_field(s, 7, 0x02, 4)?;
    let bound = number32(s, 10);
    or_else(
        (1 <= bound) & (bound <= LARGEST_BOUND),
        Refusal::BoundOutOfRange(7),
    )
}

// How many pairs of a state and an input there are.
fn pairs_of(c: Counts) -> usize
    requires { (c.states ≤ 32) × (c.inputs ≤ 32) }
    ensures { (result ≡ c.states * c.inputs) × (result ≤ 1024) }
{
    usize::from(c.states) * usize::from(c.inputs)
}

pub fn places_of(c: Counts) -> Places
    requires { (c.states ≤ 32) × (c.inputs ≤ 32) }
    ensures { PlacesOf c result }
{
    let states = usize::from(c.states);
    let pairs = pairs_of(c);
    let next = 17 + states;
    let hold = next + 3 + pairs;
    let delayed = hold + 3 + 4 * states;
    Places {
        pairs,
        next,
        hold,
        delayed,
        end: delayed + 3 + 4 * states,
    }
}

// Fields 05 and 06, and the bytes after them.
#[tactic(auto, using(crate::proofs::Answers::passed_up, crate::proofs::Answers::past, crate::proofs::Answers::let_pass, crate::proofs::Rows::row_fits), unfolding(crate::specs::Check::holds_answer, crate::specs::Inner::bad_word))]
fn check_holds(s: &[u8], c: Counts, p: Places, old: bool) -> Result<(), Refusal>
    requires { PlacesOf c p × (p.hold ≤ length s.now) × (c.states ≤ 32) × (c.inputs ≤ 32) }
    ensures { result ≡ holds_answer old c s.now }
{
    let states = usize::from(c.states);
    check_words(s, p.hold, 0x05, states, HOLD_LIMIT)?;
    check_sets(
        s,
        p.hold,
        p.delayed,
        states,
        set_limit(u32::from(c.inputs)),
        old,
    )?;
    or_else(s.len() <= p.end, Refusal::BytesAfter(p.end))
}

// Fields 07 and 08, and the bytes after them, with n timers. Field 07 starts at `at`.
#[tactic(auto, using(crate::proofs::Answers::passed_up, crate::proofs::Answers::past, crate::proofs::Answers::let_pass, crate::proofs::Rows::row_fits, crate::proofs::Rows::number_known), unfolding(crate::specs::Check::timers_answer))]
fn check_timed(s: &[u8], c: Counts, at: usize, n: usize) -> Result<(), Refusal>
    requires { (at ≡ hold_field c) × (at ≤ length s.now) × (c.states ≤ 32) × (c.inputs ≤ 32) }
    ensures { result ≡ timers_answer c n s.now }
{
    or_else((1 <= n) & (n <= MOST_TIMERS), Refusal::WrongTagOrLength(at))?;
    check_timers(s, at, n, set_limit(u32::from(c.states)))?;
    check_timer_sets(s, c, at + 3 + 8 * n, n)
}

// Field 08, which starts at `at`, and the bytes after it.
#[tactic(auto, using(crate::proofs::Answers::passed_up, crate::proofs::Answers::past, crate::proofs::Answers::let_pass), unfolding(crate::specs::Check::timer_sets_answer, crate::specs::Inner::bad_word))]
fn check_timer_sets(s: &[u8], c: Counts, at: usize, n: usize) -> Result<(), Refusal>
    requires { (at ≤ length s.now) × (c.states ≤ 32) × (c.inputs ≤ 32) × (n ≤ 4) }
    ensures { result ≡ timer_sets_answer c at n s.now }
{
    let rows = usize::from(c.states) * n;
    check_words(s, at, 0x08, rows, set_limit(u32::from(c.inputs)))?;
    let end = at + 3 + 4 * rows;
    or_else(s.len() <= end, Refusal::BytesAfter(end))
}

// Whether field 07 stands at `at`, whole. Most tables have holds, and there the tag tells.
fn timed(s: &[u8], at: usize) -> bool
    requires { at ≤ length s.now }
    ensures { result ≡ tagged (field_at s.now at) }
{
    if s.len() <= at {
        return false;
    }
    if s[at] != 0x07 {
        return false;
    }
    let Some(Field { tag, .. }) = wire::read_field(s, at) else {
        return false;
    };
    tag == 0x07
}

// Holds, or timers where the fifth field says so.
fn check_timing(s: &[u8], c: Counts, p: Places, old: bool) -> Result<(), Refusal>
    requires { PlacesOf c p × (p.hold ≤ length s.now) × (c.states ≤ 32) × (c.inputs ≤ 32) }
    ensures { result ≡ timing_answer old c s.now }
{
    if !old & timed(s, p.hold) {
        let claimed = number16(s, p.hold + 1) / 8;
        return check_timed(s, c, p.hold, claimed as usize);
    }
    check_holds(s, c, p, old)
}

// Fields 03 and on, and the bytes after them, under the counts of field 01.
#[tactic(auto, using(crate::proofs::Answers::passed_up, crate::proofs::Answers::past, crate::proofs::Answers::let_pass, crate::proofs::Rows::row_fits), unfolding(crate::specs::Check::entries_answer))]
fn check_entries(s: &[u8], c: Counts, old: bool) -> Result<(), Refusal>
    requires { (14 ≤ length s.now) × (c.states ≤ 32) × (c.inputs ≤ 32) }
    ensures { result ≡ entries_answer old c s.now }
{
    let p = places_of(c);
    check_bytes(s, 14, 0x03, usize::from(c.states), c.outputs)?;
    check_bytes(s, p.next, 0x04, p.pairs, c.states)?;
    check_timing(s, c, p, old)
}

// It only looks, and makes no table.
pub fn check(s: &[u8]) -> Result<(), Refusal>
    ensures { result ≡ table_answer s.now }
{
    check_by(s, false)
}

// The check, by the old rules or by today's. A flag says which: `answer_by` and `WellFormedBy` are stated over it (docs/DECISIONS.md).
#[tactic(auto, using(crate::proofs::Answers::passed_up, crate::proofs::Answers::past, crate::proofs::Answers::let_pass, crate::proofs::Stands::counts_there, crate::proofs::Stands::counts_few, crate::proofs::Stands::bound_there), unfolding(crate::specs::Check::answer_by))]
pub fn check_by(s: &[u8], old: bool) -> Result<(), Refusal>
    ensures { result ≡ answer_by old s.now }
{
    check_counts(s)?;
    check_bound(s)?;
    check_entries(s, counts_in(s), old)
}

// How many timers the table has whose fifth field starts at `at`: 0 where it has holds.
fn timers_in(s: &[u8], at: usize) -> usize
    requires { at ≤ length s.now }
    ensures { (c : declared.Counts) → at ≡ hold_field c → result ≡ timers_in c s.now }
{
    if timed(s, at) {
        return (number16(s, at + 1) / 8) as usize;
    }
    0
}

// With timers no state has a hold of its own.
fn holders_of(timers: usize, states: usize) -> usize
    ensures { result ≡ (if timers =? 0 then states else 0) }
{
    if timers == 0 { states } else { 0 }
}

// How many inputs the table has, for who asks nothing else of it.
pub fn inputs_in(s: &[u8]) -> u32
    requires { table_answer s.now ≡ Ok tt }
    ensures { result ≡ (table_in s.now).inputs }
{
    wide(counts_in(s).inputs)
}

// The table in bytes that passed.
pub fn read(s: &[u8]) -> Table
    requires { table_answer s.now ≡ Ok tt }
    ensures { result ≡ table_in s.now }
{
    let mut t = blank();
    read_into(s, &mut t);
    t
}

// A table of which nothing has been read: each of its numbers is 0.
pub fn blank() -> Table
    ensures counts { (result.states ≡ 0) × (result.inputs ≡ 0) × (result.outputs ≡ 0) }
    ensures numbers { (result.initial ≡ 0) × (result.bound ≡ 0) × (result.timers ≡ 0) }
    ensures rows { (result.output ≡ zeros 32) × (result.next ≡ zeros 1024) }
    ensures holds { (result.hold ≡ zeros 32) × (result.delayed ≡ zeros 32) }
    ensures timed { (result.timing ≡ zeros 8) × (result.sets ≡ zeros 128) }
{
    Table {
        states: 0,
        inputs: 0,
        outputs: 0,
        initial: 0,
        bound: 0,
        timers: 0,
        output: [0u8; 32],
        next: [0u8; 1024],
        hold: [0u32; 32],
        delayed: [0u32; 32],
        timing: [0u32; 8],
        sets: [0u32; 128],
    }
}

// The table in bytes that passed, its arrays filled in place: a table that is handed back would be on the stack three times.
// `as` widens here: no plainer by `from`, each of which is a call whose answer every law of `*t` would have to rewrite first.
pub fn read_into(s: &[u8], t: &mut Table)
    requires { table_answer s.now ≡ Ok tt }
    ensures { t.new ≡ table_in s.now }
{
    let c = counts_in(s);
    let states = c.states as usize;
    let p = places_of(c);
    let timers = timers_in(s, p.hold);
    let holders = holders_of(timers, states);
    *t = Table {
        states: c.states as u32,
        inputs: c.inputs as u32,
        outputs: c.outputs as u32,
        initial: c.initial as u32,
        bound: number32(s, 10),
        timers: timers as u32,
        output: [0u8; 32],
        next: [0u8; 1024],
        hold: [0u32; 32],
        delayed: [0u32; 32],
        timing: [0u32; 8],
        sets: [0u32; 128],
    };
    fill_bytes(s, 14, states, &mut t.output);
    fill_bytes(s, p.next, p.pairs, &mut t.next);
    fill_words(s, p.hold, holders, &mut t.hold);
    fill_words(s, p.delayed, holders, &mut t.delayed);
    fill_words(s, p.hold, 2 * timers, &mut t.timing);
    fill_words(s, p.hold + 3 + 8 * timers, states * timers, &mut t.sets);
}

// Where next(state, input) stands in the rows of a table with this many inputs.
pub fn place_in_rows(inputs: u32, state: u32, input: u32) -> usize
    requires { (inputs ≤ 32) × (state < 32) × (input < 32) }
    ensures { (result ≡ state * inputs + input) × (result < 1024) }
{
    (state * inputs + input) as usize
}

// The rows are lent: the whole table is too large to pass where this is asked for every record.
pub fn next_state(next: &[u8; 1024], inputs: u32, state: u32, input: u32) -> u32
    requires { (inputs ≤ 32) × (state < 32) × (input < 32) }
    ensures { result ≡ get_or next.now (state * inputs + input) 0 }
{
    let at = place_in_rows(inputs, state, input);
    wide(next[at])
}
