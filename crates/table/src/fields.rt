// One field of a table: whether it stands where it should, and whether its entries are what they may be. Bytes and place stand beside each
// other: no plainer in one struct, since the place is what a refusal tells.
ghost use Rattle.std.specs.Prelude.{◌≡◌, true, ℕ, ◌+◌, ◌*◌, ◌<◌, ◌≤◌, length, Ok, if◌then◌else◌};
ghost use Rattle.wire.specs.Choice.{◌=?◌};
ghost use Rattle.wire.specs.Field.{number32_at};
ghost use Rattle.sets.specs.Sets.{largest};
ghost use Rattle.table.specs.Check.{field_answer, byte_entry, word_entry, set_entry, bytes_answer, words_answer, set_answer, sets_answer, timer_answer, timers_row};
ghost use Rattle.table.specs.Inner.{byte_row, bad_word, word_row, idle_set, Ceiling};

use super::{LONGEST_HOLD, Refusal, or_else};
use sets::union;
use wire::{number32, number32_turned, stands, turn32};

// Nearly every field stands as it should; what is wrong is looked for only where one does not.
pub fn expect_field(s: &[u8], at: usize, tag: u8, size: usize) -> Result<(), Refusal>
    requires { (at ≤ length s.now) × (size < 65536) }
    ensures { result ≡ field_answer s.now at tag size }
{
    if stands(s, at, size, tag, tag) {
        return Ok(());
    }
    let field = wire::read_field(s, at);
    let Some(_) = field else {
        return Err(Refusal::RunsOut(at));
    };
    Err(Refusal::WrongTagOrLength(at))
}

// From so many entries on the compiler takes several at a time; fewer are sooner looked at one by one.
const MANY: usize = 8;

// The largest of the n entries. No way leads out of the loop, so that the compiler takes many of them at a time.
fn largest_byte(s: &[u8], at: usize, n: usize) -> u8
    requires { at + 3 + n ≤ length s.now }
    ensures { result ≡ largest n (λ _. true) (byte_entry s.now at) }
{
    let mut top = 0u8;
    for &byte in &s[at + 3..at + 3 + n] {
        top = top.max(byte);
    }
    top
}

// Whether the largest of many entries tells at once that each is below the limit.
fn all_below(s: &[u8], at: usize, n: usize, limit: u8) -> bool
    requires { at + 3 + n ≤ length s.now }
    ensures { result ≡ true → (k : ℕ) → k < n → byte_entry s.now at k < limit }
{
    if n < MANY {
        return false;
    }
    largest_byte(s, at, n) < limit
}

// A field of n entries of one byte, each below the limit. They are gone through one by one only where they are few, or one is not.
pub fn check_bytes(s: &[u8], at: usize, tag: u8, n: usize, limit: u8) -> Result<(), Refusal>
    requires { (at ≤ length s.now) × (n ≤ 1024) }
    ensures { result ≡ bytes_answer s.now (byte_row at tag n limit) }
{
    let stands = expect_field(s, at, tag, n);
    let Ok(()) = stands else {
        return stands;
    };
    if all_below(s, at, n, limit) {
        return Ok(());
    }
    for k in 0..n {
        let place = at + 3 + k;
        if limit <= s[place] {
            return Err(Refusal::EntryOutOfRange(place));
        }
    }
    Ok(())
}

fn bad_word(tag: u8, place: usize) -> Refusal
    ensures { result ≡ bad_word tag place }
{
    if tag == 0x05 {
        Refusal::HoldTooLong(place)
    } else {
        Refusal::UnknownMember(place)
    }
}

// A number that none of the n words exceeds: all of them joined as sets. They are joined as they stand, with their bytes turned round, and
// no way leads out of the loop, so that the compiler takes many of them at a time.
fn ceiling_of(s: &[u8], at: usize, n: usize) -> u32
    requires { at + 3 + 4 * n ≤ length s.now }
    ensures { Ceiling n (word_entry s.now at) result }
{
    let mut all = 0;
    for k in 0..n {
        all = union(number32_turned(s, at + 3 + 4 * k), all);
    }
    turn32(all)
}

// Whether it tells at once that each of many words is below the limit.
fn all_within(s: &[u8], at: usize, n: usize, limit: u64) -> bool
    requires { at + 3 + 4 * n ≤ length s.now }
    ensures { result ≡ true → (k : ℕ) → k < n → word_entry s.now at k < limit }
{
    if n < MANY {
        return false;
    }
    u64::from(ceiling_of(s, at, n)) < limit
}

// A field of n entries of four bytes, each below the limit. They are gone through one by one only where they are few, or one may not be.
// Beside `check_bytes` a function of its own: there the largest entry tells at once, here all of them joined as sets (docs/SPEED.md).
pub fn check_words(s: &[u8], at: usize, tag: u8, n: usize, limit: u64) -> Result<(), Refusal>
    requires { (at ≤ length s.now) × (n ≤ 128) }
    ensures { result ≡ words_answer s.now (word_row at tag n limit) }
{
    let stands = expect_field(s, at, tag, 4 * n);
    let Ok(()) = stands else {
        return stands;
    };
    if all_within(s, at, n, limit) {
        return Ok(());
    }
    for k in 0..n {
        let place = at + 3 + 4 * k;
        if limit <= u64::from(number32(s, place)) {
            return Err(bad_word(tag, place));
        }
    }
    Ok(())
}

// The delayed set at `place`, of a state whose hold stands at `hold`.
fn check_set(s: &[u8], hold: usize, place: usize, limit: u64, old: bool) -> Result<(), Refusal>
    requires { (hold + 4 ≤ length s.now) × (place + 4 ≤ length s.now) }
    ensures { result ≡ set_answer old (number32_at s.now hold) (number32_at s.now place) limit place }
{
    let set = number32(s, place);
    if limit <= u64::from(set) {
        return Err(Refusal::UnknownInputDelayed(place));
    }
    or_else(
        old | (0 < number32(s, hold)) | (set == 0),
        Refusal::IdleSet(place),
    )
}

// Numbers that no set exceeds, and that none of a state whose hold is 0 does.
#[derive(Clone, Copy, Debug, PartialEq, Eq)]
struct Delayed {
    any: u32,
    idle: u32,
}

fn set_if_idle(hold: u32, set: u32) -> u32
    ensures { result ≡ (if hold =? 0 then set else 0) }
{
    if hold == 0 { set } else { 0 }
}

fn all_delayed(s: &[u8], holds: usize, at: usize, n: usize) -> Delayed
    requires { (holds + 3 + 4 * n ≤ length s.now) × (at + 3 + 4 * n ≤ length s.now) }
    ensures any { Ceiling n (word_entry s.now at) result.any }
    ensures idle { Ceiling n (idle_set s.now holds at) result.idle }
{
    let mut any = 0;
    let mut idle = 0;
    for k in 0..n {
        let set = number32_turned(s, at + 3 + 4 * k);
        any = union(set, any);
        idle = union(
            set_if_idle(number32_turned(s, holds + 3 + 4 * k), set),
            idle,
        );
    }
    Delayed {
        any: turn32(any),
        idle: turn32(idle),
    }
}

// Whether they tell at once that each of many sets is allowed.
fn all_allowed(s: &[u8], holds: usize, at: usize, n: usize, limit: u64, old: bool) -> bool
    requires { (holds + 3 + 4 * n ≤ length s.now) × (at + 3 + 4 * n ≤ length s.now) }
    ensures { result ≡ true → (k : ℕ) → k < n → set_entry old s.now holds at limit k ≡ Ok tt }
{
    if n < MANY {
        return false;
    }
    let sets = all_delayed(s, holds, at, n);
    (u64::from(sets.any) < limit) & (old | (sets.idle == 0))
}

// Delayed sets: a field of n entries of four bytes, beside the field of holds. They are gone through one by one only where they are few, or
// one may be bad.
pub fn check_sets(
    s: &[u8],
    holds: usize,
    at: usize,
    n: usize,
    limit: u64,
    old: bool,
) -> Result<(), Refusal>
    requires { (holds + 3 + 4 * n ≤ at) × (at ≤ length s.now) × (n ≤ 32) }
    ensures { result ≡ sets_answer old s.now holds at n limit }
{
    let stands = expect_field(s, at, 0x06, 4 * n);
    let Ok(()) = stands else {
        return stands;
    };
    if all_allowed(s, holds, at, n, limit, old) {
        return Ok(());
    }
    for k in 0..n {
        let set = check_set(s, holds + 3 + 4 * k, at + 3 + 4 * k, limit, old);
        let Ok(()) = set else {
            return set;
        };
    }
    Ok(())
}

// The timer at `place`: its length, then its region.
#[tactic(auto, using(crate::proofs::Answers::passed_up, crate::proofs::Answers::past, crate::proofs::Answers::let_pass), unfolding(crate::specs::Check::timer_answer))]
fn check_timer(s: &[u8], place: usize, limit: u64) -> Result<(), Refusal>
    requires { place + 8 ≤ length s.now }
    ensures { result ≡ timer_answer (number32_at s.now place) (number32_at s.now (place + 4)) limit place }
{
    let length = number32(s, place);
    or_else(
        (1 <= length) & (length <= LONGEST_HOLD),
        Refusal::TimerOutOfRange(place),
    )?;
    let region = place + 4;
    or_else(
        u64::from(number32(s, region)) < limit,
        Refusal::UnknownMember(region),
    )
}

// Timers: a field of n entries of eight bytes.
pub fn check_timers(s: &[u8], at: usize, n: usize, limit: u64) -> Result<(), Refusal>
    requires { (at ≤ length s.now) × (n ≤ 4) }
    ensures { result ≡ timers_row s.now at n limit }
{
    let stands = expect_field(s, at, 0x07, 8 * n);
    let Ok(()) = stands else {
        return stands;
    };
    for k in 0..n {
        let timer = check_timer(s, at + 3 + 8 * k, limit);
        let Ok(()) = timer else {
            return timer;
        };
    }
    Ok(())
}
