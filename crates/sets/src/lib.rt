// Sets of states and of inputs as numbers: bit i for member i. The bits are handled here alone;
// every contract speaks of members, so that what stands above needs no law of bits.
#![tactic(auto)]

ghost use Rattle.std.specs.Prelude.{◌≡◌, ◌^◌, ◌<◌, ◌≤◌, MatchOption};
ghost use Rattle.std.specs.Iterator.{at_most};
ghost use Rattle.wire.specs.Choice.{◌<?◌};
ghost use Rattle.sets.specs.Sets.{member, meets, Single, Union, Difference, TakesSmallest};

// A member, and the set without it.
#[derive(Clone, Copy, Debug, PartialEq, Eq)]
pub struct Taken {
    pub member: u32,
    pub rest: u32,
}

pub fn has(set: u32, i: u32) -> bool
    requires { i < 32 }
    ensures { result ≡ member set i }
{
    (set >> i) % 2 == 1
}

pub fn single(i: u32) -> u32
    requires { i < 32 }
    ensures { Single i result }
{
    1 << i
}

pub fn union(a: u32, b: u32) -> u32
    ensures { Union a b result }
{
    a | b
}

pub fn difference(a: u32, b: u32) -> u32
    ensures { Difference a b result }
{
    a & (a ^ b)
}

// Whether the sets have a member in common.
pub fn meet(a: u32, b: u32) -> bool
    ensures { result ≡ meets a b }
{
    a & b != 0
}

// The sets whose members are below n are the numbers below this one. With n = 32 every bit may be used.
pub fn set_limit(n: u32) -> u64
    requires { n ≤ 32 }
    ensures { result ≡ 2 ^ n }
{
    1u64 << n
}

// Whether every member is below n: as many members are below n as there are.
pub fn within(set: u32, n: u32) -> bool
    requires { n ≤ 32 }
    ensures { result ≡ (set <? 2 ^ n) }
{
    let below = (set_limit(n) - 1) as u32;
    (set & below).count_ones() == set.count_ones()
}

// A walk over the members takes the smallest each time.
pub fn take_smallest(set: u32) -> Taken
    requires { 0 < set }
    ensures { TakesSmallest set result.member result.rest }
{
    Taken {
        member: set.trailing_zeros(),
        rest: set & (set - 1),
    }
}

// The members of a set, from the smallest on.
#[derive(Clone, Copy, Debug, PartialEq, Eq)]
pub struct MembersOf {
    pub rest: u32,
}

impl MembersOf {
    pub fn new(set: u32) -> MembersOf
        ensures { result.rest ≡ set }
    {
        MembersOf { rest: set }
    }
}

impl Iterator for MembersOf {
    type Item = u32;

    ghost next_gives = { λ s r t. MatchOption r ((s.rest ≡ 0) × (t.rest ≡ 0)) (λ i. TakesSmallest s.rest i t.rest) };

    ghost remaining = { λ s. at_most s.rest };

    fn next(&mut self) -> Option<u32> {
        if self.rest == 0 {
            return None;
        }
        let taken = take_smallest(self.rest);
        self.rest = taken.rest;
        Some(taken.member)
    }
}
