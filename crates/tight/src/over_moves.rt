// Tight times over several moves: the largest sum of a path with two kinds of weights, by two rows of sums each.
ghost use Rattle.std.specs.Prelude.{◌≡◌, ◌+◌, ◌-◌, ◌*◌, ◌<◌, ◌≤◌, get_or, Ok, if◌then◌else◌};
ghost use Rattle.wire.specs.Choice.{◌=?◌};
ghost use Rattle.sets.specs.Sets.{member, largest};
ghost use Rattle.table.specs.Table.{largest_bound};
ghost use Rattle.table.specs.Check.{table_in};
ghost use Rattle.moves.specs.Moves.{judge_of};
ghost use Rattle.moves.specs.Walks.{ForMembers, heaviest};
ghost use Rattle.tight.specs.Several.{room_for_sums, room_for_path, times_over, tight_moves_of};
ghost use Rattle.tight.specs.Walks.{AtMost, SomeWeights, TightWeights, tight_from, sum_from, sum_along};

use crate::Tight;
use moves::judging::judge;
use moves::{Refusal, Row, by_state, images_of, next_times, path_weights};
use reaction::held::Held;
use reaction::question::Question;
use rows::layout_of;
use sets::{MembersOf, difference};
use table::checked::Checked;

// Room for the sums and the path of 32 moves: with it nothing is turned down for want of room.
const ROOM_FOR_SUMS: usize = 1024;

const ROOM_FOR_PATH: usize = 63;

// The largest number that the row has for a member; 0 where there is none. A loop, for the reason that `largest_weight` in `reaction` has.
fn largest_of(row: &Row, set: u32) -> u32
    ensures { result ≡ largest 32 (member set) (λ p. get_or row.now p 0) }
{
    let mut most = 0;
    for member in MembersOf::new(set) {
        most = most.max(row[member as usize]);
    }
    most
}

// A row from the one before: paths that begin with one state more. In the target there are no sums.
fn next_row<'a>(images: &'a Row, weights: &'a Row, outside: u32, target: u32, row: &'a Row) -> Row
    requires { AtMost heaviest weights.now × AtMost (31 * heaviest) row.now }
    ensures { ForMembers outside (λ q sum. sum ≡ sum_from images.now weights.now target (λ p. get_or row.now p 0) q) result }
{
    let sum = |state: u32| -> u32
        requires { (state < 32) × AtMost heaviest weights.now × AtMost (31 * heaviest) row.now }
        ensures { result ≡ sum_from images.entry.now weights.entry.now target (λ p. get_or row.entry.now p 0) state }
    {
        let q = state as usize;
        weights[q] + largest_of(row, difference(images[q], target))
    };
    by_state(outside, sum)
}

// The largest sum of a path of at most so many states.
fn largest_sum<'a>(images: &'a Row, weights: &'a Row, outside: u32, target: u32, moves: u32) -> u32
    requires { AtMost heaviest weights.now × (moves ≤ 32) }
    ensures { result ≡ largest 32 (member outside) (sum_along images.now weights.now target outside moves) }
{
    let mut row = [0u32; 32];
    for _ in 0..moves {
        row = next_row(images, weights, outside, target, &row);
    }
    largest_of(&row, outside)
}

// A weight that comes from a hold is above E, and one tick less is enough in whole ticks.
fn tight_weights(weights: &Row, bound: u32, outside: u32) -> Row
    requires { SomeWeights outside weights.now }
    ensures { TightWeights outside bound weights.now result }
{
    by_state(outside, |state| tight_from(weights[state as usize], bound))
}

fn tight_from(weight: u32, bound: u32) -> u32
    requires { 1 ≤ weight }
    ensures { result ≡ tight_from bound weight }
{
    if weight == bound {
        return weight;
    }
    weight - 1
}

// Every tight weight is above 0: where the largest sum is 0 there is no path.
fn tight_time(bound: u32, sum: u32) -> u32
    requires { (bound ≤ largest_bound) × (sum ≤ 32 * heaviest) }
    ensures { result ≡ (if sum =? 0 then bound else bound + sum - 1) }
{
    if sum == 0 {
        return bound;
    }
    bound + sum - 1
}

// Where nothing is turned down.
fn react_judged(table: &[u8], states: u32, inputs: u32, moves: u32) -> Tight
    requires { judge_of table.now states inputs moves room_for_sums room_for_path ≡ Ok tt }
    ensures { result ≡ times_over (table_in table.now) states inputs moves }
{
    let layout = layout_of(table);
    let table = Checked { bytes: table };
    let held = Held { table, layout };
    let question = Question {
        held,
        states,
        inputs,
    };
    let images = images_of(&question);
    let target = next_times(&images, states, moves);
    let outside = difference(states, target);
    let weights = path_weights(&held, outside, inputs);
    let tights = tight_weights(&weights, layout.bound, outside);
    let sum = largest_sum(&images, &weights, outside, target, moves);
    let tight_sum = largest_sum(&images, &tights, outside, target, moves);
    Tight {
        time: layout.bound + sum,
        target,
        tight: tight_time(layout.bound, tight_sum),
    }
}

// The entry, on any bytes. The table's refusals come first, then 14, 9 for states, 9 for inputs, 32, then 10.
pub fn react(table: &[u8], states: u32, inputs: u32, moves: u32) -> Result<Tight, Refusal>
    ensures { result ≡ tight_moves_of table.now states inputs moves }
{
    let judged = judge(table, states, inputs, moves, ROOM_FOR_SUMS, ROOM_FOR_PATH);
    let Ok(()) = judged else {
        // Not by `?`: a wrong program puts another refusal here, and nothing else.
        let refusal = judged.unwrap_err();
        return Err(refusal);
    };
    Ok(react_judged(table, states, inputs, moves))
}
