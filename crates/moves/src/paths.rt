// The worst path, along the rows of sums: a state step and an input step by turns.
ghost use Rattle.std.specs.Prelude.{◌≡◌, true, ◌+◌, ◌*◌, ◌<◌, ◌≤◌, length};
ghost use Rattle.wire.specs.Encode.{placed_in};
ghost use Rattle.sets.specs.Sets.{member};
ghost use Rattle.table.specs.Table.{next_of};
ghost use Rattle.table.specs.Check.{table_in};
ghost use Rattle.moves.specs.Walks.{way_of, path_after_input, path_along, whole_path_along, BeginsAtState};

use crate::rounds::{Most, worst_step};
use reaction::question::Question;

// Puts the state, and goes on where a path does; says where the path ends.
#[cycle(input_step_state_step)]
fn state_step<'a>(
    question: &'a Question<'a>,
    sums: &'a [u32],
    path: &mut [u8],
    at: usize,
    left: usize,
    state: u32,
) -> usize
    requires { (state < question.now.held.layout.states) × (left ≤ 32) × (left * question.now.held.layout.states ≤ length sums.now) × (at + (left + left + 1) ≤ length path.old) }
    ensures is { result ≡ at + length (path_along (next_of (table_in question.now.held.table.bytes.now)) (way_of question.now) sums.now left state) }
    ensures holds { path.new ≡ placed_in path.old at (path_along (next_of (table_in question.now.held.table.bytes.now)) (way_of question.now) sums.now left state) }
{
    path[at] = state as u8;
    if left == 0 {
        return at + 1;
    }
    let from = (left - 1) * question.held.layout.states as usize;
    let worst = worst_step(question, sums, from, state);
    if worst.sum == 0 {
        return at + 1;
    }
    input_step(question, sums, path, at + 1, left, state, worst.member)
}

// Puts the input, and then the state to which it leads, with one move fewer left.
#[cycle(input_step_state_step)]
fn input_step<'a>(
    question: &'a Question<'a>,
    sums: &'a [u32],
    path: &mut [u8],
    at: usize,
    left: usize,
    state: u32,
    input: u32,
) -> usize
    requires { (state < question.now.held.layout.states) × (member question.now.inputs input ≡ true) × (0 < left) × (left ≤ 32) × (left * question.now.held.layout.states ≤ length sums.now) × (at + (left + left) ≤ length path.old) }
    ensures is { result ≡ at + length (path_after_input (next_of (table_in question.now.held.table.bytes.now)) (way_of question.now) sums.now left state input) }
    ensures holds { path.new ≡ placed_in path.old at (path_after_input (next_of (table_in question.now.held.table.bytes.now)) (way_of question.now) sums.now left state input) }
{
    path[at] = input as u8;
    let to = question.held.next(state, input);
    state_step(question, sums, path, at + 1, left - 1, to)
}

// From the first state, which is the worst, with so many to follow; nothing if its sum is 0.
pub fn write_path<'a>(
    question: &'a Question<'a>,
    sums: &'a [u32],
    left: usize,
    first: Most,
    path: &mut [u8],
) -> usize
    requires { BeginsAtState first.sum first.member (way_of question.now) × (left ≤ 32) × (left * question.now.held.layout.states ≤ length sums.now) × (left + left + 1 ≤ length path.old) }
    ensures is { result ≡ length (whole_path_along (next_of (table_in question.now.held.table.bytes.now)) (way_of question.now) sums.now left first.sum first.member) }
    ensures holds { path.new ≡ placed_in path.old 0 (whole_path_along (next_of (table_in question.now.held.table.bytes.now)) (way_of question.now) sums.now left first.sum first.member) }
{
    if first.sum == 0 {
        return 0;
    }
    state_step(question, sums, path, 0, left, first.member)
}
