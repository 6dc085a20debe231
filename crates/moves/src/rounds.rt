// The largest sums, round by round.
ghost use Rattle.std.specs.Prelude.{◌≡◌, true, ℕ, ◌+◌, ◌*◌, ◌<◌, ◌≤◌, length, get_or, if◌then◌else◌};
ghost use Rattle.wire.specs.Choice.{◌<?◌};
ghost use Rattle.sets.specs.Sets.{member};
ghost use Rattle.table.specs.Entries.{filled_to};
ghost use Rattle.table.specs.Table.{next_of};
ghost use Rattle.table.specs.Check.{table_in};
ghost use Rattle.moves.specs.Walks.{PlaceForEach, way_of, ImagesAmong, WorstMember, ahead_stored, sum_stored, sum_from_stored, heaviest, SumsFit};

use super::Row;
use reaction::question::Question;
use sets::MembersOf;

// The largest sum of several, and the smallest member that has it. Of none the sum is 0, as `WorstMember` and the stored rows have it: no
// weight is 0.
#[derive(Clone, Copy, Debug, PartialEq, Eq)]
pub struct Most {
    pub sum: u32,
    pub member: u32,
}

// The first of equal sums stays.
fn larger(found: Most, sum: u32, member: u32) -> Most
    ensures { result ≡ (if found.sum <? sum then record { sum = sum; member = member } else found) }
{
    if found.sum < sum {
        return Most { sum, member };
    }
    found
}

// The largest of the members' sums, and the smallest member that has it.
fn worst<F: Fn(u32) -> u32>(set: u32, sum_of: F) -> Most
    requires { (i : ℕ) → member set i ≡ true → F.pre sum_of i }
    ensures { (f : ℕ → ℕ) → ((i sum : ℕ) → member set i ≡ true → F.post sum_of i sum → sum ≡ f i) → WorstMember set f result.sum result.member }
{
    let mut most = Most { sum: 0, member: 0 };
    for member in MembersOf::new(set) {
        most = larger(most, sum_of(member), member);
    }
    most
}

// Of the next states of a state, in the row at `from`, by input.
pub fn worst_step<'a>(question: &'a Question<'a>, sums: &'a [u32], from: usize, state: u32) -> Most
    requires { (state < question.now.held.layout.states) × (from + question.now.held.layout.states ≤ length sums.now) }
    ensures { WorstMember question.now.inputs (ahead_stored (next_of (table_in question.now.held.table.bytes.now)) (way_of question.now) sums.now from state) result.sum result.member }
{
    let ahead = |input: u32| -> u32
        requires { (member question.now.inputs input ≡ true) × (state < question.now.held.layout.states) × (from + question.now.held.layout.states ≤ length sums.now) }
        ensures { result ≡ ahead_stored (next_of (table_in question.entry.now.held.table.bytes.now)) (way_of question.entry.now) sums.entry.now from state input }
    {
        let to = question.held.next(state, input);
        sums[from + to as usize]
    };
    worst(question.inputs, ahead)
}

// Of these states, in the row at `from`.
pub fn worst_start(sums: &[u32], from: usize, states: u32) -> Most
    requires { PlaceForEach states from sums.now }
    ensures { WorstMember states (λ q. get_or sums.now (from + q) 0) result.sum result.member }
{
    worst(states, |state| sums[from + state as usize])
}

// The number at place k, from the row before. In the first row a state has its weight.
#[tactic(auto, using(crate::proofs::Rows::no_weight, crate::proofs::Rows::in_first_row))]
fn sum_at<'a>(images: &'a Row, weights: &'a Row, sums: &'a [u32], states: usize, k: usize) -> u32
    requires { ImagesAmong images.now states × (k < length sums.now) × SumsFit (λ q. get_or weights.now q 0) sums.now k }
    ensures { result ≡ sum_from_stored images.now states (λ q. get_or weights.now q 0) sums.now k }
{
    let state = k % states;
    let weight = weights[state];
    if weight == 0 {
        return 0;
    }
    if k < states {
        return weight;
    }
    let worst = worst_start(sums, k - state - states, images[state]);
    weight + worst.sum
}

// All rows, one number after another.
pub fn fill_sums<'a>(images: &'a Row, weights: &'a Row, states: u32, moves: u32, sums: &mut [u32])
    requires { ImagesAmong images.now states × (moves ≤ 32) × (moves * states ≤ length sums.old) × ((q : ℕ) → get_or weights.now q 0 ≤ heaviest) }
    ensures { sums.new ≡ filled_to (sum_stored images.now states (λ q. get_or weights.now q 0)) (moves * states) sums.old }
{
    let total = (moves * states) as usize;
    for k in 0..total {
        sums[k] = sum_at(images, weights, sums, states as usize, k);
    }
}
