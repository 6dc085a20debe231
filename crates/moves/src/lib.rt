// Reaction over several moves: a table, a set of states, a set of inputs and a number of moves go in; the time and the target come out,
// and with them the largest sums of weights, a row of states for each round, and one worst path.
#![tactic(auto)]

ghost use Rattle.std.specs.Prelude.{◌≡◌, true, ℕ, length, Ok};
ghost use Rattle.sets.specs.Sets.{member};
ghost use Rattle.table.specs.Table.{next_of};
ghost use Rattle.table.specs.Check.{table_in};
ghost use Rattle.reaction.specs.Meaning.{Known};
ghost use Rattle.moves.specs.Moves.{judge_of, reaction_over, sums_over, path_over, moves_of, sums_after, path_after};
ghost use Rattle.moves.specs.Walks.{ForMembers, HasImages, HasWeights, Unites, UnitesTimes};

use reaction::held::Held;
use reaction::question::Question;
use rows::layout_of;
use sets::{MembersOf, difference, union};
use table::checked::Checked;
use wire::Refused;

pub mod judging;
mod paths;
mod rounds;

use paths::write_path;
use rounds::{fill_sums, worst_start};

// A number or a set for each state.
pub type Row = [u32; 32];

// What is turned down, before anything is written.
#[derive(Clone, Copy, Debug, PartialEq, Eq)]
pub enum Refusal {
    Table(table::Refusal),
    HasTimers,
    UnknownState,
    UnknownInput,
    TooManyMoves,
    LeavesStates(usize),
    NoRoom,
}

impl Refused for Refusal {
    ghost use Rattle.moves.specs.Answer.{moves_refusal, moves_ruled};

    ghost refused = { moves_refusal };

    ghost ruled = { moves_ruled };

    fn number(self) -> u32 {
        match self {
            Refusal::Table(refusal) => refusal.number(),
            Refusal::HasTimers => 14,
            Refusal::UnknownState => 9,
            Refusal::UnknownInput => 9,
            Refusal::TooManyMoves => 32,
            Refusal::LeavesStates(_) => 10,
            Refusal::NoRoom => 33,
        }
    }

    fn place(self) -> usize {
        match self {
            Refusal::Table(refusal) => refusal.place(),
            Refusal::HasTimers => 0,
            Refusal::UnknownState => 0,
            Refusal::UnknownInput => 1,
            Refusal::TooManyMoves => 0,
            Refusal::LeavesStates(at) => at,
            Refusal::NoRoom => 0,
        }
    }
}

// The time, the target, and how many bytes the path has.
#[derive(Clone, Copy, Debug, PartialEq, Eq)]
pub struct Reaction {
    pub time: u32,
    pub target: u32,
    pub length: usize,
}

// What the question turns down is turned down here by the same numbers.
impl From<reaction::Refusal> for Refusal {
    ghost use Rattle.moves.specs.Answer.{asked_refusal};

    ghost from_gives = { λ refusal e. e ≡ asked_refusal refusal };

    fn from(refusal: reaction::Refusal) -> Refusal {
        match refusal {
            reaction::Refusal::Table(refusal) => Refusal::Table(refusal),
            reaction::Refusal::HasTimers => Refusal::HasTimers,
            reaction::Refusal::UnknownState => Refusal::UnknownState,
            reaction::Refusal::UnknownInput => Refusal::UnknownInput,
            reaction::Refusal::LeavesStates(at) => Refusal::LeavesStates(at),
        }
    }
}

// A row with what the call gives for each of the states; 0 for every other state.
pub fn by_state<F: Fn(u32) -> u32>(states: u32, of: F) -> Row
    requires { (i : ℕ) → member states i ≡ true → F.pre of i }
    ensures { ForMembers states (F.post of) result }
{
    let mut row = [0u32; 32];
    for state in MembersOf::new(states) {
        row[state as usize] = of(state);
    }
    row
}

// Of each of the states the set of its next states; 0 for every other state.
pub fn images_of(question: &Question) -> Row
    ensures { HasImages (next_of (table_in question.now.held.table.bytes.now)) question.now.states question.now.inputs result }
{
    by_state(question.states, |state| question.image_of(state))
}

// The members of the sets of these states. A loop, for the reason that `largest_weight` in `reaction` has.
fn united(sets: &Row, states: u32) -> u32
    ensures { Unites sets.now states result }
{
    let mut all = 0;
    for state in MembersOf::new(states) {
        all = union(all, sets[state as usize]);
    }
    all
}

// What comes of the states by so many moves.
pub fn next_times(images: &Row, states: u32, moves: u32) -> u32
    ensures { UnitesTimes images.now states moves result }
{
    let mut set = states;
    for _ in 0..moves {
        set = united(images, set);
    }
    set
}

// The weights of the states on a path; 0 for every other state.
pub fn path_weights(held: &Held, states: u32, inputs: u32) -> Row
    requires { Known (table_in held.now.table.bytes.now).states states × ((table_in held.now.table.bytes.now).timers ≡ 0) }
    ensures { HasWeights (table_in held.now.table.bytes.now) states inputs result }
{
    by_state(states, |state| held.state_weight(inputs, state))
}

// Where nothing is turned down.
pub fn react_judged(
    table: &[u8],
    states: u32,
    inputs: u32,
    moves: u32,
    sums: &mut [u32],
    path: &mut [u8],
) -> Reaction
    requires { judge_of table.now states inputs moves (length sums.old) (length path.old) ≡ Ok tt }
    ensures is { result ≡ reaction_over (table_in table.now) states inputs moves }
    ensures sums { sums.new ≡ sums_over (table_in table.now) states inputs moves sums.old }
    ensures path { path.new ≡ path_over (table_in table.now) states inputs moves path.old }
{
    let layout = layout_of(table);
    if moves == 0 {
        return Reaction {
            time: layout.bound,
            target: states,
            length: 0,
        };
    }
    let table = Checked { bytes: table };
    let held = Held { table, layout };
    let question = Question {
        held,
        states,
        inputs,
    };
    let images = images_of(&question);
    let target = next_times(&images, states, moves);
    let outside = difference(states, target);
    let weights = path_weights(&held, outside, inputs);
    fill_sums(&images, &weights, layout.states, moves, sums);
    let last = (moves - 1) as usize;
    let first = worst_start(sums, last * layout.states as usize, outside);
    let length = write_path(&question, sums, last, first, path);
    Reaction {
        time: layout.bound + first.sum,
        target,
        length,
    }
}

// The entry, on any bytes. The table's refusals come first, then 14, 9 for states, 9 for inputs, 32, 10, then 33.
#[tactic(auto, using(crate::proofs::Judges::let_pass, crate::proofs::Judges::sums_kept, crate::proofs::Judges::path_kept, crate::proofs::Judges::reacts, crate::proofs::Judges::sums_written, crate::proofs::Judges::path_written))]
pub fn react(
    table: &[u8],
    states: u32,
    inputs: u32,
    moves: u32,
    sums: &mut [u32],
    path: &mut [u8],
) -> Result<Reaction, Refusal>
    ensures is { result ≡ moves_of table.now states inputs moves (length sums.old) (length path.old) }
    ensures sums { sums.new ≡ sums_after table.now states inputs moves sums.old (length path.old) }
    ensures path { path.new ≡ path_after table.now states inputs moves (length sums.old) path.old }
{
    let judged = judging::judge(table, states, inputs, moves, sums.len(), path.len());
    let Ok(()) = judged else {
        // Not by `?`: a wrong program puts another refusal here, and nothing else.
        let refusal = judged.unwrap_err();
        return Err(refusal);
    };
    Ok(react_judged(table, states, inputs, moves, sums, path))
}
