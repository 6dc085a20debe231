// The reaction calculator: a table, a set of states and a set of inputs go in; the reaction time and the target set come out.
#![tactic(auto)]

ghost use Rattle.std.specs.Prelude.{◌≡◌, ◌<◌, ◌≤◌, Ok, Err};
ghost use Rattle.table.specs.Table.{largest_bound, longest_hold};
ghost use Rattle.table.specs.Check.{table_in};
ghost use Rattle.reaction.specs.Reaction.{weight_of, reaction_of, for_holds, react_of};
ghost use Rattle.reaction.specs.Walks.{PairBelow, place_of};

pub mod held;
pub mod question;

use held::Held;
use question::{Question, ask};
use rows::layout_of;
use sets::difference;
use table::checked::Checked;
use table::{check, place_in_rows};
use wire::Refused;

#[derive(Clone, Copy, Debug, PartialEq, Eq)]
pub struct Reaction {
    pub time: u32,
    pub target: u32,
}

#[derive(Clone, Copy, Debug, PartialEq, Eq)]
pub enum Refusal {
    Table(table::Refusal),
    HasTimers,
    UnknownState,
    UnknownInput,
    LeavesStates(usize),
}

impl Refused for Refusal {
    ghost use Rattle.reaction.specs.Answer.{reaction_refusal, reaction_ruled};

    ghost refused = { reaction_refusal };

    ghost ruled = { reaction_ruled };

    fn number(self) -> u32 {
        match self {
            Refusal::Table(refusal) => refusal.number(),
            Refusal::HasTimers => 14,
            Refusal::UnknownState => 9,
            Refusal::UnknownInput => 9,
            Refusal::LeavesStates(_) => 10,
        }
    }

    fn place(self) -> usize {
        match self {
            Refusal::Table(refusal) => refusal.place(),
            Refusal::HasTimers => 0,
            Refusal::UnknownState => 0,
            Refusal::UnknownInput => 1,
            Refusal::LeavesStates(at) => at,
        }
    }
}

// The first pair whose next state is outside the states.
#[derive(Clone, Copy, Debug, PartialEq, Eq)]
pub struct Leaving {
    pub state: u32,
    pub input: u32,
}

impl Leaving {
    // The place of the pair in rows of this width.
    pub fn place(self, width: u32) -> usize
        requires { (width ≤ 32) × PairBelow self }
        ensures { result ≡ place_of width self }
    {
        place_in_rows(width, self.state, self.input)
    }
}

// Whether some input is delayed in the state is known already.
#[tactic(auto, using(crate::proofs::Weights::held, crate::proofs::Weights::no_hold, crate::proofs::Weights::none_delayed))]
fn weight(hold: u32, bound: u32, delayed: bool) -> u32
    requires { (hold ≤ longest_hold) × (bound ≤ largest_bound) }
    ensures { result ≡ weight_of hold bound delayed }
{
    if 0 < hold && delayed {
        hold + 2 * bound
    } else {
        bound
    }
}

// The answer on a table that passed its check.
fn react_checked(table: Checked, states: u32, inputs: u32) -> Result<Reaction, Refusal>
    ensures { result ≡ for_holds (Err Refusal.HasTimers) (λ t. reaction_of t states inputs) (table_in table.entry.bytes.now) }
{
    let layout = layout_of(table.bytes);
    let held = Held { table, layout };
    ask(&held, states, inputs)?;
    let question = Question {
        held,
        states,
        inputs,
    };
    let target = question.target_set()?;
    let slowest = question.largest_weight(difference(states, target));
    let time = layout.bound + slowest;
    Ok(Reaction { time, target })
}

// The entry, on any bytes. The table's refusals come first, then 14, 9 for states, 9 for inputs, then 10.
pub fn react(table: &[u8], states: u32, inputs: u32) -> Result<Reaction, Refusal>
    ensures { result ≡ react_of table.now states inputs }
{
    let passed = check(table);
    let Ok(()) = passed else {
        return Err(Refusal::Table(passed.unwrap_err()));
    };
    react_checked(Checked { bytes: table }, states, inputs)
}
