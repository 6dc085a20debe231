// What is asked of a table: some of its states, and some of its inputs.
ghost use Rattle.std.specs.Prelude.{◌≡◌, ◌<◌};
ghost use Rattle.table.specs.Table.{next_of};
ghost use Rattle.table.specs.Check.{table_in};
ghost use Rattle.reaction.specs.Reaction.{asked_of, target_of};
ghost use Rattle.reaction.specs.Meaning.{Known, Pairs};
ghost use Rattle.reaction.specs.Walks.{From, Image, SomeLeaves, FirstLeaving, Finds, weight_in, IsLargest};

use super::held::Held;
use super::{Leaving, Refusal};
use sets::{MembersOf, difference, has, single, union, within};
use table::place_in_rows;
use wire::wide;

// No more is derived, since nothing compares or prints one: no plainer.
#[derive(Clone, Copy)]
pub struct Question<'a> {
    pub held: Held<'a>,
    pub states: u32,
    pub inputs: u32,
    ghost states_known: { Known (table_in held.table.bytes.now).states states },
    ghost inputs_known: { Known (table_in held.table.bytes.now).inputs inputs },
}

// Whether there is a question: 14 comes first, then 9 for states, then 9 for inputs. Who asks then writes the question down. It isn't handed
// over in a `Result`, where it would be a reference in one case and a number in another; what is made for 32-bit pointers allows no such place
// (docs/TRUSTED.md).
pub fn ask(held: &Held, states: u32, inputs: u32) -> Result<(), Refusal>
    ensures { result ≡ asked_of (table_in held.now.table.bytes.now) states inputs }
{
    let layout = held.layout;
    if layout.timers != 0 {
        return Err(Refusal::HasTimers);
    }
    if !within(states, layout.states) {
        return Err(Refusal::UnknownState);
    }
    if !within(inputs, layout.inputs) {
        return Err(Refusal::UnknownInput);
    }
    Ok(())
}

impl<'a> Question<'a> {
    // The set of next states of one state under the inputs.
    pub fn image_of(&self, state: u32) -> u32
        requires { state < (table_in self.now.held.table.bytes.now).states }
        ensures { Image (next_of (table_in self.now.held.table.bytes.now)) (From state self.now.inputs) result }
    {
        let layout = self.held.layout;
        let inputs = self.inputs;
        let row = layout.next + place_in_rows(layout.inputs, state, 0);
        let mut image = 0;
        for input in MembersOf::new(inputs) {
            let at = row + (input as usize);
            image = union(image, single(wide(self.held.table.bytes[at])));
        }
        image
    }

    // The first input by which a state leaves the states. It is known that there is one.
    fn leaving_input(&self, state: u32) -> u32
        requires { (state < (table_in self.now.held.table.bytes.now).states) × SomeLeaves (next_of (table_in self.now.held.table.bytes.now)) self.now.states (From state self.now.inputs) }
        ensures { FirstLeaving (next_of (table_in self.now.held.table.bytes.now)) self.now.states (From state self.now.inputs) state result }
    {
        for input in MembersOf::new(self.inputs) {
            let to = self.held.next(state, input);
            if !has(self.states, to) {
                return input;
            }
        }
        // Never reached: an input that leaves is known. `find(..).unwrap()` would owe that the closure may be called at each turn, that one is
        // found, and that it is the first; here one invariant says it.
        0
    }

    // The next states of all the states under the inputs. A pair that leaves is looked for only where an image does.
    pub fn next_of_states(&self) -> Result<u32, Leaving>
        ensures { Finds (next_of (table_in self.now.held.table.bytes.now)) self.now.states (Pairs self.now.states self.now.inputs) result }
    {
        let mut target = 0;
        for state in MembersOf::new(self.states) {
            let image = self.image_of(state);
            if difference(image, self.states) != 0 {
                let input = self.leaving_input(state);
                return Err(Leaving { state, input });
            }
            target = union(target, image);
        }
        Ok(target)
    }

    // The target, or 10 where a pair leaves the states.
    pub fn target_set(&self) -> Result<u32, Refusal>
        ensures { result ≡ target_of (table_in self.now.held.table.bytes.now) self.now.states self.now.inputs }
    {
        match self.next_of_states() {
            Ok(target) => Ok(target),
            Err(leaving) => Err(Refusal::LeavesStates(leaving.place(self.held.layout.inputs))),
        }
    }

    // The largest weight of these states; 0 where there is none. A loop: a chain of iterators would need the same invariant, as a lemma for any
    // closure (docs/DECISIONS.md).
    pub fn largest_weight(&self, states: u32) -> u32
        requires { Known (table_in self.now.held.table.bytes.now).states states × ((table_in self.now.held.table.bytes.now).timers ≡ 0) }
        ensures { IsLargest states (weight_in (table_in self.now.held.table.bytes.now) self.now.inputs) result }
    {
        let mut largest = 0;
        for state in MembersOf::new(states) {
            let weight = self.held.state_weight(self.inputs, state);
            largest = largest.max(weight);
        }
        largest
    }
}
