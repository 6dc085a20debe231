// Tight reaction times: the calculator's answer, and beside it the time that is enough in whole ticks.
#![tactic(auto)]

ghost use Rattle.std.specs.Prelude.{◌≡◌, ◌≤◌};
ghost use Rattle.table.specs.Table.{largest_bound};
ghost use Rattle.tight.specs.Tight.{react_tight_of};
ghost use Rattle.tight.specs.Below.{tightened};

use reaction::{Reaction, Refusal};
use wire::number32;

pub mod over_moves;

// The time, the target and the tight time.
#[derive(Clone, Copy, Debug, PartialEq, Eq)]
pub struct Tight {
    pub time: u32,
    pub target: u32,
    pub tight: u32,
}

// The tight time by the calculator's time, which tells what the largest weight is.
#[tactic(auto, using(crate::proofs::Time::none_less, crate::proofs::Time::one_less, crate::proofs::Time::two_less))]
fn tighten(time: u32, bound: u32) -> u32
    requires { (1 ≤ bound) × (bound ≤ largest_bound) × (bound ≤ time) }
    ensures { result ≡ tightened time bound }
{
    // No state of P lies outside the target.
    if time == bound {
        return time;
    }
    // The largest weight is E.
    if time == 2 * bound {
        return time - 1;
    }
    // It comes from a hold.
    time - 2
}

// The entry, on any bytes. Its refusals are the calculator's. Where there is none the table passed, and has its bound at 10.
pub fn react(table: &[u8], states: u32, inputs: u32) -> Result<Tight, Refusal>
    ensures { result ≡ react_tight_of table.now states inputs }
{
    let reacted = reaction::react(table, states, inputs);
    let Ok(found) = reacted else {
        // Not by `?`: a wrong program puts another refusal here, and nothing else.
        let refusal = reacted.unwrap_err();
        return Err(refusal);
    };
    let Reaction { time, target } = found;
    let tight = tighten(time, number32(table, 10));
    Ok(Tight {
        time,
        target,
        tight,
    })
}
