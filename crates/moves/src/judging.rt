// What is turned down, in its order.
ghost use Rattle.std.specs.Prelude.{◌≡◌, ◌-◌, ◌*◌, ◌≤◌, Err};
ghost use Rattle.wire.specs.Choice.{◌<?◌, ◌or◌};
ghost use Rattle.table.specs.Check.{table_in};
ghost use Rattle.reaction.specs.Reaction.{for_holds};
ghost use Rattle.moves.specs.Moves.{judge, judge_of};

use crate::Refusal;
use reaction::held::Held;
use reaction::question::{Question, ask};
use rows::layout_of;
use table::check;
use table::checked::Checked;

pub const MOST_MOVES: u32 = 32;

// There are fewer than n rows of sums, or fewer bytes than n states with the inputs between them.
fn lacks_room(n: usize, states: usize, sums: usize, path: usize) -> bool
    requires { (n ≤ 32) × (states ≤ 32) }
    ensures { result ≡ ((sums <? n * states) or (path <? 2 * n - 1)) }
{
    if sums < n * states {
        return true;
    }
    if n == 0 {
        return false;
    }
    path < 2 * n - 1
}

fn judge_checked(
    table: Checked,
    states: u32,
    inputs: u32,
    moves: u32,
    sums: usize,
    path: usize,
) -> Result<(), Refusal>
    ensures { result ≡ for_holds (Err Refusal.HasTimers) (λ t. judge t states inputs moves sums path) (table_in table.entry.bytes.now) }
{
    let layout = layout_of(table.bytes);
    let held = Held { table, layout };
    ask(&held, states, inputs)?;
    if MOST_MOVES < moves {
        return Err(Refusal::TooManyMoves);
    }
    let question = Question {
        held,
        states,
        inputs,
    };
    question.target_set()?;
    let count = layout.states as usize;
    if lacks_room(moves as usize, count, sums, path) {
        return Err(Refusal::NoRoom);
    }
    Ok(())
}

// On any bytes, with so many places for sums and for the bytes of a path.
pub fn judge(
    table: &[u8],
    states: u32,
    inputs: u32,
    moves: u32,
    sums: usize,
    path: usize,
) -> Result<(), Refusal>
    ensures { result ≡ judge_of table.now states inputs moves sums path }
{
    let passed = check(table);
    let Ok(()) = passed else {
        return Err(Refusal::Table(passed.unwrap_err()));
    };
    let table = Checked { bytes: table };
    judge_checked(table, states, inputs, moves, sums, path)
}
