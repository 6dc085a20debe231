// The memory: read into a value and written from one, once each; and whether its numbers are those of a live run under the table.
ghost use Rattle.std.specs.Prelude.{◌≡◌, ◌≤◌, length, get_or};
ghost use Rattle.table.specs.Entries.{filled_to};
ghost use Rattle.table.specs.Check.{table_in};
ghost use Rattle.live.specs.Memory.{progress_in, kept_in, in_memory, first_above, first_out};

use machine::{Machine, Regions};
use records::LATEST;
use rows::asked::Rows;
use rows::states_of;
use table::LONGEST_HOLD;
use table::checked::Checked;
use turns::Progress;

// How many numbers it has. The host lends a slice, which may have more: so its length is a clause where it is read or written.
pub const KEPT: usize = 17;

// How far the run is: the first number of the memory. A number above 2 is turned down before it is asked for.
#[derive(Clone, Copy, Debug, PartialEq, Eq)]
pub enum Stage {
    Fresh,
    Running,
    Ended,
}

impl From<Stage> for u32 {
    ghost use Rattle.std.specs.Prelude.{◌≡◌};
    ghost use Rattle.live.specs.Memory.{stage_number};

    ghost from_gives = { λ stage number. number ≡ stage_number stage };

    fn from(stage: Stage) -> u32 {
        stage as u32
    }
}

impl From<u32> for Stage {
    ghost use Rattle.std.specs.Prelude.{◌≡◌};
    ghost use Rattle.live.specs.Memory.{stage_of};

    ghost from_gives = { λ number stage. stage ≡ stage_of number };

    fn from(number: u32) -> Stage {
        match number {
            0 => Stage::Fresh,
            1 => Stage::Running,
            _ => Stage::Ended,
        }
    }
}

// A function, as `keep`, and no `From`: that may not be written here, where neither `Progress` nor a slice is declared.
pub fn progress_in(memory: &[u32]) -> Progress
    requires { 17 ≤ length memory.now }
    ensures { result ≡ progress_in memory.now }
{
    Progress {
        machine: Machine {
            phase: memory[1],
            input: memory[2],
            polled: memory[3],
            state: memory[4],
            change: memory[5],
            entry: memory[6],
            start: memory[7],
            time: memory[8],
            longest: memory[9],
            regions: Regions {
                first: memory[10],
                second: memory[11],
                third: memory[12],
                fourth: memory[13],
            },
        },
        ticks: memory[14],
        moves: memory[15],
        left: memory[16],
    }
}

// The numbers, at the start of the memory. No `copies::copy`: that is for bytes, and `live` does not stand on it (crates.txt).
fn put(numbers: &[u32; 17], memory: &mut [u32])
    requires { 17 ≤ length memory.old }
    ensures { memory.new ≡ filled_to (λ k. get_or numbers.now k 0) 17 memory.old }
{
    for k in 0..KEPT {
        memory[k] = numbers[k];
    }
}

pub fn keep(memory: &mut [u32], stage: u32, p: Progress)
    requires { 17 ≤ length memory.old }
    ensures { memory.new ≡ kept_in stage p memory.old }
{
    let m = p.machine;
    let regions = m.regions;
    let numbers = [
        stage,
        m.phase,
        m.input,
        m.polled,
        m.state,
        m.change,
        m.entry,
        m.start,
        m.time,
        m.longest,
        regions.first,
        regions.second,
        regions.third,
        regions.fourth,
        p.ticks,
        p.moves,
        p.left,
    ];
    put(&numbers, memory);
}

// The first number that is more than it may be, by its index.
#[tactic(auto, using(crate::proofs::Numbers::none_looked, crate::proofs::Numbers::above, crate::proofs::Numbers::not_above, crate::proofs::Numbers::all_looked))]
fn first_above(most: &[u32; 17], memory: &[u32]) -> Option<usize>
    requires { 17 ≤ length memory.now }
    ensures { result ≡ in_memory (first_above most.now memory.now 17 0) }
{
    for at in 0..KEPT {
        if most[at] < memory[at] {
            return Some(at);
        }
    }
    None
}

pub fn first_out(table: &Checked<'_>, memory: &[u32]) -> Option<usize>
    requires { 17 ≤ length memory.now }
    ensures { result ≡ in_memory (first_out (table_in table.now.bytes.now) memory.now) }
{
    if let Stage::Fresh = Stage::from(memory[0]) {
        return None;
    }
    let input = table.inputs() - 1;
    let state = states_of(table.bytes) - 1;
    let time = memory[8];
    let most = [
        2,
        3,
        input,
        input,
        state,
        time,
        time,
        time,
        LATEST,
        table.bound(),
        time,
        time,
        time,
        time,
        LATEST,
        LATEST,
        LONGEST_HOLD + 1,
    ];
    first_above(&most, memory)
}
