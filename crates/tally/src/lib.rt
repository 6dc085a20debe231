// Where the time of one accepted journal went: the slots in each state, in each state with each input, and the entries into each state.
// The records carry every state and every input, so that one pass over them counts the slots between two records at once.
#![tactic(auto)]

ghost use Rattle.std.specs.Prelude.{◌≡◌, ◌≤◌, length};
ghost use Rattle.table.specs.Check.{table_in};
ghost use Rattle.records.specs.Form.{journal};
ghost use Rattle.machine.specs.Walk.{run_over};
ghost use Rattle.journal.specs.Accepted.{AcceptedIn};
ghost use Rattle.tally.specs.Tally.{tally_in};
ghost use Rattle.tally.specs.Sums.{summed};

use walk::{Counter, add_journal};

pub mod walk;

// Slots by state, slots by state and input (rows by state, at state * inputs + input), and entries by state. What the table does not have is 0.
#[derive(Clone, Copy, Debug, PartialEq, Eq)]
pub struct Tally {
    pub dwell: [u32; 32],
    pub pairs: [u32; 1024],
    pub entries: [u32; 32],
}

// A tally counts one journal, from nothing on.
impl Counter for Tally {
    ghost HasRoom = { λ t y. Unit };

    ghost plus = { λ t first y. y };

    fn spend(&mut self, state: u32, pair: usize, slots: u32) {
        self.dwell[state as usize] += slots;
        self.pairs[pair] += slots;
    }

    fn enter(&mut self, state: u32) {
        self.entries[state as usize] += 1;
    }
}

// The records of a journal that was accepted. The time from the record before, or from 0, was spent in the state and with the input before.
pub fn count(table: &[u8], s: &[u8]) -> Tally
    requires { AcceptedIn journal table.now s.now }
    ensures { result ≡ tally_in (table_in table.now) (run_over journal (table_in table.now) s.now) }
{
    let mut tally = Tally {
        dwell: [0; 32],
        pairs: [0; 1024],
        entries: [0; 32],
    };
    add_journal(table, s, &mut tally);
    tally
}

// Adds the numbers to the first sums, modulo 2^64.
pub fn add_numbers(numbers: &[u32], sums: &mut [u64])
    requires { length numbers.now ≤ length sums.old }
    ensures { sums.new ≡ summed sums.old numbers.now }
{
    for (k, &number) in numbers.iter().enumerate() {
        sums[k] = sums[k].wrapping_add(u64::from(number));
    }
}
