// A report as a host program keeps it: its numbers one after another.
ghost use Rattle.std.specs.Prelude.{◌≡◌, ◌<◌, ◌≤◌, length, Ok};
ghost use Rattle.table.specs.Check.{table_answer, table_in};
ghost use Rattle.records.specs.Form.{journal};
ghost use Rattle.machine.specs.Walk.{run_over};
ghost use Rattle.journal.specs.Accepted.{AcceptedIn};
ghost use Rattle.tally.specs.Tally.{tally_in};
ghost use Rattle.tally.specs.Sums.{summed};
ghost use Rattle.tally.specs.Counting.{more_sum};
ghost use Rattle.report.specs.Rows.{places_of, row_of};

use table::counts_in;
use tally::walk::{Counter, add_journal};

// How many numbers it has. That the table passed is a clause: a `Checked` would be unpacked at the next call, which takes bytes.
pub fn places(table: &[u8]) -> usize
    requires { table_answer table.now ≡ Ok tt }
    ensures { result ≡ places_of (table_in table.now) }
{
    let counts = counts_in(table);
    let states = usize::from(counts.states);
    let inputs = usize::from(counts.inputs);
    1 + 2 * states + states * inputs
}

// So much more at one place, modulo 2^64.
fn add_at(numbers: &mut [u64], at: usize, n: u32)
    requires { at < length numbers.old }
    ensures { numbers.new ≡ more_sum numbers.old at n }
{
    numbers[at] = numbers[at].wrapping_add(u64::from(n));
}

// The numbers, and where those of the pairs and those of the entries start.
#[derive(Drop)]
struct Row<'a> {
    numbers: &'a mut [u64],
    pairs: usize,
    entries: usize,
}

impl<'a> Counter for Row<'a> {
    ghost use Rattle.report.specs.Rows.{RowFits, row_with};

    ghost HasRoom = { RowFits };

    ghost plus = { row_with };

    fn spend(&mut self, state: u32, pair: usize, slots: u32) {
        add_at(self.numbers, 1 + state as usize, slots);
        add_at(self.numbers, self.pairs + pair, slots);
    }

    fn enter(&mut self, state: u32) {
        add_at(self.numbers, self.entries + state as usize, 1);
    }
}

// A journal that was accepted, added to them where they stand. Numbers past the last are unchanged. Acceptance is a clause: for C the check
// goes first by its own entry, and hands nothing on but a number (the C interface).
pub fn add_row(table: &[u8], s: &[u8], numbers: &mut [u64])
    requires { AcceptedIn journal table.now s.now × (places_of (table_in table.now) ≤ length numbers.old) }
    ensures { numbers.new ≡ summed numbers.old (row_of (table_in table.now) (tally_in (table_in table.now) (run_over journal (table_in table.now) s.now))) }
{
    let counts = counts_in(table);
    let states = usize::from(counts.states);
    let pairs = 1 + states;
    let entries = pairs + states * usize::from(counts.inputs);
    add_at(numbers, 0, 1);
    let mut row = Row {
        numbers,
        pairs,
        entries,
    };
    add_journal(table, s, &mut row);
}
