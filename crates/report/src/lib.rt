// The report of a season: journals under one table are added to it, one after another, and it tells where their time went.
#![tactic(auto)]

ghost use Rattle.std.specs.Prelude.{◌≡◌, ◌<◌, ◌≤◌, length, OnErr};
ghost use Rattle.table.specs.Check.{table_in};
ghost use Rattle.records.specs.Form.{journal};
ghost use Rattle.machine.specs.Walk.{run_over};
ghost use Rattle.journal.specs.Accepted.{AcceptedIn};
ghost use Rattle.report.specs.Report.{longest_table, most_journals, empty_with, begin_of, with_tally, added_by, add_under, add_of};

use copies::copy;
use tally::{Tally, add_numbers, count};
use wire::Refused;

pub mod host;

// 35: how many journals a report takes.
pub const MOST_JOURNALS: u64 = 1000;

// No table that passes is longer.
pub const LONGEST_TABLE: usize = 1626;

// The table's bytes, so many of the array's, and the sums over the journals that were added, at the places of a tally. An array and a size,
// with no invariant: the library has no heap, and what `add` promises it promises of any report.
#[derive(Clone, Copy, Debug, PartialEq, Eq)]
pub struct Report {
    pub size: usize,
    pub table: [u8; 1626],
    pub journals: u64,
    pub dwell: [u64; 32],
    pub pairs: [u64; 1024],
    pub entries: [u64; 32],
}

// Why a journal is not added: what the check refuses, or 35.
#[derive(Clone, Copy, Debug, PartialEq, Eq)]
pub enum Refusal {
    Check(journal::Refusal),
    Full,
}

impl Refused for Refusal {
    ghost use Rattle.report.specs.Answer.{report_refusal, report_ruled};

    ghost refused = { report_refusal };

    ghost ruled = { report_ruled };

    fn number(self) -> u32 {
        match self {
            Refusal::Check(refusal) => refusal.number(),
            Refusal::Full => 35,
        }
    }

    fn place(self) -> usize {
        match self {
            Refusal::Check(refusal) => refusal.place(),
            Refusal::Full => 0,
        }
    }
}

// A refusal begins a report too, one without a table.
#[derive(Clone, Copy, Debug, PartialEq, Eq)]
pub struct Begun {
    pub answer: Result<(), table::Refusal>,
    pub report: Report,
}

// These bytes as its table, and no journal.
fn empty_with(table: &[u8]) -> Report
    requires { length table.now ≤ longest_table }
    ensures { result ≡ empty_with table.now }
{
    let mut kept = [0u8; 1626];
    let size = table.len();
    copy(table, &mut kept);
    Report {
        size,
        table: kept,
        journals: 0,
        dwell: [0u64; 32],
        pairs: [0u64; 1024],
        entries: [0u64; 32],
    }
}

// Bytes that are turned down begin a report without a table.
#[tactic(auto, using(crate::proofs::TableLong::table_long), unfolding(crate::specs::Report::begin_of))]
pub fn begin(table: &[u8]) -> Begun
    ensures { result ≡ begin_of table.now }
{
    let answer = table::check(table);
    let Ok(()) = answer else {
        return Begun {
            answer,
            report: empty_with(&table[..0]),
        };
    };
    Begun {
        answer,
        report: empty_with(table),
    }
}

impl Report {
    // One journal more.
    #[tactic(auto, unfolding(crate::specs::Report::with_tally))]
    fn add_tally(&mut self, tally: &Tally)
        requires { self.old.journals < most_journals }
        ensures { self.new ≡ with_tally self.old tally.now }
    {
        self.journals += 1;
        add_numbers(&tally.dwell, &mut self.dwell);
        add_numbers(&tally.pairs, &mut self.pairs);
        add_numbers(&tally.entries, &mut self.entries);
    }

    // A journal that was accepted: 35, or its tally is added. Acceptance is a clause, as `tally::count` asks for it.
    fn add_accepted(&mut self, table: &[u8], s: &[u8]) -> Result<(), Refusal>
        requires { AcceptedIn journal table.now s.now }
        ensures is { record { answer = result; report = self.new } ≡ added_by (table_in table.now) self.old (run_over journal (table_in table.now) s.now) }
        ensures kept { OnErr result (self.new ≡ self.old) }
    {
        if MOST_JOURNALS <= self.journals {
            return Err(Refusal::Full);
        }
        self.add_tally(&count(table, s));
        Ok(())
    }

    // A journal, read under these bytes of a table.
    fn add_under(&mut self, table: &[u8], s: &[u8]) -> Result<(), Refusal>
        ensures is { record { answer = result; report = self.new } ≡ add_under table.now self.old s.now }
        ensures kept { OnErr result (self.new ≡ self.old) }
    {
        let checked = journal::check(table, s);
        let Ok(_) = checked else {
            return Err(Refusal::Check(checked.unwrap_err()));
        };
        self.add_accepted(table, s)
    }

    // A report that `begin` did not make may claim more bytes than its array has: then all are read.
    pub fn add(&mut self, s: &[u8]) -> Result<(), Refusal>
        ensures is { record { answer = result; report = self.new } ≡ add_of self.old s.now }
        ensures kept { OnErr result (self.new ≡ self.old) }
    {
        let table = self.table;
        let size = self.size.min(LONGEST_TABLE);
        self.add_under(&table[..size], s)
    }
}
