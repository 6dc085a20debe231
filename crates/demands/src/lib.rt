// What docs/RULES.md, "The demands", asks of the entries together, from their bytes: acceptance is a run of the timed automaton,
// demand 3 holds in the slots of every run and of every accepted journal, and the proved cases come out. specs/Statements lists the
// statements by the sentences of the demands; the proofs are in proofs/. The two functions call the library: their contracts are what a host program may rely on.
#![tactic(auto)]

ghost use Rattle.std.specs.Prelude.{◌≤◌, length};
ghost use Rattle.demands.specs.Host.{JudgesRuns, PerformsRuns};

// The journal check as a host program calls it, with an answer buffer that has room for the numbers.
pub fn judge(table: &[u8], journal: &[u8], answer: &mut [u8]) -> u64
    ensures { 28 ≤ length answer.old → JudgesRuns table.now journal.now answer.old result answer.new }
{
    krossvil::checking::krossvil_check_journal(table, journal, answer)
}

// The runtime as a host program calls it, with an answer buffer that has room for the journal's length.
pub fn perform(table: &[u8], stimulus: &[u8], journal: &mut [u8], answer: &mut [u8]) -> u64
    ensures { 4 ≤ length answer.old → PerformsRuns table.now stimulus.now journal.old answer.old result journal.new answer.new }
{
    krossvil::running::krossvil_run(table, stimulus, journal, answer)
}
