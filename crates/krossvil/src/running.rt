// The runtime: the journal of a stimulus.
ghost use Rattle.std.specs.Prelude.{◌≡◌, length};
ghost use Rattle.krossvil.specs.Host.{code_of, answer_after, run_told, run_journal};

use crate::telling::{ONE_NUMBER, room_beside, tell_size};

pub fn krossvil_run(table: &[u8], stimulus: &[u8], journal: &mut [u8], answer: &mut [u8]) -> u64
    ensures code { result ≡ code_of (run_told table.now stimulus.now journal.old (length answer.old)) }
    ensures bytes { answer.new ≡ answer_after (run_told table.now stimulus.now journal.old (length answer.old)) answer.old }
    ensures written { journal.new ≡ run_journal table.now stimulus.now journal.old (length answer.old) }
{
    let room = room_beside(answer.len(), ONE_NUMBER, journal.len());
    tell_size(runtime::run(table, stimulus, &mut journal[..room]), answer)
}
