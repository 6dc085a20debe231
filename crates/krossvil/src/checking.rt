// The checks of a journal and of a short one, two entries since C calls each by its name. The entries that want an accepted journal call them
// first.
ghost use Rattle.std.specs.Prelude.{◌≡◌, length};
ghost use Rattle.journal.specs.Answer as journal_answer;
ghost use Rattle.krossvil.specs.Host.{code_of, answer_after, journal_told, short_told};

use crate::telling::{Straight, code, tell};

// Bytes of answer that acceptance needs.
pub const ACCEPTED_ANSWER: usize = 28;

// The numbers of acceptance in the order in which they are told.
pub fn in_order(n: journal::Numbers) -> [u32; 7]
    ensures { result ≡ journal_answer.listed n }
{
    [
        n.end, n.ticks, n.moves, n.state, n.output, n.left, n.longest,
    ]
}

pub fn krossvil_check_journal(table: &[u8], journal: &[u8], answer: &mut [u8]) -> u64
    ensures code { result ≡ code_of (journal_told table.now journal.now (length answer.old)) }
    ensures bytes { answer.new ≡ answer_after (journal_told table.now journal.now (length answer.old)) answer.old }
{
    match journal::check(table, journal) {
        Ok(numbers) => tell::<Straight>(&in_order(numbers), answer),
        Err(refusal) => code(refusal),
    }
}

pub fn krossvil_check_short(table: &[u8], journal: &[u8], answer: &mut [u8]) -> u64
    ensures code { result ≡ code_of (short_told table.now journal.now (length answer.old)) }
    ensures bytes { answer.new ≡ answer_after (short_told table.now journal.now (length answer.old)) answer.old }
{
    match shorts::check(table, journal) {
        Ok(numbers) => tell::<Straight>(&in_order(numbers), answer),
        Err(refusal) => code(refusal),
    }
}
