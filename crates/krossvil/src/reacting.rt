// Reaction times: for one move, over several, and the tight ones.
ghost use Rattle.std.specs.Prelude.{◌≡◌, length};
ghost use Rattle.krossvil.specs.Host.{code_of, answer_after, reaction_told, moves_told, moves_sums, moves_path, tight_told, tight_moves_told};

use crate::telling::{Refusal, Straight, code, tell};

// Bytes of answer that krossvil_reaction_moves needs: it writes to sums and path besides.
const MOVES_ANSWER: usize = 12;

pub fn krossvil_reaction(table: &[u8], states: u32, inputs: u32, answer: &mut [u8]) -> u64
    ensures code { result ≡ code_of (reaction_told table.now states inputs (length answer.old)) }
    ensures bytes { answer.new ≡ answer_after (reaction_told table.now states inputs (length answer.old)) answer.old }
{
    match reaction::react(table, states, inputs) {
        Ok(r) => tell::<Straight>(&[r.time, r.target], answer),
        Err(refusal) => code(refusal),
    }
}

// What is turned down comes first, and then an answer buffer that is too short: only after that sums and path are written.
pub fn krossvil_reaction_moves(
    table: &[u8],
    states: u32,
    inputs: u32,
    moves: u32,
    sums: &mut [u32],
    path: &mut [u8],
    answer: &mut [u8],
) -> u64
    ensures code { result ≡ code_of (moves_told table.now states inputs moves (length sums.old) (length path.old) (length answer.old)) }
    ensures bytes { answer.new ≡ answer_after (moves_told table.now states inputs moves (length sums.old) (length path.old) (length answer.old)) answer.old }
    ensures sums { sums.new ≡ moves_sums table.now states inputs moves sums.old (length path.old) (length answer.old) }
    ensures path { path.new ≡ moves_path table.now states inputs moves (length sums.old) path.old (length answer.old) }
{
    let judged = moves::judging::judge(table, states, inputs, moves, sums.len(), path.len());
    if let Err(refusal) = judged {
        return code(refusal);
    }
    if answer.len() < MOVES_ANSWER {
        return code(Refusal::BufferTooShort);
    }
    let r = moves::react_judged(table, states, inputs, moves, sums, path);
    tell::<Straight>(&[r.time, r.target, r.length as u32], answer)
}

pub fn krossvil_reaction_tight(table: &[u8], states: u32, inputs: u32, answer: &mut [u8]) -> u64
    ensures code { result ≡ code_of (tight_told table.now states inputs (length answer.old)) }
    ensures bytes { answer.new ≡ answer_after (tight_told table.now states inputs (length answer.old)) answer.old }
{
    match tight::react(table, states, inputs) {
        Ok(r) => tell::<Straight>(&[r.time, r.target, r.tight], answer),
        Err(refusal) => code(refusal),
    }
}

pub fn krossvil_reaction_tight_moves(
    table: &[u8],
    states: u32,
    inputs: u32,
    moves: u32,
    answer: &mut [u8],
) -> u64
    ensures code { result ≡ code_of (tight_moves_told table.now states inputs moves (length answer.old)) }
    ensures bytes { answer.new ≡ answer_after (tight_moves_told table.now states inputs moves (length answer.old)) answer.old }
{
    match tight::over_moves::react(table, states, inputs, moves) {
        Ok(over) => tell::<Straight>(&[over.time, over.target, over.tight], answer),
        Err(refusal) => code(refusal),
    }
}
