// Reaction times: for one move, over several, and the tight ones.
ghost use Rattle.std.specs.Prelude.{◌≡◌, length};
ghost use Rattle.krossvil.specs.Host.{code_of, answer_after, reaction_told, moves_told, moves_sums, moves_path, tight_told, tight_moves_told};

#[unsafe(no_mangle)]
pub extern "C" fn krossvil_reaction(
    table: &[u8],
    states: u32,
    inputs: u32,
    answer: &mut [u8],
) -> u64
    ensures code { result ≡ code_of (reaction_told table.now states inputs (length answer.old)) }
    ensures bytes { answer.new ≡ answer_after (reaction_told table.now states inputs (length answer.old)) answer.old }
{
    krossvil::reacting::krossvil_reaction(table, states, inputs, answer)
}

#[unsafe(no_mangle)]
pub extern "C" fn krossvil_reaction_moves(
    table: &[u8],
    states: u32,
    inputs: u32,
    moves: u32,
    sums: &mut [u32],
    path: &mut [u8],
    answer: &mut [u8],
) -> u64
    ensures code { result ≡ code_of (moves_told table.now states inputs moves (length sums.old) (length path.old) (length answer.old)) }
    ensures bytes { answer.new ≡ answer_after (moves_told table.now states inputs moves (length sums.old) (length path.old) (length answer.old)) answer.old }
    ensures sums { sums.new ≡ moves_sums table.now states inputs moves sums.old (length path.old) (length answer.old) }
    ensures path { path.new ≡ moves_path table.now states inputs moves (length sums.old) path.old (length answer.old) }
{
    krossvil::reacting::krossvil_reaction_moves(table, states, inputs, moves, sums, path, answer)
}

#[unsafe(no_mangle)]
pub extern "C" fn krossvil_reaction_tight(
    table: &[u8],
    states: u32,
    inputs: u32,
    answer: &mut [u8],
) -> u64
    ensures code { result ≡ code_of (tight_told table.now states inputs (length answer.old)) }
    ensures bytes { answer.new ≡ answer_after (tight_told table.now states inputs (length answer.old)) answer.old }
{
    krossvil::reacting::krossvil_reaction_tight(table, states, inputs, answer)
}

#[unsafe(no_mangle)]
pub extern "C" fn krossvil_reaction_tight_moves(
    table: &[u8],
    states: u32,
    inputs: u32,
    moves: u32,
    answer: &mut [u8],
) -> u64
    ensures code { result ≡ code_of (tight_moves_told table.now states inputs moves (length answer.old)) }
    ensures bytes { answer.new ≡ answer_after (tight_moves_told table.now states inputs moves (length answer.old)) answer.old }
{
    krossvil::reacting::krossvil_reaction_tight_moves(table, states, inputs, moves, answer)
}
