// The checks of a journal and of a short one. The entries that want an accepted journal call them first.
ghost use Rattle.std.specs.Prelude.{◌≡◌, length};
ghost use Rattle.krossvil.specs.Host.{code_of, answer_after, journal_told, short_told};

#[unsafe(no_mangle)]
pub extern "C" fn krossvil_check_journal(table: &[u8], journal: &[u8], answer: &mut [u8]) -> u64
    ensures code { result ≡ code_of (journal_told table.now journal.now (length answer.old)) }
    ensures bytes { answer.new ≡ answer_after (journal_told table.now journal.now (length answer.old)) answer.old }
{
    krossvil::checking::krossvil_check_journal(table, journal, answer)
}

#[unsafe(no_mangle)]
pub extern "C" fn krossvil_check_short(table: &[u8], journal: &[u8], answer: &mut [u8]) -> u64
    ensures code { result ≡ code_of (short_told table.now journal.now (length answer.old)) }
    ensures bytes { answer.new ≡ answer_after (short_told table.now journal.now (length answer.old)) answer.old }
{
    krossvil::checking::krossvil_check_short(table, journal, answer)
}
