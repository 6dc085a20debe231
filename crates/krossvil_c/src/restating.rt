// A journal in another form: read from stamps, shortened, lengthened.
ghost use Rattle.std.specs.Prelude.{◌≡◌, length, Err};
ghost use Rattle.writing.specs.declared.Refusal.TheVariants as stamped_variants;
ghost use Rattle.writing.specs.Answer as stamped_answer;
ghost use Rattle.stamped.specs.Stamped.{read_of};
ghost use Rattle.restate.specs.declared.Refusal.TheVariants.{BufferTooShort};
ghost use Rattle.restate.specs.Answer.{reply_of};
ghost use Rattle.restate.specs.Restate.{shorten_of, lengthen_of};
ghost use Rattle.krossvil.specs.Host.{code_of, answer_after, made_buffer, stamped_told, shorten_told, lengthen_told};

#[unsafe(no_mangle)]
pub extern "C" fn krossvil_read_stamped(
    stamped: &[u8],
    journal: &mut [u8],
    answer: &mut [u8],
) -> u64
    ensures code { result ≡ code_of (stamped_told stamped.now journal.old (length answer.old)) }
    ensures bytes { answer.new ≡ answer_after (stamped_told stamped.now journal.old (length answer.old)) answer.old }
    ensures written { journal.new ≡ made_buffer stamped_answer.reply_of (Err stamped_variants.BufferTooShort) (read_of stamped.now) journal.old (length answer.old) }
{
    krossvil::restating::krossvil_read_stamped(stamped, journal, answer)
}

#[unsafe(no_mangle)]
pub extern "C" fn krossvil_shorten(
    table: &[u8],
    journal: &[u8],
    shortened: &mut [u8],
    answer: &mut [u8],
) -> u64
    ensures code { result ≡ code_of (shorten_told table.now journal.now shortened.old (length answer.old)) }
    ensures bytes { answer.new ≡ answer_after (shorten_told table.now journal.now shortened.old (length answer.old)) answer.old }
    ensures written { shortened.new ≡ made_buffer reply_of (Err BufferTooShort) (shorten_of table.now journal.now) shortened.old (length answer.old) }
{
    krossvil::restating::krossvil_shorten(table, journal, shortened, answer)
}

#[unsafe(no_mangle)]
pub extern "C" fn krossvil_lengthen(
    table: &[u8],
    shortened: &[u8],
    journal: &mut [u8],
    answer: &mut [u8],
) -> u64
    ensures code { result ≡ code_of (lengthen_told table.now shortened.now journal.old (length answer.old)) }
    ensures bytes { answer.new ≡ answer_after (lengthen_told table.now shortened.now journal.old (length answer.old)) answer.old }
    ensures written { journal.new ≡ made_buffer reply_of (Err BufferTooShort) (lengthen_of table.now shortened.now) journal.old (length answer.old) }
{
    krossvil::restating::krossvil_lengthen(table, shortened, journal, answer)
}
