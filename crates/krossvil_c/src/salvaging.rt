// What is sound of a torn journal.
ghost use Rattle.std.specs.Prelude.{◌≡◌, length, Err};
ghost use Rattle.salvage.specs.declared.Refusal.TheVariants.{BufferTooShort};
ghost use Rattle.salvage.specs.Answer.{reply_of};
ghost use Rattle.salvage.specs.Salvage.{salvage_of};
ghost use Rattle.krossvil.specs.Host.{code_of, answer_after, made_buffer, salvage_told};

#[unsafe(no_mangle)]
pub extern "C" fn krossvil_salvage(
    table: &[u8],
    journal: &[u8],
    salvaged: &mut [u8],
    answer: &mut [u8],
) -> u64
    ensures code { result ≡ code_of (salvage_told table.now journal.now salvaged.old (length answer.old)) }
    ensures bytes { answer.new ≡ answer_after (salvage_told table.now journal.now salvaged.old (length answer.old)) answer.old }
    ensures written { salvaged.new ≡ made_buffer reply_of (Err BufferTooShort) (salvage_of table.now journal.now) salvaged.old (length answer.old) }
{
    krossvil::salvaging::krossvil_salvage(table, journal, salvaged, answer)
}
