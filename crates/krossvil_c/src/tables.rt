// The table check, and the converter of old tables.
ghost use Rattle.std.specs.Prelude.{◌≡◌, length, Err};
ghost use Rattle.table.specs.Answer as table_answers;
ghost use Rattle.table.specs.Check.{table_answer};
ghost use Rattle.convert.specs.declared.Refusal.TheVariants.{BufferTooShort};
ghost use Rattle.convert.specs.Answer as convert_answer;
ghost use Rattle.convert.specs.Convert.{made_of};
ghost use Rattle.krossvil.specs.Host.{code_of, answer_after, made_buffer, convert_told};

#[unsafe(no_mangle)]
pub extern "C" fn krossvil_check_table(table: &[u8]) -> u64
    ensures { result ≡ code_of (table_answers.reply_of (table_answer table.now)) }
{
    krossvil::tables::krossvil_check_table(table)
}

#[unsafe(no_mangle)]
pub extern "C" fn krossvil_convert_table(
    table: &[u8],
    converted: &mut [u8],
    answer: &mut [u8],
) -> u64
    ensures code { result ≡ code_of (convert_told table.now converted.old (length answer.old)) }
    ensures bytes { answer.new ≡ answer_after (convert_told table.now converted.old (length answer.old)) answer.old }
    ensures written { converted.new ≡ made_buffer convert_answer.reply_of (Err BufferTooShort) (made_of table.now) converted.old (length answer.old) }
{
    krossvil::tables::krossvil_convert_table(table, converted, answer)
}
