// What is sound of a torn journal.
ghost use Rattle.std.specs.Prelude.{◌≡◌, length, Err};
ghost use Rattle.salvage.specs.declared.Refusal.TheVariants.{BufferTooShort};
ghost use Rattle.salvage.specs.Answer.{reply_of};
ghost use Rattle.salvage.specs.Salvage.{salvage_of};
ghost use Rattle.krossvil.specs.Host.{code_of, answer_after, made_buffer, salvage_told};
ghost use Rattle.krossvil.specs.Small.{passed_up};

use crate::checking::{ACCEPTED_ANSWER, krossvil_check_journal};
use crate::telling::{Straight, code, room_beside, tell};

// Bytes of answer that krossvil_salvage needs, for its four numbers.
const SALVAGE_ANSWER: usize = 16;

// Salvage turns down what the check turns down of the table, the length and the opening field. What is refused later is its report's.
// The refusal is a number and a place here, since the check goes first by its entry for C, which gives no more.
#[tactic(auto, unfolding(crate::specs::Small::passed_up))]
fn passes_up(number: u32, place: usize) -> bool
    ensures { result ≡ passed_up number place }
{
    number != 0 && (number < 20 || place == 0)
}

// The check goes first, by its own entry, as for the converters.
pub fn krossvil_salvage(table: &[u8], journal: &[u8], salvaged: &mut [u8], answer: &mut [u8]) -> u64
    ensures code { result ≡ code_of (salvage_told table.now journal.now salvaged.old (length answer.old)) }
    ensures bytes { answer.new ≡ answer_after (salvage_told table.now journal.now salvaged.old (length answer.old)) answer.old }
    ensures written { salvaged.new ≡ made_buffer reply_of (Err BufferTooShort) (salvage_of table.now journal.now) salvaged.old (length answer.old) }
{
    let mut accepted = [0u8; ACCEPTED_ANSWER];
    let checked = krossvil_check_journal(table, journal, &mut accepted);
    let number = (checked / 4294967296) as u32;
    let place = (checked % 4294967296) as usize;
    if passes_up(number, place) {
        return checked;
    }
    let room = room_beside(answer.len(), SALVAGE_ANSWER, salvaged.len());
    match salvage::salvage_checked(table, journal, number, place, &mut salvaged[..room]) {
        Ok(m) => {
            let numbers = [m.kept as u32, m.dropped as u32, m.number, m.place as u32];
            tell::<Straight>(&numbers, answer)
        }
        Err(refusal) => code(refusal),
    }
}
