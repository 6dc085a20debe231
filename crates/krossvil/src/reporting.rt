// The report of many journals, whose numbers the host keeps.
ghost use Rattle.std.specs.Prelude.{◌≡◌, Ok};
ghost use Rattle.table.specs.Check.{table_answer, table_in};
ghost use Rattle.report.specs.Rows.{places_of};
ghost use Rattle.krossvil.specs.Host.{code_of, room_for, report_told, report_after};
ghost use Rattle.krossvil.specs.Small.{reply_of};

use crate::checking::{ACCEPTED_ANSWER, krossvil_check_journal};
use crate::telling::{Refusal, code};

// What is wrong with the host's numbers, if anything. That the table passed is a clause: a `Checked` would be unpacked at the next call,
// which takes bytes.
#[tactic(auto, unfolding(crate::specs::Host::room_for))]
fn room_for(table: &[u8], report: &[u64]) -> Result<(), Refusal>
    requires { table_answer table.now ≡ Ok tt }
    ensures { reply_of result ≡ room_for (places_of (table_in table.now)) report.now }
{
    if report.len() == 0 {
        return Err(Refusal::BufferTooShort);
    }
    if report::MOST_JOURNALS <= report[0] {
        return Err(Refusal::Full);
    }
    if report.len() < report::host::places(table) {
        return Err(Refusal::BufferTooShort);
    }
    Ok(())
}

// The check goes first, by its own entry, as for the converters.
pub fn krossvil_report_add(table: &[u8], journal: &[u8], report: &mut [u64]) -> u64
    ensures code { result ≡ code_of (report_told table.now journal.now report.old) }
    ensures numbers { report.new ≡ report_after table.now journal.now report.old }
{
    let mut accepted = [0u8; ACCEPTED_ANSWER];
    let refusal = krossvil_check_journal(table, journal, &mut accepted);
    if refusal != 0 {
        return refusal;
    }
    match room_for(table, report) {
        Ok(()) => {
            report::host::add_row(table, journal, report);
            0
        }
        Err(refusal) => code(refusal),
    }
}
