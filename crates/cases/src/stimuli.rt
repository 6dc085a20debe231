// The runtime: docs/RULES.md. The same refusals, the journal that it writes, and the bytes that it leaves.
use crate::{journals, print};
use runtime::Refusal;
use spelling::words::{number, split_word};
use spelling::{Bytes, Unclear};

// One byte more than a journal may have.
const ROOM: usize = 65537;

pub fn run(
    rt: &HostRuntime,
    line: &[u8],
    table: &[u8],
    records: &[u8],
    scratch: &mut Bytes,
) -> Result<(), Unclear> {
    run_into(rt, line, table, records, scratch, &mut [0u8; ROOM])?;
    Ok(())
}

// The run, and the journal check on what it wrote.
pub fn run_and_check(
    rt: &HostRuntime,
    line: &[u8],
    table: &[u8],
    records: &[u8],
    scratch: &mut Bytes,
) -> Result<(), Unclear> {
    let mut journal = [0u8; ROOM];
    let written = run_into(rt, line, table, records, scratch, &mut journal)?;
    print::text(rt, b"its journal");
    journals::show(rt, journal::check(table, written));
    Ok(())
}

// The line's first word is the room for the journal, in bytes. Gives the journal, none where the run was refused.
fn run_into<'a>(
    rt: &HostRuntime,
    line: &[u8],
    table: &[u8],
    records: &[u8],
    scratch: &mut Bytes,
    journal: &'a mut [u8; ROOM],
) -> Result<&'a [u8], Unclear> {
    let (room, case) = split_word(line);
    let room = number(room)?.min(ROOM);
    spelling::of_case(case, records, scratch)?;
    print::text(rt, spelling::name(case));
    let length = show(rt, runtime::run(table, scratch, &mut journal[..room]));
    Ok(&journal[..length.min(ROOM)])
}

// Gives the journal's length, 0 where there is none: an `Option` would be unpacked to that 0 at the one call.
fn show(rt: &HostRuntime, answer: Result<usize, Refusal>) -> usize {
    match answer {
        Ok(length) => {
            print::number(rt, b": journal of ", length as u64);
            print::text(rt, b" bytes\n");
            length
        }
        Err(refusal) => {
            print::refused(rt, refusal);
            0
        }
    }
}
