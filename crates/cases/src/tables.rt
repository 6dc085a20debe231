// The table check: docs/RULES.md, "Bytes", and refusals 1 to 8 and 11 to 13.
use crate::print;
use spelling::{Bytes, Unclear};
use table::Refusal;

pub fn check(
    rt: &HostRuntime,
    case: &[u8],
    table: &[u8],
    scratch: &mut Bytes,
) -> Result<(), Unclear> {
    spelling::of_case(case, table, scratch)?;
    print::text(rt, spelling::name(case));
    show(rt, table::check(scratch));
    Ok(())
}

fn show(rt: &HostRuntime, answer: Result<(), Refusal>) {
    match answer {
        Ok(()) => print::text(rt, b": passes\n"),
        Err(refusal) => print::refused(rt, refusal),
    }
}

// The table cut to every length short of the whole. Lengths in a row that get one answer share a line.
pub fn check_cuts(rt: &HostRuntime, table: &[u8]) {
    let mut from = 0;
    for n in 0..table.len() {
        let here = table::check(&table[..n]);
        if here != table::check(&table[..n + 1]) {
            print::number(rt, b"cut to ", from as u64);
            print::number(rt, b" .. ", n as u64);
            print::text(rt, b" bytes");
            show(rt, here);
            from = n + 1;
        }
    }
}
