// The journal check: docs/RULES.md, refusals 19 to 28.
use crate::print;
use journal::{Numbers, Refusal};
use spelling::{Bytes, Unclear};

// Four lines, as in `tables`: with the check and what shows its answer handed over as closures they are no plainer.
pub fn check(
    rt: &HostRuntime,
    case: &[u8],
    table: &[u8],
    records: &[u8],
    scratch: &mut Bytes,
) -> Result<(), Unclear> {
    spelling::of_case(case, records, scratch)?;
    print::text(rt, spelling::name(case));
    show(rt, journal::check(table, scratch));
    Ok(())
}

pub fn show(rt: &HostRuntime, answer: Result<Numbers, Refusal>) {
    match answer {
        Ok(n) => show_accepted(rt, n),
        Err(refusal) => print::refused(rt, refusal),
    }
}

fn show_accepted(rt: &HostRuntime, n: Numbers) {
    print::number(rt, b": accepted, T ", u64::from(n.end));
    print::number(rt, b", ticks ", u64::from(n.ticks));
    print::number(rt, b", moves ", u64::from(n.moves));
    print::number(rt, b", state ", u64::from(n.state));
    print::number(rt, b", output ", u64::from(n.output));
    print::number(rt, b", left ", u64::from(n.left));
    print::number(rt, b", longest ", u64::from(n.longest));
    print::end_line(rt);
}
