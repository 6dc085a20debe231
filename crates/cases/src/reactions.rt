// The reaction calculator: docs/RULES.md, "Reaction times" and "Cases".
use crate::print;
use reaction::{Reaction, Refusal};
use spelling::Unclear;
use spelling::words::{number, split_word};

// The line's first two words are the states and the inputs, each a set as a number.
pub fn react(rt: &HostRuntime, line: &[u8], table: &[u8]) -> Result<(), Unclear> {
    let (states, line) = split_word(line);
    let states = number(states)? as u32;
    let (inputs, case) = split_word(line);
    let inputs = number(inputs)? as u32;
    print::text(rt, case);
    print::number(rt, b", states ", u64::from(states));
    print::number(rt, b", inputs ", u64::from(inputs));
    show(rt, reaction::react(table, states, inputs));
    Ok(())
}

fn show(rt: &HostRuntime, answer: Result<Reaction, Refusal>) {
    match answer {
        Ok(Reaction { time, target }) => {
            print::number(rt, b": time ", u64::from(time));
            print::number(rt, b", target ", u64::from(target));
            print::end_line(rt);
        }
        Err(refusal) => print::refused(rt, refusal),
    }
}
