// The parts of a line on standard output.
use std::io::Write;
use wire::Refused;

pub fn text(rt: &HostRuntime, words: &[u8]) {
    let _ = rt.stdout().write_all(words);
}

// A number after what it is.
pub fn number(rt: &HostRuntime, words: &[u8], n: u64) {
    text(rt, words);
    let _ = print!(rt; "{n}");
}

pub fn end_line(rt: &HostRuntime) {
    text(rt, b"\n");
}

// The end of a line: the refusal's number and its place.
pub fn refused(rt: &HostRuntime, refusal: impl Refused) {
    number(rt, b": refused ", u64::from(refusal.number()));
    number(rt, b" at ", refusal.place() as u64);
    end_line(rt);
}
