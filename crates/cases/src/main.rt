// Worked examples and corners of docs/RULES.md, run through the proved entries. The file `stdin` has them, and says how they are
// written; the file `stdout` has the answers as that page gives them, and the gate compares. Each entry has a module of its own.
#![tactic(auto)]

mod journals;
mod print;
mod reactions;
mod stimuli;
mod tables;

use spelling::words::{Lines, split_word};
use spelling::{Bytes, Unclear};
use std::io;
use std::io::Read;

// The bytes that cases start from, as lines before them spell them.
#[derive(Drop)]
struct Given {
    table: Bytes,
    records: Bytes,
}

fn main(rt: HostRuntime) {
    let mut text = Bytes::new();
    let room = text.capacity();
    // A read that fails ends the text.
    let _ = io::copy(&mut rt.stdin().take(room as u64), &mut text);
    if text.is_full() {
        print::text(&rt, b"too long\n");
        return;
    }
    run(&rt, &text);
}

fn run(rt: &HostRuntime, text: &[u8]) {
    let mut given = Given {
        table: Bytes::new(),
        records: Bytes::new(),
    };
    // What a line spells, made once and lent to each.
    let mut scratch = Bytes::new();
    for line in Lines::new(text) {
        run_line(rt, line, &mut given, &mut scratch);
    }
}

fn run_line(rt: &HostRuntime, line: &[u8], given: &mut Given, scratch: &mut Bytes) {
    if line.is_empty() || line.starts_with(b"#") {
        return;
    }
    let (word, rest) = split_word(line);
    let done = match word {
        b"table" => set(rest, &mut given.table, scratch),
        b"records" => set(rest, &mut given.records, scratch),
        _ => run_case(rt, word, rest, given, scratch),
    };
    if done.is_err() {
        print::text(rt, b"not understood: ");
        print::text(rt, line);
        print::end_line(rt);
    }
}

// The bytes of the line, in place of others. Of a line that cannot be understood those that were spelled come over the first of the others.
fn set(line: &[u8], bytes: &mut Bytes, scratch: &mut Bytes) -> Result<(), Unclear> {
    scratch.clear();
    let done = spelling::add(line, scratch);
    if done.is_ok() {
        bytes.clear();
        return bytes.try_extend_from_slice(scratch).map_err(|_| Unclear);
    }
    for (byte, &new) in bytes.iter_mut().zip(scratch.iter()) {
        *byte = new;
    }
    done
}

fn run_case(
    rt: &HostRuntime,
    word: &[u8],
    line: &[u8],
    given: &Given,
    scratch: &mut Bytes,
) -> Result<(), Unclear> {
    match word {
        b"=" => {
            print::text(rt, line);
            print::end_line(rt);
            Ok(())
        }
        b"check-table" => tables::check(rt, line, &given.table, scratch),
        b"check-cuts" => {
            tables::check_cuts(rt, &given.table);
            Ok(())
        }
        b"check-journal" => journals::check(rt, line, &given.table, &given.records, scratch),
        b"run" => stimuli::run(rt, line, &given.table, &given.records, scratch),
        b"run-and-check" => stimuli::run_and_check(rt, line, &given.table, &given.records, scratch),
        b"react" => reactions::react(rt, line, &given.table),
        _ => Err(Unclear),
    }
}
