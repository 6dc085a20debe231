// The lines that `dwell` prints: the sheet of a report, and a line for each journal that was refused. They are written into a lent buffer, so
// that their bytes can be promised: no contract can speak of what a program prints.
#![tactic(auto)]

ghost use Rattle.std.specs.Prelude.{◌≡◌, [], ◌∷◌, ◌++◌, ◌+◌, ◌*◌, ◌/◌, ◌%◌, ◌<◌, ◌≤◌, min, length, get_or};
ghost use Rattle.io.specs.Counts.{IsPrefixLen};
ghost use Rattle.line.specs.Line.{text, Puts};
ghost use Rattle.sheet.specs.Sheet.{row, joined, states_of, inputs_of, pair_line, state_line, sheet_of, quoted_byte, quoted, refused_line};

use line::{put_number, put_text};
use report::Report;

// As many bytes of a name are written.
pub const LONGEST_NAME: usize = 4096;

// Numbers after a word: each after a comma, and the line's end. Each number has at most twenty digits.
fn put_numbers(out: &mut [u8; 65536], at: usize, numbers: &[u64]) -> usize
    requires { at + 21 * length numbers.now < 65536 }
    ensures puts { Puts (row [] numbers.now) out.old at out.new result }
    ensures short { result ≤ at + 21 * length numbers.now + 1 }
{
    let mut end = at;
    for (k, &n) in numbers.iter().enumerate() {
        end = put_number(out, end, b",", n);
    }
    put_text(out, end, b"\n")
}

// A word and three numbers.
fn put_three(
    out: &mut [u8; 65536],
    at: usize,
    word: &[u8],
    first: u64,
    second: u64,
    third: u64,
) -> usize
    requires { at + length word.now + 64 ≤ 65536 }
    ensures { Puts (row word.now (first ∷ second ∷ third ∷ [])) out.old at out.new result }
{
    let at = put_text(out, at, word);
    put_numbers(out, at, &[first, second, third])
}

// The pair at place k of the rows. State and input have at most two digits each.
fn put_pair(out: &mut [u8; 65536], at: usize, inputs: usize, k: usize, slots: u64) -> usize
    requires { (at ≤ 65000) × (inputs ≤ 32) × (k < 32 * inputs) }
    ensures puts { Puts (row (text "pair") (k / inputs ∷ k % inputs ∷ slots ∷ [])) out.old at out.new result }
    ensures short { result ≤ at + 32 }
{
    put_three(
        out,
        at,
        b"pair",
        (k / inputs) as u64,
        (k % inputs) as u64,
        slots,
    )
}

fn put_pairs(out: &mut [u8; 65536], at: usize, report: Report, inputs: usize, n: usize) -> usize
    requires { (at ≤ 30) × (inputs ≡ inputs_of report) × (inputs ≤ 32) × (n ≤ 32 * inputs) }
    ensures puts { Puts (joined (pair_line report) n) out.old at out.new result }
    ensures short { result ≤ at + 32 * n }
{
    let mut end = at;
    for k in 0..n {
        end = put_pair(out, end, inputs, k, report.pairs[k]);
    }
    end
}

fn put_states(out: &mut [u8; 65536], at: usize, report: Report, n: usize) -> usize
    requires { (at ≤ 32798) × (n ≤ 32) }
    ensures { Puts (joined (state_line report) n) out.old at out.new result }
{
    let mut end = at;
    for k in 0..n {
        end = put_three(
            out,
            end,
            b"state",
            k as u64,
            report.dwell[k],
            report.entries[k],
        );
    }
    end
}

fn put_journals(out: &mut [u8; 65536], journals: u64) -> usize
    ensures puts { Puts (row (text "journals") (journals ∷ [])) out.old 0 out.new result }
    ensures short { result ≤ 30 }
{
    let at = put_text(out, 0, b"journals");
    put_numbers(out, at, &[journals])
}

// The sheet at the start of the buffer, and its length. Bytes of the buffer past it are unchanged.
pub fn write(report: Report, out: &mut [u8; 65536]) -> usize
    ensures puts { Puts (sheet_of report) out.old 0 out.new result }
    ensures counts { IsPrefixLen result out.new }
{
    let states = usize::from(report.table[3].min(32));
    let inputs = usize::from(report.table[4].min(32));
    let at = put_journals(out, report.journals);
    let at = put_pairs(out, at, report, inputs, states * inputs);
    put_states(out, at, report, states)
}

fn put_byte(out: &mut [u8; 65536], at: usize, b: u8) -> usize
    requires { at ≤ 65000 }
    ensures puts { Puts (quoted_byte b) out.old at out.new result }
    ensures short { result ≤ at + 2 }
{
    if b == b'"' {
        return put_text(out, at, &[b, b]);
    }
    if b.is_ascii_control() {
        return put_text(out, at, b"?");
    }
    put_text(out, at, &[b])
}

fn put_name(out: &mut [u8; 65536], at: usize, name: &[u8]) -> usize
    requires { at ≤ 10 }
    ensures puts { Puts (quoted name.now) out.old at out.new result }
    ensures short { result ≤ at + 8192 }
{
    let n = name.len().min(LONGEST_NAME);
    let mut end = at;
    for &byte in &name[..n] {
        end = put_byte(out, end, byte);
    }
    end
}

// The word and the name in quotes.
fn put_refused(out: &mut [u8; 65536], name: &[u8]) -> usize
    ensures puts { Puts (text "refused,\"" ++ (quoted name.now ++ text "\"")) out.old 0 out.new result }
    ensures short { result ≤ 8202 }
{
    let at = put_text(out, 0, b"refused,\"");
    let at = put_name(out, at, name);
    put_text(out, at, b"\"")
}

// The line of a journal that was refused, in the same way.
pub fn write_refused(name: &[u8], number: u32, place: usize, out: &mut [u8; 65536]) -> usize
    ensures puts { Puts (refused_line name.now number place) out.old 0 out.new result }
    ensures counts { IsPrefixLen result out.new }
{
    let at = put_refused(out, name);
    put_numbers(out, at, &[u64::from(number), place as u64])
}
