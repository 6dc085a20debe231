// The line that `checkjournal` prints for an answer of the journal check. It is written into a lent buffer, so that its bytes can be
// promised: no contract can speak of what a program prints.
#![tactic(auto)]

ghost use Rattle.std.specs.Prelude.{[], ◌∷◌, ◌++◌, ◌+◌, ◌≤◌, length};
ghost use Rattle.io.specs.Counts.{IsPrefixLen};
ghost use Rattle.journal.specs.Answer.{listed};
ghost use Rattle.line.specs.Line.{Puts, decimal, named, line_with, length_names, last_names, accepted_names, refused_names, line_of};

use journal::{Numbers, Refusal};
use wire::Refused;

// Buffer and place stand beside each other, here and in `sheet`. No plainer in one struct: each method, and each function over it, would have
// to promise that the buffer is still the same and as long, which the arrays' types say of themselves.

// Writes the text from `at` on, and gives back where it ends.
pub fn put_text(out: &mut [u8], at: usize, text: &[u8]) -> usize
    requires { at + length text.now ≤ length out.old }
    ensures { Puts text.now out.old at out.new result }
{
    let end = at + text.len();
    out[at..end].copy_from_slice(text);
    end
}

// A number after its name, in the same way. Twenty digits hold any number of 64 bits.
pub fn put_number(out: &mut [u8], at: usize, name: &[u8], n: u64) -> usize
    requires { at + length name.now + 20 ≤ length out.old }
    ensures puts { Puts (name.now ++ decimal n) out.old at out.new result }
    ensures short { result ≤ at + length name.now + 20 }
{
    let mut digits = [0u8; 20];
    let size = io::decimal(n, &mut digits);
    let at = put_text(out, at, name);
    put_text(out, at, &digits[..size])
}

// How long the run was. Each number has at most ten digits, twenty as far as `put_number` knows.
fn put_length(out: &mut [u8; 256], n: Numbers) -> usize
    ensures puts { Puts (named length_names (n.end ∷ n.ticks ∷ n.moves ∷ [])) out.old 0 out.new result }
    ensures short { result ≤ 88 }
{
    let at = put_number(out, 0, b"accepted end=", u64::from(n.end));
    let at = put_number(out, at, b" cycles=", u64::from(n.ticks));
    put_number(out, at, b" moves=", u64::from(n.moves))
}

// Where it ended.
fn put_last(out: &mut [u8; 256], at: usize, n: Numbers) -> usize
    requires { at ≤ 88 }
    ensures puts { Puts (named last_names (n.state ∷ n.output ∷ [])) out.old at out.new result }
    ensures short { result ≤ 143 }
{
    let at = put_number(out, at, b" state=", u64::from(n.state));
    put_number(out, at, b" output=", u64::from(n.output))
}

// Then the most ticks left at a test, and the longest cycle.
fn put_accepted(out: &mut [u8; 256], n: Numbers) -> usize
    ensures { Puts (line_with accepted_names (listed n)) out.old 0 out.new result }
{
    let at = put_length(out, n);
    let at = put_last(out, at, n);
    let at = put_number(out, at, b" left=", u64::from(n.left));
    let at = put_number(out, at, b" longest=", u64::from(n.longest));
    put_text(out, at, b"\n")
}

fn put_refused(out: &mut [u8; 256], number: u32, place: usize) -> usize
    ensures { Puts (line_with refused_names (number ∷ place ∷ [])) out.old 0 out.new result }
{
    let at = put_number(out, 0, b"refused ", u64::from(number));
    let at = put_number(out, at, b" at ", place as u64);
    put_text(out, at, b"\n")
}

// The line at the start of the buffer, and its length. Bytes of the buffer past it are unchanged.
pub fn write(answer: Result<Numbers, Refusal>, out: &mut [u8; 256]) -> usize
    ensures puts { Puts (line_of answer) out.old 0 out.new result }
    ensures counts { IsPrefixLen result out.new }
{
    match answer {
        Ok(n) => put_accepted(out, n),
        Err(refusal) => put_refused(out, refusal.number(), refusal.place()),
    }
}
