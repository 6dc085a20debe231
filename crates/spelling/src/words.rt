// Lines of text, the words of a line, and the numbers among them.
ghost use Rattle.std.specs.Prelude.{◌≡◌, ◌-◌, ◌<◌, ◌≤◌, ◌≢◌, ◌↔◌, ◌∷◌, ◌++◌, length, All, IfOk, IfSome, IsNone};
ghost use Rattle.std.specs.Iterator.{at_most};

use crate::Unclear;

// What stands before the first such byte, and what stands after it.
pub fn split_once(text: &[u8], byte: u8) -> Option<(&[u8], &[u8])>
    ensures parts { IfSome result (λ p. text.now ≡ p.0.now ++ byte ∷ p.1.now) }
    ensures first { IfSome result (λ p. All (λ b. b ≢ byte) p.0.now) }
    ensures none { IsNone result → All (λ b. b ≢ byte) text.now }
{
    let at = text.iter().position(|&b| b == byte)?;
    Some((&text[..at], &text[at + 1..]))
}

// The lines of a text, without their ends. A line that begins with a space goes on the one before it.
#[derive(Clone, Copy, Debug, PartialEq, Eq)]
pub struct Lines<'a> {
    pub rest: &'a [u8],
}

impl<'a> Lines<'a> {
    pub fn new(text: &'a [u8]) -> Lines<'a>
        ensures { result.rest.now ≡ text.now }
    {
        Lines { rest: text }
    }
}

impl<'a> Iterator for Lines<'a> {
    type Item = &'a [u8];

    ghost remaining = { λ s. at_most (length s.rest.now) };

    fn next(&mut self) -> Option<&'a [u8]> {
        if self.rest.is_empty() {
            return None;
        }
        let (line, rest) = split_line(self.rest);
        self.rest = rest;
        Some(line)
    }
}

// The first line, and what stands after its end.
fn split_line(text: &[u8]) -> (&[u8], &[u8])
    ensures { length result.1.now ≤ length text.now - 1 }
{
    for n in 0..text.len() {
        if text[n] == b'\n' && !text[n + 1..].starts_with(b" ") {
            return (&text[..n], &text[n + 1..]);
        }
    }
    (text, &[])
}

// A word ends at a space or a line end.
pub(crate) fn is_space(byte: u8) -> bool {
    byte == b' ' || byte == b'\n'
}

// The first word, and what stands after it.
pub fn split_word(line: &[u8]) -> (&[u8], &[u8])
    ensures { length result.1.now ≤ length line.now - 1 }
{
    match line.iter().position(|&byte| is_space(byte)) {
        Some(at) => (&line[..at], &line[at + 1..]),
        None => (line, &[]),
    }
}

// The value of a digit, of ten or of sixteen; 16 for any other byte.
pub fn digit(byte: u8) -> u8
    ensures { result ≤ 16 }
{
    read_digit(byte).unwrap_or(16)
}

// The value of a digit, of ten or of sixteen.
pub fn read_digit(byte: u8) -> Result<u8, Unclear>
    ensures { IfOk result (λ value. value < 16) }
{
    match byte {
        b'0'..=b'9' => Ok(byte - b'0'),
        b'A'..=b'F' => Ok(byte - b'A' + 10),
        _ => Err(Unclear),
    }
}

// A decimal number of at most nine digits.
pub fn number(word: &[u8]) -> Result<usize, Unclear>
    ensures { IfOk result (λ n. n < 1000000000) }
{
    if word.is_empty() {
        return Err(Unclear);
    }
    let mut value = 0usize;
    for &byte in word {
        let digit = read_digit(byte)?;
        if digit > 9 || value > 99999999 {
            return Err(Unclear);
        }
        value = value * 10 + usize::from(digit);
    }
    Ok(value)
}
