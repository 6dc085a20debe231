// Bytes as a line spells them, word by word:
//   HEX      these bytes come next
//   N*HEX    the same, N times
//   AT=HEX   these bytes stand from AT on, in place of others
//   AT=end   the bytes end at AT
#![tactic(auto)]

ghost use Rattle.std.specs.Prelude.{◌≡◌, ◌+◌, ◌≤◌, IfOk};
ghost use Rattle.arrayvec.specs.ArrayVec.{array_vec_len};

pub mod words;

use arrayvec::ArrayVec;
use words::{is_space, number, read_digit, split_once};

// A line spells at most one byte more than a journal may have.
pub type Bytes = ArrayVec<u8, 65537>;

// Of a text that cannot be understood.
#[derive(Clone, Copy, Debug, PartialEq, Eq)]
pub struct Unclear;

// One byte, over another or after all others. Gives the place after it.
fn put_byte(byte: u8, bytes: &mut Bytes, at: usize) -> Result<usize, Unclear>
    requires { at ≤ array_vec_len bytes.old }
    ensures grows { array_vec_len bytes.old ≤ array_vec_len bytes.new }
    ensures next { IfOk result (λ end. end ≡ at + 1) }
    ensures within { IfOk result (λ end. end ≤ array_vec_len bytes.new) }
{
    if at < bytes.len() {
        bytes.as_mut_slice()[at] = byte;
    } else {
        bytes.try_push(byte).map_err(|_| Unclear)?;
    }
    Ok(at + 1)
}

// The bytes that the digits spell, from a place on. Gives where they end.
fn put(digits: &[u8], bytes: &mut Bytes, at: usize) -> Result<usize, Unclear>
    requires { at ≤ array_vec_len bytes.old }
    ensures grows { array_vec_len bytes.old ≤ array_vec_len bytes.new }
    ensures within { IfOk result (λ end. end ≤ array_vec_len bytes.new) }
{
    let mut end = at;
    for pair in digits.chunks(2) {
        let [high, low] = pair else {
            return Err(Unclear);
        };
        end = put_byte(read_digit(*high)? * 16 + read_digit(*low)?, bytes, end)?;
    }
    Ok(end)
}

// The bytes between two places again and again, until they stand there so many times. Gives where they end.
fn repeat(times: usize, bytes: &mut Bytes, from: usize, to: usize) -> Result<usize, Unclear>
    requires { to ≤ array_vec_len bytes.old }
    ensures { IfOk result (λ end. end ≤ array_vec_len bytes.new) }
{
    let count = to.saturating_sub(from);
    if count == 0 || times == 0 {
        return Err(Unclear);
    }
    let mut at = to;
    for _ in 0..(times - 1).saturating_mul(count) {
        at = put_byte(bytes[at - count], bytes, at)?;
    }
    Ok(at)
}

// What changes among the first `size` bytes. Gives how many there are then.
fn change(at: &[u8], digits: &[u8], bytes: &mut Bytes, size: usize) -> Result<usize, Unclear>
    requires { size ≤ array_vec_len bytes.old }
    ensures { IfOk result (λ end. end ≤ array_vec_len bytes.new) }
{
    let at = number(at)?;
    if at > size {
        return Err(Unclear);
    }
    if digits == b"end".as_slice() {
        return Ok(at);
    }
    if put(digits, bytes, at)? > size {
        return Err(Unclear);
    }
    Ok(size)
}

// One word, where `size` bytes stand already. Gives how many there are then.
fn add_word(word: &[u8], bytes: &mut Bytes, size: usize) -> Result<usize, Unclear>
    requires { size ≤ array_vec_len bytes.old }
    ensures { IfOk result (λ end. end ≤ array_vec_len bytes.new) }
{
    if let Some((at, digits)) = split_once(word, b'=') {
        return change(at, digits, bytes, size);
    }
    let Some((times, digits)) = split_once(word, b'*') else {
        return put(word, bytes, size);
    };
    let times = number(times)?;
    let end = put(digits, bytes, size)?;
    repeat(times, bytes, size, end)
}

// All words of a line. Where one cannot be understood, every byte that the words before it spelled stays, past an `end` too.
pub fn add(line: &[u8], bytes: &mut Bytes) -> Result<(), Unclear> {
    let mut size = bytes.len();
    for word in line.split(|&byte| is_space(byte)) {
        size = add_word(word, bytes, size)?;
    }
    bytes.truncate(size);
    Ok(())
}

// A case is a name, and after a colon what it changes.
pub fn name(case: &[u8]) -> &[u8] {
    match split_once(case, b':') {
        Some((name, _)) => name,
        None => case,
    }
}

// The bytes of a case, in place of others: its own copy of those that it starts from, changed.
pub fn of_case(case: &[u8], start: &[u8], bytes: &mut Bytes) -> Result<(), Unclear> {
    bytes.clear();
    bytes.try_extend_from_slice(start).map_err(|_| Unclear)?;
    if let Some((_, changes)) = split_once(case, b':') {
        add(changes, bytes)?;
    }
    Ok(())
}

#[cfg(test)]
mod tests {
    use super::*;

    #[test]
    fn spells_a_case(rt: HostRuntime) -> Result<(), Unclear> {
        let mut bytes = Bytes::new();
        of_case(b"case: 0A 2*0B0C 1=FF 4=end", b"\x01", &mut bytes)?;
        assert_eq!(rt; bytes.as_slice(), b"\x01\xff\x0b\x0c".as_slice());
        Ok(())
    }
}
