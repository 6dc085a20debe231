// The entries of a field that passed, read into an array.
ghost use Rattle.std.specs.Prelude.{◌≡◌, ◌+◌, ◌*◌, ◌<◌, ◌≤◌, length};
ghost use Rattle.table.specs.Entries.{filled_to};
ghost use Rattle.table.specs.Check.{byte_entry, word_entry};

use wire::number32;

// n entries of one byte, of the field that starts at `at`.
pub fn fill_bytes(s: &[u8], at: usize, n: usize, array: &mut [u8])
    requires { (at + 3 + n ≤ length s.now) × (n ≤ length array.old) }
    ensures { array.new ≡ filled_to (byte_entry s.now at) n array.old }
{
    for k in 0..n {
        array[k] = s[at + 3 + k];
    }
}

// n entries of four bytes. Where there are none, no field need be there.
pub fn fill_words(s: &[u8], at: usize, n: usize, array: &mut [u32])
    requires { (0 < n → at + 3 + 4 * n ≤ length s.now) × (n ≤ length array.old) }
    ensures { array.new ≡ filled_to (word_entry s.now at) n array.old }
{
    for k in 0..n {
        array[k] = number32(s, at + 3 + 4 * k);
    }
}
