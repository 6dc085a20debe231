// Bytes copied one after another. std's `copy_from_slice` asks first whether the two overlap, by their addresses, which cannot be compiled for
// a processor with pointers of 32 bits (docs/TRUSTED.md).
#![tactic(auto)]

ghost use Rattle.std.specs.Prelude.{◌≡◌, ◌++◌, ◌≤◌, length, drop};

// The bytes stand at the start of the other slice, whose rest is as it was.
pub fn copy(from: &[u8], out: &mut [u8])
    requires { length from.now ≤ length out.old }
    ensures { out.new ≡ from.now ++ drop (length from.now) out.old }
{
    for (k, &byte) in from.iter().enumerate() {
        out[k] = byte;
    }
}
