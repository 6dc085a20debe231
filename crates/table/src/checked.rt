// Bytes of a table that passed the check, as a type: what is asked of them needs no clause that they did.
ghost use Rattle.std.specs.Prelude.{◌≡◌, Ok};
ghost use Rattle.table.specs.Check.{table_answer, table_in};

use super::inputs_in;

// No more is derived, since nothing compares or prints one: no plainer.
#[derive(Clone, Copy)]
pub struct Checked<'a> {
    pub bytes: &'a [u8],
    ghost passes: { table_answer bytes.now ≡ Ok tt },
}

impl<'a> Checked<'a> {
    pub fn inputs(&self) -> u32
        ensures { result ≡ (table_in self.now.bytes.now).inputs }
    {
        inputs_in(self.bytes)
    }
}
