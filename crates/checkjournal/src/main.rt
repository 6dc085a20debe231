// Checks the journal `journal.bin` under the table `table.bin`, both in the folder where the program is started, and prints one line.
// The answer is promised by `journal` and the bytes of the line by `line`; here files are read and the line is written out.
#![tactic(auto)]

use arrayvec::ArrayVec;
use std::fs::{File, Files};
use std::io;
use std::io::{Read, Write};

// Puts the file's first bytes into empty `bytes`, as many as there is room for. One more is read, so that a file which cannot be read
// there counts as empty.
fn read_first<const N: usize>(
    rt: &impl Files,
    name: &str,
    bytes: &mut ArrayVec<u8, N>,
) -> io::Result<()> {
    let mut file = File::open(rt, name)?;
    io::copy(&mut Read::by_ref(&mut file).take(N as u64), bytes)?;
    file.read(&mut [0u8; 1])?;
    Ok(())
}

// A file that can't be opened or read counts as empty.
fn read_file<const N: usize>(rt: &impl Files, name: &str, bytes: &mut ArrayVec<u8, N>) {
    if read_first(rt, name, bytes).is_err() {
        bytes.clear();
    }
}

fn main(rt: HostRuntime) {
    let mut table = ArrayVec::<u8, 65536>::new();
    // One byte more than a journal may have, so that a longer one is told from it.
    let mut records = ArrayVec::<u8, 65537>::new();
    read_file(&rt, "table.bin", &mut table);
    read_file(&rt, "journal.bin", &mut records);
    let mut text = [0u8; 256];
    let size = line::write(journal::check(&table, &records), &mut text);
    let _ = rt.stdout().write_all(&text[..size]);
}
