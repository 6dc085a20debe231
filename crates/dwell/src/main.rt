// Adds up where the time of many journals went: the files that its arguments name, under the table `table.bin` in the folder where it is
// started. Prints a line for each journal that was refused, and the sheet at the end. The report is promised by `report` and the bytes of
// the lines by `sheet`; here files are read and lines are written out.
#![tactic(auto)]

use arrayvec::ArrayVec;
use report::{Begun, Report};
use std::env::FillError;
use std::fs::File;
use std::io;
use std::io::{IsTerminal, Read, Write};
use std::rt::{Env, Files};
use wire::Refused;

// So many files are read between two lines that say how far it is.
const STRIDE: usize = 100;

// As many bytes of a name are read: no path is longer.
const LONGEST_PATH: usize = 4096;

// One byte more than a journal may have, so that a longer one is told from it.
type Records = ArrayVec<u8, 65537>;

fn print(rt: &HostRuntime, text: &[u8]) {
    let _ = rt.stdout().write_all(text);
}

// What the system says of an error, without the error's number behind it.
fn without_number(text: &[u8]) -> &[u8] {
    for k in 0..text.len() {
        if text[k..].starts_with(b" (os error ") {
            return &text[..k];
        }
    }
    text
}

// Says on standard error why the file could not be opened or read.
fn tell_failed(rt: &HostRuntime, name: &[u8], error: &io::Error) {
    let mut text = ArrayVec::<u8, 512>::new();
    let _ = write!(text, "{error}");
    let mut out = rt.stderr();
    let _ = out.write_all(name);
    let _ = out.write_all(b": ");
    let _ = out.write_all(without_number(&text));
    let _ = out.write_all(b"\n");
}

// Opens the file. A name that is not UTF-8 text opens none.
fn open<R: Files>(rt: &R, name: &[u8]) -> io::Result<R::File> {
    match str::from_utf8(name) {
        Ok(path) => File::open(rt, path),
        Err(_) => Err(io::Error::from(io::ErrorKind::InvalidFilename)),
    }
}

// Puts the file's first bytes into empty `bytes`, as many as there is room for. One more is read, so that a file which cannot be read
// there counts as empty.
// As in `checkjournal`, but for the name: no library that both stand on reads files, and one more for these lines is no plainer.
fn read_first<const N: usize>(
    rt: &impl Files,
    name: &[u8],
    bytes: &mut ArrayVec<u8, N>,
) -> io::Result<()> {
    let mut file = open(rt, name)?;
    io::copy(&mut Read::by_ref(&mut file).take(N as u64), bytes)?;
    file.read(&mut [0u8; 1])?;
    Ok(())
}

// The file's bytes, in place of others. A file that can't be opened or read counts as empty, and the reason is said on standard error.
fn read_file<const N: usize>(rt: &HostRuntime, name: &[u8], bytes: &mut ArrayVec<u8, N>) {
    bytes.clear();
    if let Err(error) = read_first(rt, name, bytes) {
        tell_failed(rt, name, &error);
        bytes.clear();
    }
}

fn print_refused(rt: &HostRuntime, name: &[u8], refusal: impl Refused) {
    let mut text = [0u8; 65536];
    let size = sheet::write_refused(name, refusal.number(), refusal.place(), &mut text);
    print(rt, &text[..size]);
}

fn print_sheet(rt: &HostRuntime, report: Report) {
    let mut text = [0u8; 65536];
    let size = sheet::write(report, &mut text);
    print(rt, &text[..size]);
}

fn add_file(rt: &HostRuntime, report: &mut Report, name: &[u8], records: &mut Records) {
    read_file(rt, name, records);
    if let Err(refusal) = report.add(records) {
        print_refused(rt, name, refusal);
    }
}

// A name that is longer than any path is cut, and opens no file.
fn add_argument(rt: &HostRuntime, report: &mut Report, i: usize, records: &mut Records) {
    let mut path = [0u8; LONGEST_PATH];
    match rt.arg(i, &mut path) {
        Ok(size) => add_file(rt, report, &path[..size], records),
        Err(_) => add_file(rt, report, &path, records),
    }
}

fn print_progress(rt: &HostRuntime, done: usize, all: usize) {
    let _ = eprintln!(rt; "{done} of {all} journals");
}

// Said at a terminal, and where many files are read.
fn tell_progress(rt: &HostRuntime, done: usize, all: usize) {
    let told = rt.stderr().is_terminal() || all > STRIDE;
    if told && (done % STRIDE == 0 || done == all) {
        print_progress(rt, done, all);
    }
}

fn add_all(rt: &HostRuntime, report: &mut Report, all: usize) {
    // Made once and lent to each file.
    let mut records = Records::new();
    for k in 0..all {
        add_argument(rt, report, k + 1, &mut records);
        tell_progress(rt, k + 1, all);
    }
}

fn print_report(rt: &HostRuntime, all: usize) {
    let mut table = ArrayVec::<u8, 65536>::new();
    read_file(rt, b"table.bin", &mut table);
    let Begun { answer, mut report } = report::begin(&table);
    if let Err(refusal) = answer {
        print_refused(rt, b"table.bin", refusal);
        return;
    }
    add_all(rt, &mut report, all);
    print_sheet(rt, report);
}

// How many words stand after the program's name.
fn argument_count(rt: &impl Env) -> usize {
    for k in 0..usize::MAX {
        if let Err(FillError::NotPresent) = rt.arg(k, &mut [0u8; 1]) {
            return k.saturating_sub(1);
        }
    }
    usize::MAX
}

fn main(rt: HostRuntime) {
    let all = argument_count(&rt);
    if all == 0 {
        let _ = rt.stderr().write_all(b"usage: dwell JOURNAL...\n");
        return;
    }
    print_report(&rt, all);
}
