// Imports the entries and models on standard input and writes what they are imported as.
#![tactic(auto)]

use cases::floats::{bits, float_at};
use cases::{Case, each_case, refused, size_at};
use import::{Entry, ImportError, import_entry};
use models::import_model;
use std::io;

fn main(rt: HostRuntime) -> io::Result<()> {
    each_case(&rt, |case| show(&rt, case))
}

fn show(rt: &impl Print, case: Case) -> io::Result<()> {
    match case.kind {
        Some(b'y') => show_entry(rt, float_at(&case.tape, 0)),
        Some(b'm') => show_model(rt, &case.tape, &case.first),
        _ => Ok(()),
    }
}

fn show_entry(rt: &impl Print, entry: f64) -> io::Result<()> {
    match import_entry(entry) {
        Ok(Entry::Whole(number)) => {
            print::word(rt, b"whole")?;
            print::number(rt, number)?;
        }
        Ok(Entry::Near(number, leftover)) => {
            print::word(rt, b"near")?;
            print::number(rt, number)?;
            bits(rt, leftover)?;
        }
        Err(ImportError::NotFinite) => print::word(rt, b"refused 16 -")?,
        Err(ImportError::TooLarge) => print::word(rt, b"refused 17 -")?,
    }
    print::end(rt)
}

// n, m, how many entries A and B have, and the length of the output, which is 7 throughout.
fn show_model(rt: &impl Print, bytes: &[u8], sizes: &[i32]) -> io::Result<()> {
    let n = size_at(sizes, 0);
    let m = size_at(sizes, 1);
    let a_count = size_at(sizes, 2);
    let b_count = size_at(sizes, 3);
    let room = size_at(sizes, 4);
    let a = floats(bytes, 0);
    let b = floats(bytes, a_count);
    let mut out = [7u8; 320];
    show_parts(rt, n, m, &a, a_count, &b, b_count, &mut out, room)
}

fn show_parts(
    rt: &impl Print,
    n: usize,
    m: usize,
    a: &[f64],
    a_count: usize,
    b: &[f64],
    b_count: usize,
    out: &mut [u8],
    room: usize,
) -> io::Result<()> {
    if a.len() < a_count || b.len() < b_count || out.len() < room {
        return Ok(());
    }
    show_answer(rt, n, m, &a[..a_count], &b[..b_count], &mut out[..room])
}

fn show_answer(
    rt: &impl Print,
    n: usize,
    m: usize,
    a: &[f64],
    b: &[f64],
    out: &mut [u8],
) -> io::Result<()> {
    match import_model(n, m, a, b, out) {
        Ok(()) => print::word(rt, b"written")?,
        Err(why) => refused(rt, why)?,
    }
    print::end(rt)?;
    print::word(rt, b"out")?;
    list(rt, out)?;
    print::end(rt)
}

fn list(rt: &impl Print, bytes: &[u8]) -> io::Result<()> {
    for byte in bytes {
        print::unsigned(rt, *byte as u64)?;
    }
    Ok(())
}

// The floats behind the first so many, 8 bytes each.
fn floats(bytes: &[u8], first: usize) -> [f64; 64] {
    let mut list = [0.0f64; 64];
    if 64 < first {
        return list;
    }
    for i in 0..64 {
        list[i] = float_at(bytes, 8 * (first + i));
    }
    list
}
