// A whole model: each entry tested, then each written as a command of the tape.
#![tactic(auto)]

ghost use Rattle.std.specs.Prelude.{◌+◌, ◌*◌, ◌<◌, ◌≤◌, ◌≡◌, ◌∷◌, ◌++◌, length, nat_abs};
ghost use Rattle.integer.specs.Encoding.{signed_bytes};
ghost use Rattle.import.specs.Entries.{imported};
ghost use Rattle.models.specs.Models.{wrong_length, verdict, tested, model_answer, number_in, commands_from, model_left, ReadBack};

use commands::is_wrong_size;
use import::{Entry, ImportError, import_entry};
use integer::bytes::{twos_complement, write_unsigned};
use tape::refusal::Refusal;

// Every entry is tested before the first is written, so that a refusal leaves the output as it was.
pub fn import_model(n: usize, m: usize, a: &[f64], b: &[f64], out: &mut [u8]) -> Result<(), Refusal>
    ensures value { result ≡ model_answer n m a.now b.now (length out.old) }
    ensures out_after { out.new ≡ model_left result n m a.now b.now out.old }
    ensures read_back { ReadBack result n m a.now b.now out.new }
{
    test_model(n, m, a, b, out.len())?;
    write_model(n, m, a, b, out);
    Ok(())
}

// N is 1 here: any legal one serves to test the other two sizes.
fn test_model(n: usize, m: usize, a: &[f64], b: &[f64], out: usize) -> Result<(), Refusal>
    ensures { result ≡ model_answer n m a.now b.now out }
{
    if is_wrong_size(n, m, 1) {
        return Err(Refusal::ArgumentOutOfRange);
    }
    if is_wrong_length(n, m, a.len(), b.len(), out) {
        return Err(Refusal::Length);
    }
    test_entries(a, 0)?;
    test_entries(b, a.len())
}

fn is_wrong_length(n: usize, m: usize, a: usize, b: usize, out: usize) -> bool
    requires { (n ≤ 6) × (m ≤ 4) }
    ensures { result ≡ wrong_length n m a b out }
{
    let states = n * n;
    let inputs = n * m;
    a != states || b != inputs || out != 5 * (states + inputs)
}

// The first refusal among entries whose counts start at `count`.
fn test_entries(entries: &[f64], count: usize) -> Result<(), Refusal>
    requires { count + length entries.now ≤ 60 }
    ensures { result ≡ tested count entries.now }
{
    for (i, entry) in entries.iter().enumerate() {
        test_entry(*entry, count + i)?;
    }
    Ok(())
}

fn test_entry(entry: f64, count: usize) -> Result<(), Refusal>
    ensures { result ≡ verdict count (imported entry) }
{
    match import_entry(entry) {
        Ok(_) => Ok(()),
        Err(ImportError::NotFinite) => Err(Refusal::NotFinite(count)),
        Err(ImportError::TooLarge) => Err(Refusal::TooLarge(count)),
    }
}

fn write_model(n: usize, m: usize, a: &[f64], b: &[f64], out: &mut [u8])
    requires { (length out.old ≡ 5 * length a.now + 5 * length b.now) × (length a.now ≤ 36) × (length b.now ≤ 36) × (1 ≤ n) × (1 ≤ m) }
    ensures { out.new ≡ commands_from 0x20 n 0 a.now ++ commands_from 0x21 m 0 b.now }
{
    let (states, inputs) = out.split_at_mut(5 * a.len());
    write_commands(states, a, 0x20, n);
    write_commands(inputs, b, 0x21, m);
}

// A command for each entry of a matrix of so many columns.
fn write_commands(out: &mut [u8], entries: &[f64], byte: u8, columns: usize)
    requires { (length out.old ≡ 5 * length entries.now) × (length entries.now ≤ 36) × (1 ≤ columns) }
    ensures { out.new ≡ commands_from byte columns 0 entries.now }
{
    for (i, entry) in entries.iter().enumerate() {
        let at = 5 * i;
        let number = number_of(*entry);
        write_command(&mut out[at..at + 5], byte, i / columns, i % columns, number);
    }
}

fn number_of(entry: f64) -> i64
    ensures { (result ≡ number_in (imported entry)) × (nat_abs result ≤ 16384) }
{
    match import_entry(entry) {
        Ok(Entry::Whole(number) | Entry::Near(number, _)) => number,
        Err(_) => 0,
    }
}

fn write_command(out: &mut [u8], byte: u8, row: usize, column: usize, number: i64)
    requires { (length out.old ≡ 5) × (row < 256) × (column < 256) × (nat_abs number ≤ 16384) }
    ensures { out.new ≡ byte ∷ row ∷ column ∷ signed_bytes 2 number }
{
    let word = twos_complement(number, 65536);
    out[0] = byte;
    out[1] = row as u8;
    out[2] = column as u8;
    write_unsigned(&mut out[3..5], word);
}
