// Lines of words and numbers on standard output, for the test programs.
#![tactic(auto)]

use std::io;

// Writes a line's first word.
pub fn word(rt: &impl Print, text: &[u8]) -> io::Result<()> {
    rt.write_all(text)
}

// Writes a blank, and x in decimal.
pub fn number(rt: &impl Print, x: i64) -> io::Result<()> {
    print!(rt; " {x}")
}

// The same for an unsigned number.
pub fn unsigned(rt: &impl Print, x: u64) -> io::Result<()> {
    print!(rt; " {x}")
}

// Ends the line.
pub fn end(rt: &impl Print) -> io::Result<()> {
    rt.write_all(b"\n")
}
