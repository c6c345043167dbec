// The functions of `integer` at their edges. The expected output was worked out apart.
#![tactic(auto)]

use integer::bytes::{signed_at, unsigned_at};
use integer::number::{limit, quotient, quotient_up, root_up, size, square_quotient};
use std::io;

fn main(rt: HostRuntime) -> io::Result<()> {
    quotients(&rt)?;
    quotients_up(&rt)?;
    limits(&rt)?;
    sizes(&rt)?;
    squares(&rt)?;
    roots(&rt)?;
    operands(&rt, &[0x00, 0x00, 0x00, 0x00])?;
    operands(&rt, &[0x01, 0x02, 0x03, 0x04])?;
    operands(&rt, &[0xFF, 0x7F, 0xFF, 0x7F])?;
    operands(&rt, &[0x00, 0x80, 0x00, 0x80])?;
    operands(&rt, &[0xFF, 0xFF, 0xFF, 0xFF])?;
    operands(&rt, &[0xFF, 0xFF, 0xFF, 0x7F])?;
    operands(&rt, &[0x00, 0x00, 0x00, 0x80])
}

// Around 0; S + 2,048 over 4,096 for S = -2,048 and -2,049; the ends of an i64.
fn quotients(rt: &impl Print) -> io::Result<()> {
    print::word(rt, b"quotient")?;
    print::number(rt, quotient(-2048, 4096))?;
    print::number(rt, quotient(-2049, 4096))?;
    print::number(rt, quotient(-2048 + 2048, 4096))?;
    print::number(rt, quotient(-2049 + 2048, 4096))?;
    print::number(rt, quotient(4095, 4096))?;
    print::number(rt, quotient(4096, 4096))?;
    print::number(rt, quotient(-4096, 4096))?;
    print::number(rt, quotient(-4097, 4096))?;
    print::number(rt, quotient(9223372036854775807, 1))?;
    print::number(rt, quotient(-9223372036854775808, 1))?;
    print::number(rt, quotient(-9223372036854775808, 9223372036854775807))?;
    print::number(rt, quotient(-1, 9223372036854775807))?;
    print::end(rt)
}

// The same, rounded up.
fn quotients_up(rt: &impl Print) -> io::Result<()> {
    print::word(rt, b"quotient_up")?;
    print::number(rt, quotient_up(0, 4096))?;
    print::number(rt, quotient_up(1, 4096))?;
    print::number(rt, quotient_up(-1, 4096))?;
    print::number(rt, quotient_up(4096, 4096))?;
    print::number(rt, quotient_up(4097, 4096))?;
    print::number(rt, quotient_up(-4095, 4096))?;
    print::number(rt, quotient_up(-4096, 4096))?;
    print::number(rt, quotient_up(-4097, 4096))?;
    print::number(rt, quotient_up(9223372036854775807, 1))?;
    print::number(rt, quotient_up(-9223372036854775808, 1))?;
    print::number(rt, quotient_up(9223372036854775807, 2))?;
    print::number(rt, quotient_up(-9223372036854775808, 9223372036854775807))?;
    print::number(rt, quotient_up(1, 9223372036854775807))?;
    print::end(rt)
}

fn limits(rt: &impl Print) -> io::Result<()> {
    print::word(rt, b"limit")?;
    print::number(rt, limit(-16777217, -16777216, 16777216))?;
    print::number(rt, limit(-16777216, -16777216, 16777216))?;
    print::number(rt, limit(0, -16777216, 16777216))?;
    print::number(rt, limit(16777216, -16777216, 16777216))?;
    print::number(rt, limit(16777217, -16777216, 16777216))?;
    print::number(rt, limit(5, 7, 7))?;
    print::end(rt)
}

fn sizes(rt: &impl Print) -> io::Result<()> {
    print::word(rt, b"size")?;
    print::unsigned(rt, size(0))?;
    print::unsigned(rt, size(-1))?;
    print::unsigned(rt, size(-16777216))?;
    print::unsigned(rt, size(16777216))?;
    print::unsigned(rt, size(9223372036854775807))?;
    print::unsigned(rt, size(-9223372036854775808))?;
    print::end(rt)
}

// M10's two slopes with P = 4,096; the largest slope with the least and the largest weight.
fn squares(rt: &impl Print) -> io::Result<()> {
    print::word(rt, b"square")?;
    print::number(rt, square_quotient(409600, 16384))?;
    print::number(rt, square_quotient(409599, 16384))?;
    print::number(rt, square_quotient(-409599, 16384))?;
    print::number(rt, square_quotient(0, 16384))?;
    print::number(rt, square_quotient(137438953471, 16384))?;
    print::number(rt, square_quotient(-137438953471, 16384))?;
    print::number(rt, square_quotient(137438953471, 4177920))?;
    print::number(rt, square_quotient(-83558400000, 4177920))?;
    print::end(rt)
}

// Around squares; 4P times the gap of tape F, and with the largest weight and gap; the largest u64.
fn roots(rt: &impl Print) -> io::Result<()> {
    print::word(rt, b"root")?;
    print::unsigned(rt, root_up(0))?;
    print::unsigned(rt, root_up(1))?;
    print::unsigned(rt, root_up(2))?;
    print::unsigned(rt, root_up(4))?;
    print::unsigned(rt, root_up(5))?;
    print::unsigned(rt, root_up(536870912))?;
    print::unsigned(rt, root_up(536848900))?;
    print::unsigned(rt, root_up(536848901))?;
    print::unsigned(rt, root_up(17944029761126400))?;
    print::unsigned(rt, root_up(18446744065119617025))?;
    print::unsigned(rt, root_up(18446744065119617026))?;
    print::unsigned(rt, root_up(18446744073709551615))?;
    print::end(rt)
}

// Four bytes as every operand that starts at the first of them, and as one that ends at the last.
fn operands(rt: &impl Print, s: &[u8; 4]) -> io::Result<()> {
    print::word(rt, b"operands")?;
    print::unsigned(rt, unsigned_at::<1>(s, 0) as u64)?;
    print::unsigned(rt, unsigned_at::<2>(s, 0) as u64)?;
    print::number(rt, signed_at::<2>(s, 0))?;
    print::number(rt, signed_at::<2>(s, 2))?;
    print::unsigned(rt, unsigned_at::<4>(s, 0) as u64)?;
    print::number(rt, signed_at::<4>(s, 0))?;
    print::end(rt)
}
