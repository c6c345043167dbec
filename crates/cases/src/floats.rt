// Floats by the 16 hexadecimal digits of their bits.
use std::io;

// Writes a float's bits as a number; not a number has none.
pub fn bits(rt: &impl Print, x: f64) -> io::Result<()> {
    if x == x {
        print::unsigned(rt, f64::to_bits(x))
    } else {
        print::word(rt, b" nan")
    }
}

// The float whose bits stand in 8 bytes, the high byte first; 0 where there are not so many.
pub fn float_at(bytes: &[u8], at: usize) -> f64 {
    bytes
        .get(at..)
        .and_then(|rest| rest.first_chunk::<8>())
        .map_or(0.0, |bits| float_of(u64::from_be_bytes(*bits)))
}

// Every NaN is one: it has no bits to be made from.
fn float_of(bits: u64) -> f64 {
    if 9218868437227405312 < bits % 9223372036854775808 {
        return 0.0 / 0.0;
    }
    f64::from_bits(bits)
}
