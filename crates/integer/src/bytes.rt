// Numbers as bytes, the low byte first. Operands of a tape are read, each with its range; the reader
// knows that an operand is there, since it has refused a command that is cut. Numbers are written for
// a tape or a record.
ghost use Rattle.std.specs.Prelude.{◌+◌, ◌*◌, ◌^◌, ◌<◌, ◌≤◌, ◌≡◌, cond, ltb, pos, nat_abs, neg_ℤ, ◌-ℤ◌, ◌*ℤ◌, length};
ghost use Rattle.integer.specs.Encoding.{unsigned_bytes, complement};
ghost use Rattle.integer.specs.Order.{◌≼◌, ◌≺◌};
ghost use Rattle.integer.specs.Operand.{unsigned, signed, operand};

// N bytes, unsigned.
pub fn unsigned_at<const N: usize>(s: &[u8], at: usize) -> usize
    requires { (at + N ≤ length s.now) × (N ≤ 4) }
    ensures { (result ≡ unsigned (operand N s.now at)) × (result < 256 ^ N) }
{
    let mut number: usize = 0;
    for i in (0..N).rev() {
        number = 256 * number + s[at + i] as usize;
    }
    number
}

// N bytes, signed.
pub fn signed_at<const N: usize>(s: &[u8], at: usize) -> i64
    requires { (at + N ≤ length s.now) × (N ≤ 4) }
    ensures value { result ≡ signed (operand N s.now at) }
    ensures range { (neg_ℤ (pos (256 ^ N)) ≼ pos 2 *ℤ result) × (pos 2 *ℤ result ≺ pos (256 ^ N)) }
{
    from_twos_complement(unsigned_at::<N>(s, at), 256usize.pow(N as u32))
}

// The number that v stands for among count numbers of two's complement.
fn from_twos_complement(v: usize, count: usize) -> i64
    requires { (v < count) × (count ≤ 4294967296) }
    ensures { result ≡ cond (ltb (2 * v) count) (pos v) (pos v -ℤ pos count) }
{
    if 2 * v < count {
        return v as i64;
    }
    v as i64 - count as i64
}

// What stands for a number among count numbers of two's complement.
pub fn twos_complement(number: i64, count: usize) -> usize
    requires { (nat_abs number ≤ count) × (count ≤ 4294967296) }
    ensures { result ≡ complement count number }
{
    if number < 0 {
        return (number + count as i64) as usize;
    }
    number as usize
}

// Fills a part with a number's bytes, as many as the part has.
pub fn write_unsigned(part: &mut [u8], number: usize)
    ensures { part.new ≡ unsigned_bytes (length part.old) number }
{
    let mut rest = number;
    for byte in part.iter_mut() {
        *byte = (rest % 256) as u8;
        rest = rest / 256;
    }
}
