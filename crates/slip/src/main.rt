// The printing program: reads a tape from standard input and prints its firing slip. Where it cannot
// read or write it says so on standard error, and ends with status 1.
#![tactic(auto)]

ghost use Rattle.std.specs.Prelude.{OnOk, IfSome};
ghost use Rattle.std.specs.Io.KnownBytes.{Appends};
ghost use Rattle.slip_text.specs.Slip.{tape_slip};

use slip_text::tape_slip;
use std::alloc::Global;
use std::io;
use std::io::{Read, Write};
use tape::DECIDING_BYTES;

fn main(rt: HostRuntime) -> io::Result<()> {
    print_slip(rt.alloc(), rt.reader(), &mut io::writer(&rt))
}

// Writes the slip of all the bytes that are left to read. So many of them decide it, however much
// follows: that is the law `slip_decided` of slip_text. A read that fails is an error, however much
// came before it, and never the end of the tape.
fn print_slip<R: Read + Drop, W: Write>(alloc: Global, input: R, output: &mut W) -> io::Result<()>
    ensures { OnOk result (IfSome (R.remaining input)
        (λ tape. Appends (W.contents output.old) (W.contents output.new) (tape_slip tape))) }
{
    let mut tape = Vec::new(alloc);
    input.take(DECIDING_BYTES as u64).read_to_end(&mut tape)?;
    let slip = tape_slip(&tape);
    let bytes = slip.bytes;
    let length = slip.length;
    output.write_all(&bytes[..length])
}
