// The call that writes a firing record.
ghost use Rattle.std.specs.Prelude.{◌≡◌, length};
ghost use Rattle.tape.specs.Reading.{reading};
ghost use Rattle.recorder.specs.Calls.{recorded_at, answer_of, laboratory_left, service_left};
ghost use Rattle.planner.specs.Records.{recorded_code, recorded_left, recorded_numbers, UpheldInBy};

use crate::answer::answer;
use recorder::{Recorded, write_record};

// Solves a tape and writes its record. `out` then holds the kind.
#[unsafe(no_mangle)]
pub extern "C" fn fibergravel_record(
    tape: &[u8],
    laboratory: &mut [u8],
    service: &mut [u8],
    out: &mut [i64; 1],
) -> u64
    ensures value { result ≡ recorded_code (answer_of (recorded_at tape.now (length laboratory.old) (length service.old))) }
    ensures out_after { out.new ≡ recorded_left (answer_of (recorded_at tape.now (length laboratory.old) (length service.old))) out.old }
    ensures laboratory_after { laboratory.new ≡ laboratory_left (recorded_at tape.now (length laboratory.old) (length service.old)) laboratory.old }
    ensures service_after { service.new ≡ service_left (recorded_at tape.now (length laboratory.old) (length service.old)) service.old }
    ensures upheld_in_by { UpheldInBy result out.new (reading tape.now).tape laboratory.new service.new }
{
    answer(
        write_record(tape, laboratory, service).map(recorded_numbers),
        out,
    )
}

fn recorded_numbers(kind: Recorded) -> [i64; 1]
    ensures { result ≡ recorded_numbers kind }
{
    match kind {
        Recorded::Proved => [1],
        Recorded::Impossible => [2],
        Recorded::Open => [3],
    }
}
