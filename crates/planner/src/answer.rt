// How every call ends that has numbers to hand over.
ghost use Rattle.std.specs.Prelude.{◌≤◌, ◌≡◌, IfErr, MatchResult};
ghost use Rattle.commands.specs.Ranges.{most_rounds};
ghost use Rattle.tape.specs.Refusals.{row, figure};
ghost use Rattle.numbers.specs.Numbers.{code_of};

use numbers::code;
use tape::refusal::Refusal;

// Leaves the numbers of a result in `out` and returns 0; or returns the refusal's code, and `out` stays
// as it was.
pub fn answer<const N: usize>(numbers: Result<[i64; N], Refusal>, out: &mut [i64; N]) -> u64
    requires { IfErr numbers (λ why. figure (row why).carries ≤ most_rounds) }
    ensures value { MatchResult numbers.entry (λ _. result ≡ 0) (λ why. result ≡ code_of why) }
    ensures out_after { MatchResult numbers.entry (λ held. out.new ≡ held) (λ _. out.new ≡ out.old) }
{
    match numbers {
        Ok(held) => {
            *out = held;
            0
        }
        Err(why) => code(why),
    }
}
