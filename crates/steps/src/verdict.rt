// Step 3's verdict on the candidate.
ghost use Rattle.std.specs.Prelude.{◌≡◌};
ghost use Rattle.steps.specs.Held.{impossible_by, verdict_by};

#[derive(Clone, Copy)]
pub enum Verdict {
    Proved(i64),
    Impossible,
}

// The verdict on a floor with no accepted plan.
fn without_plan(highest: i64, floor: i64) -> Option<Verdict>
    ensures { result ≡ impossible_by highest floor }
{
    if highest < floor {
        return Some(Verdict::Impossible);
    }
    None
}

// From the candidate's gap, unless it is dropped, and from T, the ceiling and the floor.
pub fn verdict_of(gap: Option<i64>, wanted: i64, highest: i64, floor: i64) -> Option<Verdict>
    ensures { result ≡ verdict_by gap wanted highest floor }
{
    match gap {
        Some(gap) if gap <= wanted => Some(Verdict::Proved(gap)),
        _ => without_plan(highest, floor),
    }
}
