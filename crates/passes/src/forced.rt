// What inputs and drift force on the states.
ghost use Rattle.std.specs.Prelude.{◌*◌, ◌<◌, ◌≤◌, ◌≡◌, length, replicate, pos};
ghost use Rattle.integer.specs.Places.{Bounded, Stretch, Steps};
ghost use Rattle.commands.specs.Ranges.{most_entry, most_drift, most_number};
ghost use Rattle.passes.specs.Sums.{forcing};

use primal::dot::dot;

fn force_step<'a>(
    forced: &mut [i64; 72],
    b: &'a [i64; 24],
    drift: &'a [i64; 6],
    v: &'a [i64; 120],
    k: usize,
)
    requires { (k < 12) × (length forced.old ≡ 72) × Bounded most_entry b.now × Bounded most_drift drift.now × Bounded most_number v.now }
    ensures { Stretch (6 * k) 6 (forcing b.now drift.now v.now k) forced.old forced.new }
{
    for i in 0..6 {
        forced[6 * k + i] = dot(b, 4 * i, v, 10 * k, 1, 4) + drift[i];
    }
}

// What all steps' inputs force, into `forced`.
pub fn force<'a>(
    forced: &mut [i64; 72],
    b: &'a [i64; 24],
    drift: &'a [i64; 6],
    v: &'a [i64; 120],
    horizon: usize,
)
    requires { (horizon ≤ 12) × (forced.old ≡ replicate 72 (pos 0)) × Bounded most_entry b.now × Bounded most_drift drift.now × Bounded most_number v.now }
    ensures { Steps 6 horizon (forcing b.now drift.now v.now) forced.new }
{
    for k in 0..horizon {
        force_step(forced, b, drift, v, k);
    }
}
