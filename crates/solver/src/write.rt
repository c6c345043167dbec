// Writing a plan and multipliers into the lent slices.
ghost use Rattle.std.specs.Prelude.{◌+◌, ◌*◌, ◌<◌, ◌≤◌, ◌≡◌, ◌++◌, length};
ghost use Rattle.integer.specs.Places.{at, Bounded};
ghost use Rattle.commands.specs.Ranges.{most_number, most_multiplier};
ghost use Rattle.primal.specs.Padded.{padded, padded_plan};
ghost use Rattle.primal.specs.Lent.{listed, lent_multipliers, lent_plan};

// Fills a part with the numbers from a place on.
fn write_numbers(part: &mut [i32], from: &[i64], first: usize)
    requires { (first + length part.old ≤ length from.now) × Bounded most_multiplier from.now }
    ensures { part.new ≡ listed (length part.old) (λ j. at from.now (first + j)) }
{
    for j in 0..part.len() {
        part[j] = from[first + j] as i32;
    }
}

// Fills step k's stretch of a plan: its m inputs, then its n states.
fn write_step(part: &mut [i32], v: &[i64; 120], n: usize, m: usize, k: usize)
    requires { (length part.old ≡ n + m) × (n ≤ 6) × (m ≤ 4) × (k < 12) × Bounded most_number v.now }
    ensures { part.new ≡ listed m ((padded_plan v.now).u k) ++ listed n ((padded_plan v.now).x k) }
{
    let (inputs, states) = part.split_at_mut(m);
    write_numbers(inputs, v, 10 * k);
    write_numbers(states, v, 10 * k + 4);
}

// Writes each step into that step's own stretch of the plan.
pub fn write_plan(plan: &mut [i32], v: &[i64; 120], n: usize, m: usize, horizon: usize)
    requires { (length plan.old ≡ horizon * (n + m)) × (n ≤ 6) × (m ≤ 4) × (horizon ≤ 12) × Bounded most_number v.now }
    ensures { plan.new ≡ lent_plan n m horizon (padded_plan v.now) }
{
    let width = n + m;
    for k in 0..horizon {
        let first = k * width;
        write_step(&mut plan[first..first + width], v, n, m, k);
    }
}

pub fn write_multipliers(multipliers: &mut [i32], y: &[i64; 72], n: usize, horizon: usize)
    requires { (length multipliers.old ≡ horizon * n) × (n ≤ 6) × (horizon ≤ 12) × Bounded most_multiplier y.now }
    ensures { multipliers.new ≡ lent_multipliers n horizon (padded y.now) }
{
    for k in 0..horizon {
        let first = k * n;
        write_numbers(&mut multipliers[first..first + n], y, 6 * k);
    }
}
