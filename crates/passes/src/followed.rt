// Step 3's candidate: the inputs of step 2, and the states that the model gives, with their cost.
ghost use Rattle.std.specs.Prelude.{◌+◌, ◌*◌, ◌<◌, ◌≤◌, ◌≡◌, is_none, IfSome, length, nat_abs};
ghost use Rattle.integer.specs.Places.{Bounded};
ghost use Rattle.integer.specs.Sum.{sum};
ghost use Rattle.integer.specs.Tests.{any};
ghost use Rattle.commands.specs.Ranges.{most_entry, most_number};
ghost use Rattle.tape.specs.declared.Tape.{Tape};
ghost use Rattle.problem.specs.Model.{rounded};
ghost use Rattle.problem.specs.Cost.{cost};
ghost use Rattle.primal.specs.Padded.{padded_plan};
ghost use Rattle.steps.specs.Steps.{exceeds};
ghost use Rattle.steps.specs.Held.{FilledUnless};
ghost use Rattle.lookup.specs.Table.{term_in, Rows};
ghost use Rattle.passes.specs.Sums.{most_forced, sum_by};
ghost use Rattle.passes.specs.Followed.{Lends, FollowedBy};

use integer::number::is_outside;
use primal::cost::cost_of;
use primal::model::{from_states, state_of};

// x(k+1,i) as the model gives it from the states before it and what is forced.
fn next_state<'a>(
    a: &'a [i64; 36],
    forced: &'a [i64; 72],
    start: &'a [i64; 6],
    plan: &'a [i64; 120],
    k: usize,
    i: usize,
) -> i64
    requires { (k < 12) × (i < 6) × Bounded most_entry a.now × Bounded most_forced forced.now × Bounded most_number start.now × Bounded most_number plan.now }
    ensures { result ≡ rounded (sum_by a.now forced.now start.now plan.now k i) }
{
    state_of(from_states(a, start, plan, k, i) + forced[6 * k + i])
}

// Stores the n states after step k, and tells their cost, unless one is outside its limits: then only
// those before it are stored.
fn follow_step<'a>(
    plan: &mut [i64; 120],
    table: &'a [i64; 840],
    a: &'a [i64; 36],
    forced: &'a [i64; 72],
    start: &'a [i64; 6],
    n: usize,
    k: usize,
) -> Option<i64>
    requires k_bound { (k < 12) × (n ≤ 6) × (length plan.old ≡ 120) × Bounded most_number plan.old × Rows table.now }
    requires bounded { Bounded most_entry a.now × Bounded most_forced forced.now × Bounded most_number start.now }
    ensures dropped_value { is_none result ≡ any n (λ i. exceeds (term_in table.now (10 * k + (4 + i)))
        (rounded (sum_by a.now forced.now start.now plan.old k i))) }
    ensures filled_unless { FilledUnless result (10 * k + 4) n
        (λ i. rounded (sum_by a.now forced.now start.now plan.old k i)) plan.old plan.new }
    ensures cost_value { IfSome result (λ total. (total ≡ sum n (λ i. cost (term_in table.now (10 * k + (4 + i)))
        (rounded (sum_by a.now forced.now start.now plan.old k i)))) × (nat_abs total ≤ 6 * (1044480 * 1600000000))) }
{
    let mut total: i64 = 0;
    for i in 0..n {
        let p = 10 * k + (4 + i);
        let x = next_state(a, forced, start, plan, k, i);
        if is_outside(x, table[7 * p + 1], table[7 * p + 2]) {
            return None;
        }
        plan[p] = x;
        total += cost_of(table[7 * p], table[7 * p + 3], x);
    }
    Some(total)
}

// Puts the model's states beside the inputs of the plan, and tells their cost. It ends at the first
// state outside its limits, which drops the candidate: the states after that one could pass 64 bits.
pub fn follow<'a>(
    plan: &mut [i64; 120],
    table: &'a [i64; 840],
    a: &'a [i64; 36],
    forced: &'a [i64; 72],
    start: &'a [i64; 6],
    n: usize,
    horizon: usize,
) -> Option<i64>
    requires n_bound { (n ≤ 6) × (horizon ≤ 12) × (length plan.old ≡ 120) × Bounded most_number plan.old × Rows table.now }
    requires bounded { Bounded most_entry a.now × Bounded most_forced forced.now × Bounded most_number start.now }
    ensures followed_by { (t : Tape) → Lends t table.now a.now forced.now start.now n horizon plan.old →
        FollowedBy t (padded_plan plan.old).u plan.new result }
    ensures cost_bound { IfSome result (λ total. nat_abs total ≤ 72 * (1044480 * 1600000000)) }
{
    let mut total: i64 = 0;
    for k in 0..horizon {
        total += follow_step(plan, table, a, forced, start, n, k)?;
    }
    Some(total)
}
