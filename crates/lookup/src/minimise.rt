// Step 2 of a round: the slopes, the minimisers and their costs in one pass.
ghost use Rattle.std.specs.Prelude.{◌+◌, ◌*◌, ◌<◌, ◌≤◌, ◌≡◌, length, replicate, set, pos, nat_abs};
ghost use Rattle.integer.specs.Places.{Bounded, Stretch, Steps};
ghost use Rattle.integer.specs.Sum.{sum};
ghost use Rattle.commands.specs.Ranges.{most_entry, most_multiplier};
ghost use Rattle.problem.specs.Cost.{cost};
ghost use Rattle.dual.specs.Slopes.{by_place, most_slope};
ghost use Rattle.steps.specs.Steps.{minimiser};
ghost use Rattle.lookup.specs.Table.{term_in, Rows};
ghost use Rattle.lookup.specs.Numbers.{input_number, state_number};

use crate::table::number_at;
use dual::slopes::{input_slope_at, state_slope_at};
use primal::cost::cost_of;

// Stores the number that slope s gives at place p; its cost.
fn put_number(v: &mut [i64; 120], table: &[i64; 840], p: usize, s: i64) -> i64
    requires { (p < 120) × (length v.old ≡ 120) × Rows table.now × (nat_abs s ≤ most_slope) }
    ensures stored { v.new ≡ set v.old p (minimiser (term_in table.now p) s) }
    ensures value { result ≡ cost (term_in table.now p) (minimiser (term_in table.now p) s) }
{
    let x = number_at(table, p, s);
    v[p] = x;
    cost_of(table[7 * p], table[7 * p + 3], x)
}

// Stores the inputs of step k; their cost. This and `state_numbers` share `put_number` and no loop: one
// over a closure for the slope is no plainer, since its contract has to say what each call returns.
fn input_numbers(
    v: &mut [i64; 120],
    table: &[i64; 840],
    b: &[i64; 24],
    y: &[i64; 72],
    k: usize,
) -> i64
    requires { (k < 12) × (length v.old ≡ 120) × Rows table.now × Bounded most_entry b.now × Bounded most_multiplier y.now }
    ensures stretch { Stretch (10 * k) 4 (input_number table.now b.now y.now k) v.old v.new }
    ensures value { result ≡ sum 4 (λ j. cost (term_in table.now (10 * k + j)) (input_number table.now b.now y.now k j)) }
{
    let mut total: i64 = 0;
    for j in 0..4 {
        total += put_number(v, table, 10 * k + j, input_slope_at(b, y, k, j));
    }
    total
}

// Stores the states after step k; their cost.
fn state_numbers(
    v: &mut [i64; 120],
    table: &[i64; 840],
    a: &[i64; 36],
    y: &[i64; 72],
    k: usize,
    horizon: usize,
) -> i64
    requires { (k < horizon) × (horizon ≤ 12) × (length v.old ≡ 120) × Rows table.now × Bounded most_entry a.now × Bounded most_multiplier y.now }
    ensures stretch { Stretch (10 * k + 4) 6 (state_number horizon table.now a.now y.now k) v.old v.new }
    ensures value { result ≡ sum 6 (λ i. cost (term_in table.now (10 * k + (4 + i))) (state_number horizon table.now a.now y.now k i)) }
{
    let mut total: i64 = 0;
    for i in 0..6 {
        total += put_number(
            v,
            table,
            10 * k + (4 + i),
            state_slope_at(a, y, k, i, horizon),
        );
    }
    total
}

// What the inputs cost, and what the states cost.
#[derive(Clone, Copy)]
pub struct Costs {
    pub inputs: i64,
    pub states: i64,
}

// Stores the minimisers of all steps; their cost.
pub fn minimise<'a>(
    v: &mut [i64; 120],
    table: &'a [i64; 840],
    a: &'a [i64; 36],
    b: &'a [i64; 24],
    y: &'a [i64; 72],
    horizon: usize,
) -> Costs
    requires { (horizon ≤ 12) × (v.old ≡ replicate 120 (pos 0)) × Rows table.now × Bounded most_entry a.now × Bounded most_entry b.now × Bounded most_multiplier y.now }
    ensures steps { Steps 10 horizon (by_place (input_number table.now b.now y.now)
        (state_number horizon table.now a.now y.now)) v.new × (length v.new ≡ 120) }
    ensures inputs_value { result.inputs ≡ sum horizon (λ k. sum 4 (λ j. cost (term_in table.now (10 * k + j)) (input_number table.now b.now y.now k j))) }
    ensures states_value { result.states ≡ sum horizon (λ k. sum 6 (λ i. cost (term_in table.now (10 * k + (4 + i))) (state_number horizon table.now a.now y.now k i))) }
{
    let mut inputs: i64 = 0;
    let mut states: i64 = 0;
    for k in 0..horizon {
        inputs += input_numbers(v, table, b, y, k);
        states += state_numbers(v, table, a, y, k, horizon);
    }
    Costs {
        inputs: inputs,
        states: states,
    }
}
