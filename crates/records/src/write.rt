// A record as bytes.
ghost use Rattle.std.specs.Prelude.{◌+◌, ◌*◌, ◌^◌, ◌≤◌, ◌++◌, ◌≡◌, length};
ghost use Rattle.integer.specs.Places.{Bounded};
ghost use Rattle.commands.specs.Ranges.{most_number};
ghost use Rattle.records.specs.Readers.{absent, number_bytes, Seen, head, duty_bytes, unproved, laboratory_bytes, plan_count, service_length, sized, seen, service_bytes};
ghost use Rattle.records.specs.Held.{Fits};
ghost use Rattle.records.specs.Records.{Proved, Impossible, Open, record_with};

use crate::Sizes;
use integer::bytes::{twos_complement, write_unsigned};
use integer::number::size;

// Numbers of so many bytes each; `count` is how many numbers those can stand for.
fn write_numbers(part: &mut [u8], numbers: &[i32], width: usize, count: usize)
    requires { (length part.old ≡ width * length numbers.now) × (count ≡ 256 ^ width) × (count ≤ 4294967296) × Bounded count numbers.now }
    ensures { part.new ≡ number_bytes width numbers.now }
{
    for i in 0..numbers.len() {
        let at = width * i;
        let end = at + width;
        let word = twos_complement(numbers[i] as i64, count);
        write_unsigned(&mut part[at..end], word);
    }
}

// Kind, number of duties and rounds.
fn write_head(part: &mut [u8], kind: usize, duties: usize, rounds: usize)
    requires { length part.old ≡ 4 }
    ensures { part.new ≡ head kind duties rounds }
{
    write_unsigned(&mut part[0..1], kind);
    write_unsigned(&mut part[1..2], duties);
    write_unsigned(&mut part[2..4], rounds);
}

// The duties, and FF for those beyond m.
fn write_duties(part: &mut [u8], duties: &[i32])
    requires { (length part.old ≡ 8) × (length duties.now ≤ 4) × Bounded most_number duties.now }
    ensures { part.new ≡ duty_bytes duties.now }
{
    let end = 2 * duties.len();
    write_numbers(&mut part[0..end], duties, 2, 65536);
    part[end..].fill(0xFF);
}

// No gap and no duties: FF throughout.
fn write_unproved(part: &mut [u8], kind: usize, rounds: usize)
    requires { length part.old ≡ 16 }
    ensures { part.new ≡ unproved kind rounds }
{
    write_head(&mut part[0..4], kind, 0, rounds);
    part[4..8].fill(0xFF);
    part[8..16].fill(0xFF);
}

// The laboratory's bytes, and the sizes.
fn write_sized(part: &mut [u8], laboratory: &[u8], sizes: Sizes)
    requires { (length part.old ≡ 19) × (length laboratory.now ≡ 16) }
    ensures { part.new ≡ sized laboratory.now sizes }
{
    part[0..16].copy_from_slice(laboratory);
    write_unsigned(&mut part[16..17], sizes.n);
    write_unsigned(&mut part[17..18], sizes.m);
    write_unsigned(&mut part[18..19], sizes.horizon);
}

fn write_laboratory(part: &mut [u8], rounds: usize, gap: i64, duties: &[i32])
    requires { (length part.old ≡ 16) × (length duties.now ≤ 4) × Bounded most_number duties.now }
    ensures { part.new ≡ laboratory_bytes (Seen.Proved rounds gap duties.now) }
{
    write_head(&mut part[0..4], 1, duties.len(), rounds);
    write_unsigned(&mut part[4..8], size(gap) as usize);
    write_duties(&mut part[8..16], duties);
}

pub fn write_proved(
    laboratory: &mut [u8],
    service: &mut [u8],
    sizes: Sizes,
    rounds: usize,
    gap: i64,
    plan: &[i32],
    multipliers: &[i32],
)
    requires { (length laboratory.old ≡ 16) × (length service.old ≡ service_length sizes) × Fits (record_with sizes rounds (Proved gap plan.now multipliers.now)) }
    ensures laboratory_after { laboratory.new ≡ laboratory_bytes (seen (record_with sizes rounds (Proved gap plan.now multipliers.now))) }
    ensures service_after { service.new ≡ service_bytes (record_with sizes rounds (Proved gap plan.now multipliers.now)) }
{
    let middle = 19 + 4 * plan.len();
    write_laboratory(laboratory, rounds, gap, &plan[..sizes.m]);
    write_sized(&mut service[0..19], laboratory, sizes);
    write_numbers(&mut service[19..middle], plan, 4, 4294967296);
    write_numbers(&mut service[middle..], multipliers, 4, 4294967296);
}

// What 'impossible' and 'open' have in common: all but the multipliers.
fn write_without_plan(
    laboratory: &mut [u8],
    front: &mut [u8],
    sizes: Sizes,
    kind: usize,
    rounds: usize,
)
    requires { (length laboratory.old ≡ 16) × (length front.old ≡ 19 + 4 * plan_count sizes) }
    ensures laboratory_after { laboratory.new ≡ unproved kind rounds }
    ensures front_after { front.new ≡ sized (unproved kind rounds) sizes ++ absent (4 * plan_count sizes) }
{
    write_unproved(laboratory, kind, rounds);
    write_sized(&mut front[0..19], laboratory, sizes);
    front[19..].fill(0xFF);
}

pub fn write_impossible(
    laboratory: &mut [u8],
    service: &mut [u8],
    sizes: Sizes,
    rounds: usize,
    multipliers: &[i32],
)
    requires { (length laboratory.old ≡ 16) × (length service.old ≡ service_length sizes) × Fits (record_with sizes rounds (Impossible multipliers.now)) }
    ensures laboratory_after { laboratory.new ≡ laboratory_bytes (seen (record_with sizes rounds (Impossible multipliers.now))) }
    ensures service_after { service.new ≡ service_bytes (record_with sizes rounds (Impossible multipliers.now)) }
{
    let middle = 19 + 4 * (sizes.horizon * (sizes.n + sizes.m));
    write_without_plan(laboratory, &mut service[0..middle], sizes, 2, rounds);
    write_numbers(&mut service[middle..], multipliers, 4, 4294967296);
}

pub fn write_open(laboratory: &mut [u8], service: &mut [u8], sizes: Sizes, rounds: usize)
    requires { (length laboratory.old ≡ 16) × (length service.old ≡ service_length sizes) × Fits (record_with sizes rounds Open) }
    ensures laboratory_after { laboratory.new ≡ laboratory_bytes (seen (record_with sizes rounds Open)) }
    ensures service_after { service.new ≡ service_bytes (record_with sizes rounds Open) }
{
    let middle = 19 + 4 * (sizes.horizon * (sizes.n + sizes.m));
    write_without_plan(laboratory, &mut service[0..middle], sizes, 3, rounds);
    service[middle..].fill(0xFF);
}
