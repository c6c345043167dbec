// The calls that import models of the identification tool.
ghost use Rattle.std.specs.Prelude.{◌≡◌, length};
ghost use Rattle.import.specs.Entries.{imported, refusal_number};
ghost use Rattle.models.specs.Models.{model_answer, model_left};
ghost use Rattle.planner.specs.Imports.{entry_left, leftover_left, ExactBy, model_code, ReadBackBy};

use import::{Entry, ImportError, import_entry};
use models::import_model;
use numbers::code;

// Imports an entry. `out` then holds kind and number, `leftover` what is left.
#[unsafe(no_mangle)]
pub extern "C" fn fibergravel_import_entry(
    entry: f64,
    out: &mut [i64; 2],
    leftover: &mut [f64; 1],
) -> u64
    ensures value { result ≡ refusal_number (imported entry) }
    ensures out_after { out.new ≡ entry_left (imported entry) out.old }
    ensures leftover_after { leftover.new ≡ leftover_left (imported entry) leftover.old }
    ensures exact_by { ExactBy result entry out.new leftover.new }
{
    match import_entry(entry) {
        Ok(Entry::Whole(number)) => {
            *out = [1, number];
            *leftover = [0.0];
            0
        }
        Ok(Entry::Near(number, rest)) => {
            *out = [2, number];
            *leftover = [rest];
            0
        }
        Err(ImportError::NotFinite) => 16,
        Err(ImportError::TooLarge) => 17,
    }
}

// Imports a model. `out` then holds its commands.
#[unsafe(no_mangle)]
pub extern "C" fn fibergravel_import_model(
    n: usize,
    m: usize,
    a: &[f64],
    b: &[f64],
    out: &mut [u8],
) -> u64
    ensures value { result ≡ model_code (model_answer n m a.now b.now (length out.old)) }
    ensures out_after { out.new ≡ model_left (model_answer n m a.now b.now (length out.old)) n m a.now b.now out.old }
    ensures read_back_by { ReadBackBy result n m a.now b.now out.new }
{
    match import_model(n, m, a, b, out) {
        Ok(()) => 0,
        Err(why) => code(why),
    }
}
