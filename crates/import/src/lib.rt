// Entries of A and B straight from the identification tool: 64-bit floats as whole numbers of
// 4,096ths.
#![tactic(auto)]

ghost use Rattle.std.specs.Prelude.{◌≡◌};
ghost use Rattle.import.specs.Entries.{imported, Exact};

use float::nearest;

// What an entry is imported as: a whole number, or one with what is left of 4096 times the entry.
#[derive(Clone, Copy)]
pub enum Entry {
    Whole(i64),
    Near(i64, f64),
}

// Why an entry is refused, 16 or 17.
#[derive(Clone, Copy, Debug, PartialEq, Eq, Hash)]
pub enum ImportError {
    NotFinite,
    TooLarge,
}

// Only for a finite entry is entry - entry 0. 4.0001220703125 is 16,384.5 / 4,096: within it the
// product with 4,096 is exact, and so is the product less its nearest whole number.
pub fn import_entry(entry: f64) -> Result<Entry, ImportError>
    ensures value { result ≡ imported entry }
    ensures exact { Exact entry result }
{
    if entry - entry != 0.0 {
        return Err(ImportError::NotFinite);
    }
    if 4.0001220703125 <= entry {
        return Err(ImportError::TooLarge);
    }
    if entry < -4.0001220703125 {
        return Err(ImportError::TooLarge);
    }
    let product = entry * 4096.0;
    let number = nearest(product);
    let whole = number as f64;
    if product == whole {
        return Ok(Entry::Whole(number));
    }
    Ok(Entry::Near(number, product - whole))
}
