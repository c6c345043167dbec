// Document 01's ranges: from minus the most to the most, where no least is given.
pub const MOST_ENTRY: i64 = 16384;

pub const LEAST_ENTRY: i64 = -16384;

pub const MOST_DRIFT: i64 = 16777216;

pub const LEAST_DRIFT: i64 = -16777216;

pub const MOST_NUMBER: i64 = 20000;

pub const LEAST_NUMBER: i64 = -20000;

pub const MOST_WEIGHT: i64 = 255;

pub const MOST_ROUNDS: usize = 10000;

pub const MOST_MULTIPLIER: i64 = 16777216;

pub const LEAST_MULTIPLIER: i64 = -16777216;
