// Where the marks stand: a mark for each place that a command can give. These are A, row by row at a
// stride of 6, B at a stride of 4, w, the columns, x(0), command 50 or 51, and the references by step,
// column by column at a stride of 12.
pub const STATE_PLACE: usize = 0;

pub const INPUT_PLACE: usize = 36;

pub const DRIFT_PLACE: usize = 60;

pub const COLUMN_PLACE: usize = 66;

pub const START_PLACE: usize = 76;

pub const ROUNDS_PLACE: usize = 82;

pub const REFERENCE_PLACE: usize = 83;

pub const PLACE_COUNT: usize = 203;
