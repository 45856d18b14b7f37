// The operations of planning, steps 1 and 2, on slices of columns: word operations, one elimination at a time.
#![tactic(auto)]

pub mod columns; // columns.rt: the lower parts of columns
mod marks; // marks.rt: sets of columns as numbers
pub mod operations; // operations.rt: steps 1 and 2
