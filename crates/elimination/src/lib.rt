// The one elimination that answers every question about a matrix.
#![tactic(auto)]

pub mod echelon; // echelon.rt: the entries so far
pub mod reduce; // reduce.rt: columns reduced one after the other
pub mod questions; // questions.rt: what is sent to zero, the source of an address, the inverse, spills
