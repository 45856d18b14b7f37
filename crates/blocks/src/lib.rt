// One move: a stripe read or blanked, or a block written on each drive.
#![tactic(auto)]

mod block; // block.rt: a block filled record by record
pub mod moves; // moves.rt: one write, and the move of a step
