// A stripe: a block on each drive, read or blanked, side by side.
#![tactic(auto)]

pub mod stripe; // stripe.rt: where a stripe lies, its read and its blank
