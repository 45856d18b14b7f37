// What the writes of a pass need, worked out once a pass, and where in its pass a step stands.
#![tactic(auto)]

pub mod pace; // pace.rt: which pass, load, phase and tier is a step?
pub mod tables; // tables.rt: what a pass's writes need, worked out once a pass
