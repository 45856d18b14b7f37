// Steps and runs on lent bytes.
#![tactic(auto)]

mod lent; // lent.rt: the buffers that a call lends
pub mod run; // run.rt: a run with an allowance
pub mod step; // step.rt: a step that is asked for
