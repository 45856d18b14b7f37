// The plan of passes and the state of its steps: definitions and laws. The types stand here so that the definitions can speak of them.
#![tactic(auto)]

pub mod state; // state.rt: the state, which goes in and comes back

use bank::{Geometry, PASSES, PLACES};

// A plan: the geometry, whether the spent area is blanked, the number of passes, the rows of every pass in one flat array, a
// complement for each pass.
#[derive(Clone, Copy, Debug, PartialEq, Eq)]
pub struct Plan {
    pub geometry: Geometry,
    pub blanks: bool,
    pub count: u32,
    pub rows: [u32; PLACES],
    pub complements: [u32; PASSES],
}

// The phases of a memoryload; the last is in plans that blank alone.
#[derive(Clone, Copy, Debug, PartialEq, Eq)]
pub enum Phase {
    Reads,
    Writes,
    Blanks,
}
