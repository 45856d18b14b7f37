// How are words, numbers and rows of bits written into a room, and which line does a refusal have?
#![tactic(auto)]

pub mod write; // write.rt: words, numbers and rows into a room
pub mod refusal; // refusal.rt: the line for an order that is refused
