// Plans made for an order.
#![tactic(auto)]

pub mod make; // make.rt: the plan for an order
