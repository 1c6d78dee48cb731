// Orders of places.
#![tactic(auto)]

pub mod canonical;
pub mod order;
pub mod salted;
