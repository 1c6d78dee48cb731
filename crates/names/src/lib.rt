#![tactic(auto)]

pub mod name;
pub mod refusal;
pub mod types;
