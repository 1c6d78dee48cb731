#![tactic(auto)]

pub mod fault;
pub mod line;
pub mod name;
pub mod record;
pub mod set;
pub mod types;
