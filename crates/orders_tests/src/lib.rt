// Lawful orders that no one would ship, so that nothing leans on how a shipped order works.
#![tactic(auto)]

pub mod few_places;
pub mod one_place;
pub mod reversed;
#[cfg(test)]
mod tests;
