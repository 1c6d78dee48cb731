// Lawful books that no one would ship, so that nothing leans on how a shipped book works.
#![tactic(auto)]

mod by_length;
mod nothing;
mod only_root;
#[cfg(test)]
mod shipped;
#[cfg(test)]
mod tests;
