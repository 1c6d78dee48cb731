#![tactic(auto)]

#[cfg(test)]
mod fault_tests;
#[cfg(test)]
mod line_tests;
#[cfg(test)]
mod name_tests;
#[cfg(test)]
mod type_tests;
