// Checks 1 to 13: what is asked of a call and of its steps.
#![tactic(auto)]

pub mod answers;
pub mod checks;
pub mod sizes;
