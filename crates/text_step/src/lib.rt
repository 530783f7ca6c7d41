// The line of one step: RULES 9.
#![tactic(auto)]

mod convolutions;
pub mod fields;
mod kinds;
mod layout;
mod spaces;
pub mod step_lines;
mod transfers;
