// What the program `sheet` prints, stored in a buffer: RULES 9.7. A function stores its text from the index `at` on and
// gives the index after it.
#![tactic(auto)]

pub mod digits;
pub mod lines;
