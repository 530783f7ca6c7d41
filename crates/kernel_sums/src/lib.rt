// Sums of byte columns over a window of lines: begun, moved on by a line, and divided.
#![tactic(auto)]

pub mod reciprocal; // division of a window's sum by its size, without dividing
pub mod sums; // the sums of byte columns, moved on by a line
pub mod running; // the sums of a box pass: those before the first line, and lines that enter and leave
