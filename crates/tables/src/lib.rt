// What the programs over tables share: how a field of a table's line is read, and what a line says of a buffer.
#![tactic(auto)]

pub mod content;
pub mod field;
