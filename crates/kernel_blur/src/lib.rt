// Box passes of a blur on lines of bytes in one buffer, and pixels of a row to and from lines.
#![tactic(auto)]

pub mod pass; // a box pass over lines
pub mod blur; // the three passes
pub mod rows; // rows of bytes that lie a stride apart: copied, and turned into lines
