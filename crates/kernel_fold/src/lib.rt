// Folds by the least or the largest: of bytes that lie in one buffer, and of whole lines of them.
#![tactic(auto)]

pub mod between;
pub mod fold;
pub mod line;

// Erode takes the least, dilate the largest.
#[derive(Clone, Copy)]
pub enum Extreme {
    Least,
    Largest,
}
