// Which part is redrawn: rectangles, a step resolved, and what the steps so far leave to the next.
#![tactic(auto)]

pub mod damage;
pub mod progress;
pub mod rectangle;
pub mod resolve;

use filter::{Rect, Sheet};
use pixel::Space;

// What the steps so far leave to the next: the redraw rectangle of each layer, how many pixels they have, and the space that each is
// kept in.
#[derive(Clone, Copy)]
pub struct SoFar {
    pub rects: [Rect; Sheet::STEPS],
    pub count: usize,
    pub spaces: [Space; Sheet::STEPS],
}
