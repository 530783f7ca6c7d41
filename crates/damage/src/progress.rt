// What the steps so far leave to the next one (RULES 6.5: the count).
ghost use Rattle.std.specs.Prelude.{◌≡◌, ◌+◌, ◌*◌, ◌≤◌, ◌<◌, set, replicate};
ghost use Rattle.pixel.specs.declared.Space.TheVariants.{Srgb};
ghost use Rattle.filter.specs.Rect.{empty};
ghost use Rattle.filter.specs.Accepted.{Within};
ghost use Rattle.filter.specs.Limits.{longest_side, most_pixels, most_steps};
ghost use Rattle.damage.specs.InputRects.{RectAdded};

use super::SoFar;
use super::rectangle::{area, none};
use filter::{Rect, Sheet};
use pixel::Space;

// No step drawn yet.
pub fn none_so_far() -> SoFar
    ensures { (result.rects ≡ replicate most_steps empty) × (result.count ≡ 0) × (result.spaces ≡ replicate most_steps Srgb) }
{
    SoFar {
        rects: [none(); Sheet::STEPS],
        count: 0,
        spaces: [Space::Srgb; Sheet::STEPS],
    }
}

// With the rectangle of step n.
pub fn with_rect(before: SoFar, n: usize, rect: Rect) -> SoFar
    requires { (n < most_steps) × (before.count ≤ n * most_pixels) × Within longest_side longest_side rect }
    ensures { RectAdded n rect before result }
{
    let mut now = before;
    now.rects[n] = rect;
    now.count += area(rect);
    now
}

// With the working space of step n.
pub fn with_space(before: SoFar, n: usize, space: Space) -> SoFar
    requires { n < most_steps }
    ensures { (result.rects ≡ before.rects) × (result.count ≡ before.count) × (result.spaces ≡ set before.spaces n space) }
{
    let mut now = before;
    now.spaces[n] = space;
    now
}
