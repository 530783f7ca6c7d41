// Which part is redrawn (RULES 6.3): the rectangle of each step.
ghost use Rattle.std.specs.Prelude.{◌≡◌, true, cond, [], ◌∷◌, map, ◌≤◌, ◌<◌};
ghost use Rattle.filter.specs.Rect.{canvas_of, empty, meet as met, join as joined};
ghost use Rattle.filter.specs.Reach.{window, still, moved, grow};
ghost use Rattle.filter.specs.Kinds.{sight, here, around, first_inputs, kernel_sight, sight_across, sight_down, reads};
ghost use Rattle.filter.specs.Convolutions.{convolution?};
ghost use Rattle.filter.specs.Layers.{reached as reachedBy};
ghost use Rattle.filter.specs.Accepted.{Within, Near, most_of, Measured};
ghost use Rattle.filter.specs.Limits.{longest_side};
ghost use Rattle.damage.specs.InputRects.{rect_of, AllWithin};

use super::rectangle::{canvas, join, meet, none, shift, widen};
use filter::kinds::{ahead_of, back_of};
use filter::{Input, Inputs, Pass, Rect, Shape, Sheet, Shift};
use pixel::{Convolution, Edge};

// What a step's rectangle is worked out from: the canvas, the changed rectangle, and that of each layer so far.
#[derive(Clone, Copy)]
struct Changes {
    width: usize,
    height: usize,
    changed: Rect,
    rects: [Rect; Sheet::STEPS],
    ghost wide: { width ≤ longest_side },
    ghost high: { height ≤ longest_side },
    ghost within: { AllWithin longest_side longest_side changed rects },
}

impl Changes {
    // The rectangle of an input, empty for a layer that a sheet cannot have.
    #[tactic(auto, unfolding(crate::specs::InputRects::rect_of))]
    fn rect_at(&self, input: Input) -> Rect
        ensures value { result ≡ rect_of self.now.changed self.now.rects input }
        ensures within { Within longest_side longest_side result }
    {
        match input {
            Input::Source | Input::SourceAlpha => self.changed,
            Input::Layer(k) => self.rects.get(k).copied().unwrap_or(none()),
        }
    }

    // The input's own rectangle, where there is such an input, joined to that of those after it.
    fn join_input(&self, present: bool, input: Input, rest: Rect) -> Rect
        ensures { result ≡ cond present (joined (grow (window still still) (rect_of self.now.changed self.now.rects input)) rest) rest }
    {
        if present {
            return join(widen(self.rect_at(input), 0, 0, 0, 0), rest);
        }
        rest
    }

    #[tactic(auto, unfolding(filter::specs::Layers::reached))]
    fn reached_shift(&self, input: Input, dx: Shift, dy: Shift) -> Rect
        requires { Near dx × Near dy }
        ensures { result ≡ reachedBy (around input (moved dx.plus dx.minus) (moved dy.plus dy.minus) ∷ []) (rect_of self.now.changed self.now.rects) }
    {
        join(shift(self.rect_at(input), dx, dy), none())
    }

    // It grows to the right by what a pass looks back, and to the left by what it looks ahead.
    #[tactic(auto, unfolding(filter::specs::Layers::reached))]
    fn reached_pass(&self, pass: Pass, input: Input, dx: usize, dy: usize) -> Rect
        requires { (dx ≤ most_of pass) × (dy ≤ most_of pass) }
        ensures { result ≡ reachedBy (around input (sight pass dx) (sight pass dy) ∷ []) (rect_of self.now.changed self.now.rects) }
    {
        let left = ahead_of(pass, dx);
        let right = back_of(pass, dx);
        let up = ahead_of(pass, dy);
        let down = back_of(pass, dy);
        let r = self.rect_at(input);
        join(widen(r, left, right, up, down), none())
    }

    #[tactic(auto, unfolding(filter::specs::Layers::reached))]
    fn reached_pair(&self, a: Input, b: Input) -> Rect
        ensures { result ≡ reachedBy (here a ∷ here b ∷ []) (rect_of self.now.changed self.now.rects) }
    {
        let second = self.join_input(true, b, none());
        self.join_input(true, a, second)
    }

    fn reached_merge(&self, n: usize, inputs: Inputs) -> Rect
        ensures { result ≡ reachedBy (map here (first_inputs n inputs)) (rect_of self.now.changed self.now.rects) }
    {
        let fourth = self.join_input(3 < n, inputs.fourth, none());
        let third = self.join_input(2 < n, inputs.third, fourth);
        let second = self.join_input(1 < n, inputs.second, third);
        self.join_input(0 < n, inputs.first, second)
    }

    #[tactic(auto, unfolding(filter::specs::Layers::reached))]
    fn reached_convolve(&self, k: Convolution, input: Input) -> Rect
        requires { convolution? k ≡ true }
        ensures { result ≡ reachedBy (around input (sight_across self.now.width k) (sight_down self.now.height k) ∷ []) (rect_of self.now.changed self.now.rects) }
    {
        let edge = k.edge;
        let width = self.width;
        let height = self.height;
        let left = kernel_ahead(edge, width, k.columns, k.column);
        let right = kernel_back(edge, width, k.column);
        let up = kernel_ahead(edge, height, k.rows, k.row);
        let down = kernel_back(edge, height, k.row);
        let r = self.rect_at(input);
        join(widen(r, left, right, up, down), none())
    }

    // What a change of the inputs can reach.
    #[tactic(auto, unfolding(filter::specs::Layers::reached, filter::specs::Kinds::reads, filter::specs::Accepted::Measured))]
    fn reached(&self, shape: Shape) -> Rect
        requires { Measured shape }
        ensures { result ≡ reachedBy (reads self.now.width self.now.height shape) (rect_of self.now.changed self.now.rects) }
    {
        match shape {
            Shape::Flood(_) => none(),
            Shape::Offset(i, dx, dy) => self.reached_shift(i, dx, dy),
            Shape::Pass(p, i, dx, dy) => self.reached_pass(p, i, dx, dy),
            Shape::Map(_, i) => self.join_input(true, i, none()),
            Shape::Pair(_, i, j) => self.reached_pair(i, j),
            Shape::Merge(n, inputs) => self.reached_merge(n, inputs),
            Shape::Convolve(k, i) => self.reached_convolve(k, i),
        }
    }
}

// How far a convolution looks back along a line of m places; t is its target.
fn kernel_back(edge: Edge, m: usize, t: usize) -> usize
    requires { (m ≤ longest_side) × (t ≤ longest_side) }
    ensures { (result ≡ (kernel_sight edge m 0 t).back) × (result ≤ longest_side) }
{
    match edge {
        Edge::Duplicate | Edge::Wrap => m,
        Edge::None => t,
    }
}

// And ahead; n is its order.
fn kernel_ahead(edge: Edge, m: usize, n: usize, t: usize) -> usize
    requires { t < n }
    ensures { result ≡ (kernel_sight edge m n t).ahead }
{
    match edge {
        Edge::Duplicate | Edge::Wrap => m,
        Edge::None => n - 1 - t,
    }
}

// The rectangle of a step, from the bounds of its region: last it is cut to the canvas and to the region.
pub fn damage_of(
    width: usize,
    height: usize,
    shape: Shape,
    region: Rect,
    changed: Rect,
    rects: [Rect; Sheet::STEPS],
) -> Rect
    requires { Measured shape × AllWithin longest_side longest_side changed rects × (width ≤ longest_side) × (height ≤ longest_side) }
    ensures { (result ≡ met (met (canvas_of width height) region) (reachedBy (reads width height shape) (rect_of changed rects))) × Within width height result }
{
    let changes = Changes {
        width,
        height,
        changed,
        rects,
    };
    meet(meet(canvas(width, height), region), changes.reached(shape))
}
